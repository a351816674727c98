//! A text of the page: `page/base.css`. Made by `page/embed.py`.

pub(crate) const TEXT: &str =
    r#"/* The colours and what all pages have. Colour tells outcomes and full words alone, and each has a shape of its own
   beside it. */
:root { --paper: #ffffff; --ground: #f4f6f8; --ink: #1a2027; --muted: #57626d; --rule: #d9dfe5; --faint: #eaeef2;
  --here: #ffe9a8; --done: #1b67a6; --on-done: #ffffff; --done-wash: #e3eff9; --blocked: #f2b441;
  --blocked-ink: #7a4b00; --wait: #fdebc6;
  --trapped: #8d4fa8; --stopped: #c2361f; --skipped: #7b8691; --full: #b5dfd0; --full-ink: #0b6b50;
  --full-wash: #e0f3ec; --lost: #c2361f;
  --lost-wash: #fbe4df; --prose: system-ui, -apple-system, "Segoe UI", Roboto, "Helvetica Neue", Arial, sans-serif;
  --mono: ui-monospace, "SF Mono", "Cascadia Mono", Menlo, Consolas, "DejaVu Sans Mono", monospace; }
@media screen and (prefers-color-scheme: dark) {
  :root { --paper: #161b21; --ground: #0e1216; --ink: #e4e8ec; --muted: #97a3af; --rule: #2b333c; --faint: #20272e;
    --here: #3f3510; --done: #5aa9e6; --on-done: #07131d; --done-wash: #172a3a; --blocked: #e0a030;
    --blocked-ink: #f6c668; --wait: #3d3115;
    --trapped: #c593dc; --stopped: #f2765b; --skipped: #87929d; --full: #1d4f40; --full-ink: #6cd0b0;
    --full-wash: #14322a; --lost: #ff8a70;
    --lost-wash: #43201a; }
}
* { box-sizing: border-box; }
[hidden] { display: none !important; }
html { background: var(--ground); color: var(--ink); font: 14px/1.45 var(--prose); }
body { margin: 0; padding: 0 16px 16px; display: flex; flex-direction: column; min-height: 100vh; }
h1, h2, h3, p, ul, ol { margin: 0; padding: 0; }
h2 { font-size: 13px; font-weight: 600; }
code, kbd { font-family: var(--mono); font-size: .93em; }
a, .link { color: var(--done); text-underline-offset: 2px; white-space: nowrap; }
:focus-visible { outline: 2px solid var(--done); outline-offset: 1px; }
.unseen, .skip:not(:focus) { position: absolute; width: 1px; height: 1px; overflow: hidden; clip-path: inset(50%); }
.skip:focus { position: absolute; z-index: 3; padding: 6px 10px; background: var(--paper); }
.muted { color: var(--muted); }
b.lost { color: var(--lost); }
"#;
