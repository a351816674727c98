//! A text of the page: `page/pair/pair.css`. Made by `page/embed.py`.

pub(crate) const TEXT: &str = r#"/* The page of two runs. */
#end.pair { display: block; }
#end h1.pair { padding-left: 0; } #end h1.pair::before { content: none; }
#end .parts { margin: 2px 0 8px; max-width: 130ch; }
.sides { display: grid; grid-template-columns: 1fr 1fr; gap: 12px; }
.side { padding: 8px 12px 10px; border-top: 3px solid var(--rule); }
.side.taken { border-top-color: var(--ink); }
.side h2 { padding: 0 0 0 30px; font-size: 16px; line-height: 1.35; margin: 6px 0 4px; position: relative; }
.side ul { max-height: 12.5em; overflow-y: auto; }
.take, button.caption { border: 1px solid var(--rule); border-radius: 6px; background: var(--paper); color: inherit;
  font: 600 13px var(--prose); cursor: pointer; }
.take { padding: 3px 10px; margin-right: 6px; }
.take[aria-pressed="true"] { background: var(--ink); color: var(--paper); border-color: var(--ink); }
button.caption { display: block; width: 100%; height: 26px; padding: 0 6px 0 12px; border-width: 0; border-radius: 0;
  background: var(--faint); text-align: left; overflow: hidden; white-space: nowrap; }
.gap { height: 4px; } /* the room below the last lane */
.pic .side-title { font: 600 12.5px sans-serif; }
.pic.caption .sheet { fill: var(--faint); } .pic.caption .sheet.taken { fill: var(--here); }
.pic .parting { stroke: var(--ink); stroke-width: 1.5; stroke-dasharray: 5 3; fill: none; }
@media (max-width: 720px) { .sides { grid-template-columns: minmax(0, 1fr); } }
"#;
