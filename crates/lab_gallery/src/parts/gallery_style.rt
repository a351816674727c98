//! A text of the page: `page/gallery/gallery.css`. Made by `page/embed.py`.

pub(crate) const TEXT: &str = r#"/* The page that leads to all others. */
body { max-width: 1500px; margin: 0 auto; width: 100%; }
header { padding: 16px 0 4px; }
h1 { font-size: 22px; line-height: 1.3; font-weight: 650; margin-bottom: 4px; }
header p, section > p { max-width: 100ch; text-wrap: pretty; }
main > section { padding: 14px 0 6px; }
main h2 { font-size: 17px; margin-bottom: 4px; }
a { white-space: normal; }
button { font: inherit; font-size: 13px; color: inherit; padding: 2px 10px; border: 1px solid var(--rule);
  border-radius: 6px; background: var(--paper); cursor: pointer; }

/* Levels, in their order. */
#level-list { list-style: none; margin-top: 8px; display: grid; gap: 6px;
  grid-template-columns: repeat(auto-fill, minmax(min(100%, 340px), 1fr)); }
#level-list li { display: grid; grid-template-columns: 28px minmax(0, 1fr); gap: 2px 8px; padding: 8px 10px;
  border: 1px solid var(--rule); border-radius: 8px; background: var(--paper); }
#level-list .number { grid-row: span 2; width: 28px; height: 28px; border-radius: 14px;
  border: 1.5px solid var(--muted); font: 600 13px/25px var(--mono); text-align: center; }
#level-list .done .number { background: var(--full-ink); border-color: var(--full-ink); color: var(--paper); }
#level-list .next { border-color: var(--done); box-shadow: inset 0 0 0 1px var(--done); }
#level-list .state { color: var(--muted); font-size: 13px; }

/* Cards. */
.cards { list-style: none; margin-top: 8px; display: grid; gap: 10px;
  grid-template-columns: repeat(auto-fill, minmax(min(100%, 300px), 1fr)); }
.card { display: flex; flex-direction: column; gap: 6px; padding: 10px 12px; border: 1px solid var(--rule);
  border-radius: 8px; background: var(--paper); min-width: 0; }
.card h3 { font-size: 15px; line-height: 1.3; overflow-wrap: anywhere; }
.card p { overflow-wrap: anywhere; }
.card .ends { color: var(--muted); font-size: 13px; }
.card .links { margin-top: auto; display: flex; flex-wrap: wrap; gap: 2px 14px; }
.card .run { display: block; width: 100%; height: 72px; background: var(--ground); border-radius: 5px; }
.run .lane { stroke: var(--rule); } .sign { width: 14px; height: 12px; vertical-align: -2px; }
.done-step { fill: var(--done); } .blocked { fill: var(--blocked); stroke: var(--blocked-ink); }
.trapped { fill: var(--trapped); } .stopped { fill: var(--stopped); } .skipped { fill: var(--skipped); }
.told { margin-right: 12px; white-space: nowrap; }
"#;
