//! A text of the page: `page/page.css`. Made by `page/embed.py`.

pub(crate) const TEXT: &str = r#"/* The page of a run. */
.more { display: block; width: 100%; padding: 6px 12px; border: 0; background: var(--faint); color: var(--done);
  font: 12.5px var(--prose); text-align: left; cursor: pointer; }

/* The end in words. */
#end { display: flex; gap: 8px 32px; align-items: center; justify-content: space-between; padding: 12px 0 10px; }
#end .name { color: var(--muted); font-size: 13px; } #end .name b { color: var(--ink); }
#end h1 { font-size: 20px; line-height: 1.3; font-weight: 650; margin: 2px 0 6px; padding-left: 30px;
  position: relative; text-wrap: balance; }
#end :is(h1, h2)::before { position: absolute; left: 0; top: 2px; width: 22px; height: 22px; border-radius: 11px;
  background: var(--full-ink); color: var(--paper); font: 700 14px/22px var(--prose); text-align: center;
  content: "✓"; }
#end :is(h1, h2).steps::before { background: var(--muted); content: "…"; line-height: 17px; }
#end :is(h1, h2).deadlock::before { background: var(--blocked); color: #1a2027; content: "∞"; border-radius: 4px; }
#end :is(h1, h2).bad::before { background: var(--lost); content: "!"; border-radius: 4px; }
body.expected { --lost: var(--muted); --stopped: var(--trapped); }
#end ul { list-style: none; padding-left: 30px; max-width: 118ch; }
#end .ring { flex: none; max-width: 100%; height: auto; }

/* Controls. */
#controls { display: flex; gap: 10px; align-items: center; padding: 6px 0; position: sticky; top: 0; z-index: 2;
  background: var(--ground); }
.group { display: flex; }
#controls button { min-width: 34px; height: 32px; padding: 0 8px; border: 1px solid var(--rule);
  background: var(--paper); color: inherit; font: 600 13px var(--prose); cursor: pointer; }
#controls button + button { margin-left: -1px; } #controls button:first-child { border-radius: 6px 0 0 6px; }
#controls button:last-child { border-radius: 0 6px 6px 0; } #controls button:hover { background: var(--faint); }
#controls [aria-disabled="true"] { color: var(--skipped); cursor: default; }
#hex[aria-pressed="true"] { background: var(--ink) !important; color: var(--paper) !important; }
#controls svg { width: 14px; height: 14px; fill: currentColor; vertical-align: -2px; }
#play[aria-pressed="false"] .halt, #play[aria-pressed="true"] .go { display: none; }
#slider { flex: 1; min-width: 60px; accent-color: var(--done); }
#where { font: 600 14px var(--mono); white-space: nowrap; min-width: 8ch; text-align: right; }

/* Three panes. */
main { display: grid; grid-template-columns: minmax(300px, 1fr) minmax(0, 2.2fr) minmax(290px, .8fr);
  grid-template-areas: "source lanes state"; gap: 12px; flex: 1; min-height: 0; }
section { background: var(--paper); border: 1px solid var(--rule); border-radius: 8px; min-width: 0; min-height: 0;
  display: flex; flex-direction: column; overflow: clip; }
#source { grid-area: source; }
#lanes { grid-area: lanes; }
#state { grid-area: state; }
.pane { position: relative; overflow: auto; flex: 1 1 0; min-height: 220px; }
section h2 { padding: 9px 12px; }
#told { padding: 10px 14px; min-height: 62px; border-bottom: 1px solid var(--rule); font-size: 14.5px; }
.outcome.blocked { color: var(--blocked-ink); }
.outcome.trapped { color: var(--trapped); }
.outcome.stopped { color: var(--stopped); }
.outcome.skipped { color: var(--muted); }
.change { background: var(--here); border-radius: 3px; padding: 0 4px; font-family: var(--mono); font-size: .93em; }
.change b, .whole { white-space: nowrap; }

/* The chart. */
#chart { display: flex; align-items: flex-start; flex: 0 1 auto; overflow-y: auto; position: relative; }
#timeline { display: flex; flex-direction: column; flex: 0 1 auto; min-height: 112px; }
#ruler { display: flex; flex: none; height: 24px; background: var(--paper); z-index: 1; }
#corner, #heads { flex: none; width: 158px; border-right: 1px solid var(--rule); }
#corner { padding-left: 15px; color: var(--muted); font: 12px/24px var(--prose); }
#numbers { flex: 1; min-width: 0; overflow: hidden; cursor: pointer; }
.strut { flex: none; margin: -6px -8px 0 0; }
.head { display: flex; gap: 8px; align-items: flex-start; width: 100%; padding: 6px 6px 0 12px; border: 0;
  border-left: 3px solid transparent; background: none; color: var(--muted); font: 12px/20px var(--prose);
  text-align: left; cursor: pointer; }
.head b { flex: none; max-width: 100%; overflow: hidden; text-overflow: ellipsis; white-space: nowrap;
  font: 600 13px/20px var(--mono); color: var(--ink); }
.head span { overflow: hidden; text-overflow: ellipsis; white-space: nowrap; }
.head.waits span { color: var(--blocked-ink); }
.head.idle b { color: var(--muted); font-weight: 400; }
.head:hover, .head[aria-pressed="true"] { background: var(--faint); }
.head.own { border-left-color: var(--ink); }
#scroll { flex: 1; min-width: 0; overflow-x: auto; overflow-y: hidden; }
#track { width: max-content; min-width: 100%; cursor: pointer; }
#picture { position: sticky; left: 0; width: max-content; }
#picture svg, #numbers svg { display: block; }
#span { display: block; visibility: hidden; margin-bottom: -1px; }
#legend { display: flex; flex-wrap: wrap; gap: 2px 14px; padding: 8px 12px; color: var(--muted); font-size: 12.5px;
  border-top: 1px solid var(--rule); }
#legend span { display: inline-flex; align-items: center; gap: 3px; }
.pic text { font: 11px sans-serif; fill: var(--ink); }
.pic .in { font: 600 10.5px monospace; text-anchor: middle; fill: var(--on-done); }
.pic .in.tiny { font-size: 9px; }
.pic .number { font: 10.5px monospace; text-anchor: middle; fill: var(--muted); }
.pic .number.now { font-weight: 700; fill: var(--paper); opacity: 1; } .pic .flag { fill: var(--ink); }
.pic .sheet { fill: var(--paper); } .pic .title { font: 600 14px sans-serif; }
.pic .name { font: 600 12px monospace; } .pic .small { font-size: 11px; }
.pic .strong { font-weight: 600; fill: var(--full-ink); } .pic .muted { fill: var(--muted); }
.pic .waits { fill: var(--blocked-ink); } .pic .stops { fill: var(--stopped); }
.pic .rule { stroke: var(--faint); } .pic .chosen { fill: var(--faint); }
.pic .now { fill: var(--here); opacity: 0.75; } .pic .opened { stroke: var(--done); stroke-width: 3; }
.pic .life { stroke: var(--rule); stroke-width: 2; }
.pic .wait { fill: var(--wait); stroke: var(--blocked); stroke-width: 1; stroke-dasharray: 2 2; }
.pic .cell rect, .pic .cell polygon, .pic .cell path { stroke: none; }
.pic .cell.done rect { fill: var(--done); }
.pic .cell.blocked rect { fill: var(--paper); stroke: var(--blocked-ink); stroke-width: 1.5; }
.pic .cell.blocked .in, .pic .cell.blocked .mark { fill: var(--blocked-ink); }
.pic .cell.trapped path { fill: var(--trapped); } .pic .cell.stopped polygon { fill: var(--stopped); }
.pic .cell.stopped .cross { stroke: var(--paper); stroke-width: 2; }
.pic .cell.skipped path { stroke: var(--skipped); stroke-width: 2; } .pic .cell .fold { opacity: 0.35; }
.pic .cell .ring, .pic .cell.here .ring { fill: none; stroke: var(--ink); stroke-width: 2; }
.pic .full { fill: var(--full); stroke: var(--full-ink); stroke-width: 1; }
.pic .empty { fill: var(--paper); stroke: var(--full-ink); stroke-width: 1; }
.pic .tick { stroke: var(--full-ink); stroke-width: 2.5; }
.pic .met { font: 10.5px monospace; fill: var(--muted); }
.pic .value { font: 600 11px monospace; fill: var(--ink); } .pic .stem { stroke: var(--done); opacity: 0.35; }
.pic .stem.blocked { stroke: var(--blocked-ink); stroke-dasharray: 2 3; }
.pic .stem.here, .pic .stem.lost { opacity: 1; } .pic .stem.lost { stroke: var(--lost); }
.pic .meet { fill: var(--done); stroke: none; }
.pic .meet.reads { fill: var(--paper); stroke: var(--done); stroke-width: 1.5; }
.pic .meet.waits { fill: var(--blocked-ink); }
.pic .meet.traps { font: 700 12px sans-serif; text-anchor: middle; fill: var(--trapped); }
.pic .meet.adds { stroke: var(--done); stroke-width: 2; } .pic .meet.lost { fill: var(--lost); }
.pic .meet.reads.lost { fill: var(--paper); stroke: var(--lost); }
.pic path.lost { fill: none; stroke: var(--lost); stroke-width: 1.5; }
.pic path.lost.cross { stroke-width: 2.5; } .pic .torn { stroke-linejoin: bevel; }
.pic text.lost { fill: var(--lost); font-weight: 600; }
.pic .arrow path { fill: none; stroke: var(--full-ink); stroke-width: 1.5; }
.pic .arrow .head { fill: var(--full-ink); stroke: none; }
.pic .arrow.causes path { stroke: var(--blocked-ink); stroke-dasharray: 4 3; }
.pic .arrow.causes .head { fill: var(--blocked-ink); stroke: none; }
.pic .round path { fill: none; stroke: var(--ink); stroke-width: 1.5; }
.pic .round .head { fill: var(--ink); stroke: none; }
.pic .arrow.here path { stroke-width: 2.5; }
.pic .cell .chain.chain, .pic .chain { fill: none; stroke: var(--ink); stroke-width: 2; stroke-dasharray: 4 2; }
.pic .arrow.comes path { stroke: var(--ink); stroke-dasharray: 1 3; }
.pic .arrow.comes .head { fill: var(--ink); stroke: none; }
.pic .edge { fill: none; stroke: var(--blocked-ink); stroke-width: 2; }
.pic .edge-head { fill: var(--blocked-ink); }
.pic .node text { text-anchor: middle; font: 600 12.5px monospace; }
.pic .node text.small, .pic.ring > .small { font: 10.5px sans-serif; fill: var(--muted); text-anchor: middle; }
.pic .node rect { fill: var(--wait); stroke: var(--blocked-ink); stroke-width: 1.5; }
.pic .node.word rect { fill: var(--paper); stroke: var(--full-ink); }

/* Source. */
.line { display: flex; width: 100%; padding: 0; border: 0; background: none; color: inherit;
  font: 12px/20px var(--mono); text-align: left; white-space: pre-wrap; overflow-wrap: anywhere; }
.line .text { flex: 1; min-width: 0; display: flex; flex-wrap: wrap; } #lines.long .count { width: 54px; }
.line .comment { flex: 1 1 16ch; }
.line .code + .comment { padding-left: 2ch; }
button.line { cursor: pointer; }
button.line:hover { background: var(--faint); }
.line .marks { width: 72px; flex: none; padding-left: 6px; display: flex; gap: 2px; align-items: flex-start;
  overflow: hidden; }
.line .count { width: 34px; flex: none; text-align: right; padding-right: 8px; color: var(--muted); }
.line .comment { color: var(--muted); }
.line.from { background: var(--here); }
.line[aria-pressed="true"] { box-shadow: inset 3px 0 var(--ink); background: var(--faint); }
.mark { flex: none; white-space: nowrap; font-size: 11px; line-height: 16px; margin: 2px 0; padding: 0 4px;
  border-radius: 8px; background: var(--faint); border: 1px solid var(--muted); }
.mark.own { background: var(--ink); border-color: var(--ink); color: var(--paper); }
.mark.blocked { border-color: var(--blocked-ink); background: var(--wait); color: var(--blocked-ink); }
.mark.own.blocked { background: var(--blocked-ink); color: var(--paper); }

/* State and tables. */
table { border-collapse: collapse; width: 100%; font-size: 13px; }
#state th, #state td { text-align: left; font-weight: 400; padding: 3px 12px; vertical-align: top;
  border-top: 1px solid var(--faint); overflow-wrap: anywhere; }
#state th { color: var(--muted); white-space: nowrap; padding-right: 0; width: 1%; }
#state td { font-family: var(--mono); font-size: 12.5px; overflow-wrap: normal; }
#state td:nth-child(3):not(.note) { white-space: nowrap; }
#state td.note { overflow-wrap: anywhere; min-width: 12ch; font: 12.5px var(--prose); color: var(--muted); }
#state tr.changed { box-shadow: inset 3px 0 var(--blocked); }
#state tr[aria-selected] { background: var(--faint); } #state p { padding: 0 12px 8px; }
.waiting { color: var(--blocked-ink); }
.tag { margin-left: 4px; padding: 1px 7px; border-radius: 9px; font-size: 12px; font-weight: 500;
  background: var(--faint); }
.tag.blocked { background: var(--wait); color: var(--blocked-ink); }
.tag.stopped { background: var(--lost-wash); color: var(--stopped); }
button.word { padding: 0; border: 0; background: none; color: var(--done); font: 600 12.5px var(--mono);
  cursor: pointer; }
.bit { display: inline-block; width: 10px; height: 10px; margin-right: 5px; border: 1.5px solid var(--full-ink); }
.bit.full { background: var(--full-ink); }
button.why { padding: 0; border: 0; background: none; color: inherit; font: inherit; text-align: left; cursor: pointer;
  text-decoration: underline dotted var(--muted); text-underline-offset: 3px; }
#why { position: relative; flex: 0 1 auto; min-height: 110px; max-height: 280px; overflow: auto;
  border-top: 1px solid var(--rule); }
#why:focus-visible { outline-offset: -2px; }
#why p { padding: 0 12px 4px; } #why ol { list-style: none; padding: 0 0 6px; font-size: 13px; }
#why li { padding: 2px 12px; border-top: 1px solid var(--faint); overflow-wrap: anywhere; }
#why li.now { background: var(--here); }
#unask { position: absolute; right: 8px; top: 6px; padding: 2px 8px; border: 1px solid var(--rule); border-radius: 6px;
  background: var(--paper); color: inherit; font: 12.5px var(--prose); cursor: pointer; }
#why h2 { padding-right: 80px; overflow-wrap: anywhere; }
#words { border-top: 1px solid var(--rule); margin-top: 6px; }
#trace { flex: 1 1 0; min-height: 150px; overflow: auto; position: relative; border-top: 1px solid var(--rule); }
#trace table { font-size: 12.5px; }
#trace td, #trace tbody th { text-align: left; padding: 2px 10px; border-top: 1px solid var(--faint);
  vertical-align: top; font: 12px/18px var(--mono); }
#trace thead th { position: sticky; top: 0; background: var(--paper); text-align: left; padding: 5px 10px;
  font-weight: 500; color: var(--muted); z-index: 1; }
#trace tbody th { text-align: right; width: 56px; }
#trace :is(#waits, #streams) :is(td, th) { font: 12.5px/18px var(--prose); text-align: left; }
#steps td:not(:last-child) { white-space: nowrap; }
#steps .change { background: none; padding: 0; white-space: nowrap; }
#trace tr.now td, #trace tr.now th { background: var(--here); }
#trace caption:not(.unseen) { text-align: left; font-weight: 600; padding: 14px 10px 2px; }
dialog { border: 1px solid var(--rule); border-radius: 10px; background: var(--paper); color: var(--ink);
  max-width: 520px; padding: 8px 18px 16px; }
dialog::backdrop { background: rgb(0 0 0 / .4); } dialog h2 { padding: 6px 0; font-size: 16px; }
dialog td { padding: 4px 14px 4px 0; vertical-align: top; } dialog p { margin: 10px 0; }
kbd { border: 1px solid var(--rule); border-bottom-width: 2px; border-radius: 4px; padding: 0 5px;
  white-space: nowrap; }
#paper { display: none; }
@media (min-width: 1281px) and (min-height: 700px) {
  body { height: 100vh; }
  main { grid-template-rows: minmax(0, 1fr); }
}
@media (max-width: 1280px) {
  main { grid-template-columns: minmax(0, 1.3fr) minmax(0, 1fr); grid-template-areas: "lanes lanes" "source state"; }
  .pane { max-height: 560px; flex-basis: auto; }
  #trace { flex-basis: 260px; }
  #ruler { position: sticky; top: 44px; }
  #timeline, #chart { flex: none; }
  #end .ring { flex: 0 1 auto; width: auto; min-width: 380px; }
}
@media (max-width: 720px) {
  body { padding: 0 8px 8px; }
  #end { flex-direction: column; align-items: stretch; } #end ul { padding-left: 0; }
  main { grid-template-columns: minmax(0, 1fr); grid-template-areas: "lanes" "state" "source"; }
  #controls { order: 9; top: auto; bottom: 0; flex-wrap: wrap; gap: 6px; }
  #controls button { min-width: 30px; padding: 0 5px; }
  #end .ring { align-self: center; min-width: 0; }
  #slider { order: -1; flex-basis: 70%; }
  #where { order: -1; min-width: 0; }
  #corner, #heads { width: 62px; }
  #corner { padding-left: 8px; }
  #ruler { top: 0; }
  .head { padding-left: 5px; } .head span { display: none; }
  .line .marks { width: 62px; padding-left: 2px; }
}
@media print {
  :root { color-scheme: light; }
  html { background: none; }
  body { padding: 0; display: block; }
  #controls, main, .skip, dialog { display: none !important; }
  #paper { display: block; }
  #paper svg { display: block; margin: 0 0 10px; break-inside: avoid; max-width: 100%; }
  @page { size: A4 landscape; margin: 12mm; }
}
"#;
