//! A text of the page: `page/play/play.css`. Made by `page/embed.py`.

pub(crate) const TEXT: &str = r#"/* The page with every schedule. */
button { font: inherit; color: inherit; }
.link { padding: 0; border: 0; background: none; text-decoration: underline; cursor: pointer; }

/* What it is. */
#top { padding: 12px 0 8px; }
#top .name { color: var(--muted); font-size: 13px; } #top .name b { color: var(--ink); }
#top h1 { font-size: 20px; line-height: 1.3; font-weight: 650; margin: 2px 0 2px; }
#lead { max-width: 140ch; text-wrap: pretty; }

/* Signs of ends, and badges of them. */
.sign { display: inline-block; flex: none; width: 16px; height: 16px; border-radius: 8px; background: var(--muted);
  color: var(--paper); font: 700 11px/16px var(--prose); text-align: center; text-decoration: none; }
.sign.right { background: var(--full-ink); }
.sign.found { background: var(--lost-wash); color: var(--lost); box-shadow: inset 0 0 0 1.5px var(--lost); }
.sign:is(.wrong, .broken) { background: var(--lost); border-radius: 3px; }
.sign.deadlock { background: var(--blocked); color: #1a2027; border-radius: 3px; }
.sign.stopped { background: var(--stopped); border-radius: 5px; }
.sign.spinning { background: var(--trapped); }
.sign.reached { background: var(--done); }
.badge { display: inline-flex; align-items: center; gap: 5px; padding: 2px 8px 2px 3px; border-radius: 11px;
  border: 1px solid var(--rule); background: var(--paper); font: 12px/16px var(--mono); white-space: nowrap;
  min-width: 0; max-width: 100%; }
.badge .text { overflow: hidden; text-overflow: ellipsis; }
.badge.right { background: var(--full-wash); border-color: var(--full-ink); }
.badge:is(.wrong, .broken, .stopped) { background: var(--lost-wash); border-color: var(--lost); }
.badge.deadlock { background: var(--wait); border-color: var(--blocked-ink); }
.badge.gone { background: none; border: 1px dashed var(--skipped); color: var(--muted); }
.badge.gone .text { text-decoration: line-through; }
.badge.gone .sign { background: none; color: var(--muted); box-shadow: inset 0 0 0 1px var(--skipped); }

/* Goals and controls. */
#goals { display: flex; flex-wrap: wrap; gap: 6px; align-items: center; padding: 2px 0 6px; }
#goals > span { color: var(--muted); margin-right: 2px; }
.goal { display: inline-flex; align-items: center; gap: 7px; padding: 4px 12px 4px 8px; border: 1px solid var(--rule);
  border-radius: 16px; background: var(--paper); font-size: 13px; line-height: 20px; cursor: pointer;
  text-align: left; }
.goal.free { padding-left: 12px; }
.goal:hover { background: var(--faint); }
.goal[aria-pressed="true"] { background: var(--ink); border-color: var(--ink); color: var(--paper); }
.goal .done { font-weight: 600; }
#controls { display: flex; flex-wrap: wrap; gap: 8px 10px; align-items: center; padding: 6px 0; position: sticky;
  top: 0;
  z-index: 2; background: var(--ground); }
.group { display: flex; }
#controls button { display: inline-flex; align-items: center; gap: 6px; justify-content: center; min-width: 34px;
  height: 32px; padding: 0 11px; border: 1px solid var(--rule); background: var(--paper); font: 600 13px var(--prose);
  cursor: pointer; border-radius: 6px; }
#controls .group button { border-radius: 0; } #controls .group button + button { margin-left: -1px; }
#controls .group button:first-child { border-radius: 6px 0 0 6px; }
#controls .group button:last-child { border-radius: 0 6px 6px 0; }
#controls button:hover { background: var(--faint); }
#controls [aria-disabled="true"] { color: var(--skipped); cursor: default; }
#controls [aria-pressed="true"] { background: var(--ink); color: var(--paper); border-color: var(--ink); }
#controls svg { width: 13px; height: 13px; fill: currentColor; }
#where { font: 600 13px var(--mono); min-width: 9ch; flex: 1; }

/* Three panes. */
main { display: grid; grid-template-columns: minmax(290px, .86fr) minmax(0, 1.85fr) minmax(390px, 1.1fr);
  grid-template-areas: "source play state"; gap: 12px; flex: 1; min-height: 0; }
section { background: var(--paper); border: 1px solid var(--rule); border-radius: 8px; min-width: 0; min-height: 0;
  display: flex; flex-direction: column; overflow: clip; }
#source { grid-area: source; } #play { grid-area: play; overflow-y: auto; position: relative; }
  #play > * { flex: none; } #state { grid-area: state; }
.pane { position: relative; overflow: auto; flex: 1 1 0; min-height: 220px; }
section h2 { padding: 9px 14px; }
#source h2, #state h2 { padding: 9px 12px; }

/* What happened, and an end. */
#told { padding: 11px 14px 10px; min-height: 66px; border-bottom: 1px solid var(--rule); font-size: 14.5px; }
.change { background: var(--here); border-radius: 3px; padding: 0 4px; font-family: var(--mono); font-size: .93em;
  white-space: nowrap; }
.waits, .waiting { color: var(--blocked-ink); } .note .waiting { white-space: nowrap; }
.trap { color: var(--trapped); }
#result { padding: 12px 14px 12px 50px; position: relative; border-bottom: 1px solid var(--rule);
  background: var(--faint); }
#result.right { background: var(--full-wash); } #result:is(.wrong, .broken, .stopped) { background: var(--lost-wash); }
#result.deadlock { background: var(--wait); } #result.reached { background: var(--done-wash); }
#result > .sign { position: absolute; left: 15px; top: 14px; width: 24px; height: 24px; border-radius: 12px;
  font: 700 15px/24px var(--prose); }
#result > .sign:not(.right, .reached) { border-radius: 5px; }
#result h2 { padding: 0; font-size: 17px; font-weight: 650; line-height: 1.35; text-wrap: balance; }
#result ul { list-style: none; } #result li > .sign { vertical-align: -2px; } #result li { margin-top: 3px; }
#result .won { font-weight: 600; }
.actions { display: flex; flex-wrap: wrap; gap: 6px; margin-top: 9px; }
.actions button, .show, dialog button { padding: 3px 11px; border: 1px solid var(--rule); border-radius: 6px;
  background: var(--paper); font: 600 12.5px/20px var(--prose); cursor: pointer; }
:is(.actions button, .show, dialog button):hover { background: var(--faint); }
.actions button { border-color: var(--muted); }

/* The choices. */
#choices-title { padding-bottom: 5px; }
.row { display: flex; flex-wrap: wrap; justify-content: space-between; align-items: center; gap: 0 12px; }
#only { display: flex; gap: 6px; align-items: center; padding: 4px 14px 2px; font-size: 12.5px; color: var(--muted); }
#choices { display: grid; gap: 6px; padding: 0 12px; }
.choice { display: grid; grid-template-columns: 24px 42px minmax(0, 1fr) auto; gap: 2px 10px; align-items: center;
  width: 100%; padding: 7px 10px; border: 1px solid var(--muted); border-radius: 8px; background: var(--paper);
  text-align: left; cursor: pointer; }
.choice:hover { background: var(--done-wash); border-color: var(--done); }
.choice kbd { justify-self: center; font-weight: 600; background: var(--paper); }
.choice .who { font: 600 15px var(--mono); }
.choice .what { min-width: 0; overflow-wrap: anywhere; }
.choice .statement { font: 600 13px/20px var(--mono); }
.choice .place { color: var(--muted); font-size: 12.5px; margin-left: 8px; }
.choice .effect { display: block; font-size: 13px; color: var(--muted); }
.choice .effect .change { color: var(--ink); }
.choice .badges { display: flex; flex-wrap: wrap; gap: 4px; justify-content: flex-end; max-width: 310px; }
.choice[aria-disabled="true"] { cursor: default; border: 1px dashed var(--blocked-ink); background: none; }
.choice[aria-disabled="true"] .effect { color: var(--blocked-ink); }
.choice[aria-disabled="true"] :is(.who, .statement) { font-weight: 400; }
.choice[aria-disabled="true"] kbd { opacity: .5; }
.choice.hinted { box-shadow: 0 0 0 2px var(--done); border-color: var(--done); }
.choice.hinted .place::after { content: "hint"; margin-left: 8px; padding: 0 7px; border-radius: 9px;
  background: var(--done); color: var(--on-done); font-weight: 600; }
#others { padding: 8px 14px 0; font-size: 13px; }
kbd { border: 1px solid var(--rule); border-bottom-width: 2px; border-radius: 4px; padding: 0 5px;
  white-space: nowrap; }

#skipping { display: flex; flex-wrap: wrap; gap: 4px 10px; align-items: center; padding: 8px 14px 0; font-size: 13px; }
.votes { font: 600 15px var(--mono); white-space: nowrap; }

/* The way so far. */
#way { margin-top: 10px; border-top: 1px solid var(--rule); }
#lanes { display: flex; padding-bottom: 6px; }
#heads { flex: none; width: 158px; }
#scroll { flex: 1; min-width: 0; overflow-x: auto; overflow-y: hidden; }
#lanes svg, #graph svg { display: block; }
.pic text { font: 11px sans-serif; fill: var(--ink); }
.pic .letter { font: 700 10px sans-serif; text-anchor: middle; fill: var(--paper); }
  .pic .letter.deadlock { fill: #1a2027; }
.pic .name { font: 600 12.5px monospace; } .pic .small { font-size: 11px; fill: var(--muted); }
.pic .number { font: 10.5px monospace; text-anchor: middle; fill: var(--muted); }
.pic .number.now { font-weight: 700; fill: var(--paper); } .pic .flag { fill: var(--ink); }
.pic .now-column { fill: var(--here); opacity: .75; } .pic .rule { stroke: var(--faint); }
.pic .life { stroke: var(--rule); stroke-width: 2; }
.pic .wait { fill: var(--wait); stroke: var(--blocked); stroke-dasharray: 2 2; }
.pic .box { fill: var(--done); } .pic .box.trapped { fill: var(--trapped); } .pic .box.stopped { fill: var(--stopped); }
.pic .in { font: 600 10.5px monospace; text-anchor: middle; fill: var(--on-done); }
.pic .undone { opacity: .38; } .pic .column { cursor: pointer; } .pic .hit { fill: transparent; }
.pic .full { fill: var(--full); stroke: var(--full-ink); } .pic .empty { fill: var(--paper); stroke: var(--full-ink); }
.pic .tick { stroke: var(--full-ink); stroke-width: 2.5; }
.pic .value { font: 600 11px monospace; }
.pic .stem { stroke: var(--done); opacity: .35; }
.pic .meet { fill: var(--done); } .pic .meet.reads { fill: var(--paper); stroke: var(--done); stroke-width: 1.5; }
.pic .met { font: 10.5px monospace; fill: var(--muted); }
.pic .togo { font: 11px monospace; text-anchor: middle; } .pic .bar { fill: var(--rule); }
.pic .bar.right { fill: var(--full); } .pic .bar:is(.wrong, .broken, .stopped) { fill: var(--lost); opacity: .28; }
.pic .bar.found { fill: var(--lost); opacity: .18; }
.pic .bar.deadlock { fill: var(--blocked); opacity: .5; } .pic .bar.spinning { fill: var(--trapped); opacity: .35; }
.pic .cross { stroke: var(--lost); stroke-width: 2.5; fill: none; }
.pic .cut { fill: var(--lost); font-weight: 600; }

/* The map. */
#graph { padding: 0 8px; overflow-x: auto; }
.pic .edge { fill: none; stroke: var(--rule); stroke-width: 1.2; }
.pic .edge.path { stroke: var(--ink); stroke-width: 3; } .pic .edge.redo { stroke: var(--muted); stroke-width: 2;
  stroke-dasharray: 4 3; }
.pic .edge.next { stroke: var(--done); stroke-width: 2.2; }
.pic .state { cursor: pointer; }
.pic .state .shape { stroke: var(--paper); stroke-width: 1.5; fill: var(--muted); }
.pic .state.open .shape { fill: var(--paper); stroke: var(--done); stroke-width: 2; }
.pic .state.right .shape { fill: var(--full-ink); } .pic .state.wrong .shape { fill: var(--lost); }
.pic .state.dead .shape { fill: var(--blocked); stroke: var(--blocked-ink); stroke-width: 1; }
.pic .state.plain .shape { fill: var(--paper); stroke: var(--muted); stroke-width: 1.5; }
.pic .state .letter { font: 700 11px sans-serif; text-anchor: middle; fill: var(--paper); }
.pic .state.dead .letter { fill: #1a2027; } .pic .state.plain .letter { fill: var(--ink); }
.pic .state .halo { fill: none; } .pic .state.here .halo { fill: var(--here); stroke: var(--ink); stroke-width: 2; }
.pic .key { font: 700 11px monospace; text-anchor: middle; fill: var(--done); paint-order: stroke;
  stroke: var(--paper); stroke-width: 4px; }
.pic .layer.open { fill: var(--done); opacity: .45; } .pic .layer.right { fill: var(--full-ink); }
.pic .layer.wrong { fill: var(--lost); opacity: .8; } .pic .layer.dead { fill: var(--blocked); }
  .pic .layer.plain { fill: var(--muted); }
.pic .way { fill: none; stroke: var(--ink); stroke-width: 2.5; stroke-linejoin: round; }
.pic .dot { fill: var(--here); stroke: var(--ink); stroke-width: 2; }
#legend { display: flex; flex-wrap: wrap; gap: 2px 14px; padding: 4px 12px 10px; color: var(--muted);
  font-size: 12.5px; }
#legend span { display: inline-flex; align-items: center; gap: 5px; }
#explored { padding: 0 12px 10px; font-size: 12.5px; }

/* Source. */
.line { display: flex; width: 100%; font: 12px/20px var(--mono); white-space: pre-wrap; overflow-wrap: anywhere; }
.line .text { flex: 1; min-width: 0; display: flex; flex-wrap: wrap; } #lines.long .count { width: 54px; }
.line .comment { flex: 1 1 16ch; color: var(--muted); }
.line .code + .comment { padding-left: 2ch; }
.line .marks { width: 66px; flex: none; padding-left: 4px; display: flex; gap: 2px; align-items: flex-start;
  overflow: hidden; }
.line .count { width: 28px; flex: none; text-align: right; padding-right: 8px; color: var(--muted); }
.line.from { background: var(--here); }
.mark { flex: none; white-space: nowrap; font-size: 11px; line-height: 16px; margin: 2px 0; padding: 0 4px;
  border-radius: 8px; background: var(--faint); border: 1px solid var(--muted); }
.mark.own { background: var(--ink); border-color: var(--ink); color: var(--paper); }
.mark.blocked { border-color: var(--blocked-ink); background: var(--wait); color: var(--blocked-ink); }

/* Ends, words, streams. */
table { border-collapse: collapse; width: 100%; font-size: 13px; }
#state th, #state td { text-align: left; font-weight: 400; padding: 4px 12px; vertical-align: top;
  border-top: 1px solid var(--faint); overflow-wrap: anywhere; }
#state th { white-space: nowrap; padding-right: 0; width: 1%; font: 600 12.5px/20px var(--mono); }
#state td { font: 12.5px/20px var(--mono); }
#state td.note, #state td.togo { font: 12.5px/20px var(--prose); color: var(--muted); }
#state td:nth-child(3) { white-space: nowrap; }
#state tr.changed { box-shadow: inset 3px 0 var(--blocked); }
#ends ul { list-style: none; }
#ends li { display: flex; gap: 4px 10px; align-items: center; padding: 4px 12px; border-top: 1px solid var(--faint); }
#ends .togo { flex: 1 0 78px; text-align: right; font-size: 12.5px; color: var(--muted); }
#ends .show { flex: none; min-width: 88px; text-align: center; }
#ends .line { flex: 1 1 140px; font-size: 12.5px; overflow-wrap: anywhere; }
#map, #words, #streams { border-top: 1px solid var(--rule); }
#ends p { padding: 4px 12px 8px; font-size: 12.5px; } #ends ul + p { border-top: 1px solid var(--faint); }
#ends p .sign { vertical-align: -3px; }
.show { padding: 0 9px; }
.stream { border-top: 1px solid var(--faint); padding: 6px 12px 7px; }
.stream.stepped { box-shadow: inset 3px 0 var(--blocked); }
.stream h3 { display: flex; gap: 8px; align-items: center; font: 600 13px/20px var(--mono); }
.stream h3 .at { font: 12.5px var(--prose); color: var(--muted); overflow-wrap: anywhere; }
.stream dl { display: flex; flex-wrap: wrap; gap: 1px 14px; margin: 2px 0 0; font: 12.5px/20px var(--mono); }
.stream dl div { display: flex; gap: 6px; min-width: 0; overflow-wrap: anywhere; } .stream dt { color: var(--muted); }
.stream dd { margin: 0; }
.stream p { font-size: 12.5px; }
.tag { padding: 1px 7px; border-radius: 9px; font: 500 12px/16px var(--prose); background: var(--faint); }
.tag.blocked { background: var(--wait); color: var(--blocked-ink); }
.tag.stopped { background: var(--lost-wash); color: var(--stopped); }
.bit { display: inline-block; width: 10px; height: 10px; margin-right: 5px; border: 1.5px solid var(--full-ink); }
.bit.full { background: var(--full-ink); }
dialog { border: 1px solid var(--rule); border-radius: 10px; background: var(--paper); color: var(--ink);
  width: min(540px, calc(100vw - 24px)); padding: 8px 18px 16px; }
dialog::backdrop { background: rgb(0 0 0 / .4); } dialog h2 { padding: 6px 0; font-size: 16px; }
dialog td { padding: 4px 14px 4px 0; vertical-align: top; } dialog p { margin: 10px 0; }
textarea { width: 100%; font: 12.5px/18px var(--mono); color: inherit; background: var(--ground);
  border: 1px solid var(--rule); border-radius: 6px; padding: 6px 8px; resize: vertical; }
"#;
