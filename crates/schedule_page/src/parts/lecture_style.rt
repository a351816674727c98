//! A text of the page: `page/play/lecture.css`. Made by `page/embed.py`.

pub(crate) const TEXT: &str = r#"/* In a lecture: the choices, the lanes and the map, large. */
.lecture :is(#lead, #source, #ends, #words, #streams, #explored) { display: none; }
.lecture main { grid-template-columns: minmax(0, 1.6fr) minmax(0, 1fr); grid-template-areas: "play state"; }
.lecture #top h1 { font-size: 24px; } .lecture #goals { font-size: 17px; }
.lecture .goal { font-size: 17px; line-height: 26px; } .lecture #map { border-top: 0; }
.lecture #told { font-size: 21px; min-height: 92px; } .lecture section h2 { font-size: 19px; }
.lecture #result h2 { font-size: 25px; } .lecture #result { font-size: 19px; }
.lecture .choice { grid-template-columns: 38px 64px minmax(0, 1fr) auto; }
.lecture .choice kbd { font-size: 20px; } .lecture .choice .who { font-size: 23px; }
.lecture .choice .statement { font: 600 20px/30px var(--mono); }
.lecture .choice :is(.place, .effect) { font-size: 18px; } .lecture .badge { font: 17px/24px var(--mono); }
.lecture .badge { border-radius: 15px; } .lecture .votes { font-size: 26px; }
.lecture :is(#skipping, #others, #only, #legend) { font-size: 17px; } .lecture #heads { width: 237px; }
.lecture :is(.actions button, .show) { font-size: 17px; line-height: 26px; }

@media (min-width: 1281px) and (min-height: 700px) {
  body { height: 100vh; }
  main { grid-template-rows: minmax(0, 1fr); }
}
@media (max-width: 1280px) {
  main { grid-template-columns: minmax(0, 1.4fr) minmax(0, 1fr); grid-template-areas: "play state" "source state";
    grid-template-rows: auto 1fr; align-items: start; flex: none; }
  #play { overflow: clip; }
  .pane { max-height: none; min-height: 0; flex: none; overflow: visible; }
  #lines { max-height: 560px; overflow: auto; }
}
@media (max-width: 860px) {
  body { padding: 0 8px 8px; }
  main { grid-template-columns: minmax(0, 1fr); grid-template-areas: "play" "state" "source"; grid-template-rows: none;
    margin-bottom: auto; }
  #goals { flex-wrap: nowrap; overflow-x: auto; scrollbar-width: none; margin: 0 -8px; padding: 2px 8px 6px; }
  #goals > * { flex: none; }
  #told { min-height: 88px; }
  #controls { order: 9; top: auto; bottom: 0; gap: 6px; }
  #controls button { min-width: 30px; padding: 0 7px; }
  #controls .group:first-child span { position: absolute; width: 1px; height: 1px; overflow: hidden;
    clip-path: inset(50%); }
  #where { flex: 1; min-width: 0; font-size: 12px; }
  #heads { width: 84px; }
  .lecture #heads { width: 120px; }
  .lecture main { grid-template-columns: minmax(0, 1fr); grid-template-areas: "play" "state"; }
  .choice { grid-template-columns: 20px 34px minmax(0, 1fr); gap: 4px 8px; padding: 7px 8px; }
  .choice .badges { grid-column: 3; justify-content: flex-start; max-width: none; min-width: 0; }
  #choices { padding: 0 8px; }
  #result { padding-left: 46px; }
}
@media (max-width: 560px) { #controls #lecture { display: none; } }
"#;
