//! A text of the page: `page/pair/two_start.js`. Made by `page/embed.py`.

pub(crate) const TEXT: &str =
    r#"// ---------------------------------------------------------------- the page of two runs begins

KEYS.o = () => showSide(1 - shownSide);
byId("keys").querySelector("tbody").append(
  html("tr", {}, html("td", {}, html("kbd", {}, "o")), html("td", {}, "show the other run")));

/** Gathers what belongs to a run. */
function makeSide(k) {
  put({ ...taken(), ...sides[k], position: 0 });
  makeRun();
  sides[k] = taken();
}

makeSide(1);
makeSide(0);
byId("heads").replaceChildren(...headsOfBoth());
begin();
byId("end").addEventListener("click", onSide);
byId("heads").addEventListener("click", onSide);
if (!followLink()) goTo(differing || parting || steps.length);
"#;
