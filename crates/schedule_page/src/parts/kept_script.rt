//! A text of the page: `page/play/kept.js`. Made by `page/embed.py`.

pub(crate) const TEXT: &str =
    r#"// ---------------------------------------------------------------- goals that were reached, for the gallery's page

/** Keeps in the browser that an end of a kind was reached in so many steps, by one who had a goal, if these are the
  fewest yet; gallery/reached.js reads it. A browser that keeps nothing for a page is asked in vain. */
function keepReached(e, n) {
  try {
    const key = `mta_lab ${kinds[e]} ${data.name}`;
    if (n < Number(localStorage.getItem(key) ?? Infinity)) localStorage.setItem(key, String(n));
  } catch { /* nothing is kept */ }
}

/** Shows all ends, where a link of the gallery asks for them. */
function showAllEnds() {
  setGoal(null);
  byId("ends").scrollIntoView?.();
}
"#;
