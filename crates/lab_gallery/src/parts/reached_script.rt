//! A text of the page: `page/gallery/reached.js`. Made by `page/embed.py`.

pub(crate) const TEXT: &str =
    r#"// The page that leads to pages of programs, which stand as JSON in #gallery-data (docs/PLAY.md, "A gallery").

const data = JSON.parse(byId("gallery-data").textContent);

// ---------------------------------------------------------------- what the reader has reached on pages of play

/** Where the browser keeps that a goal of this kind was reached in a program; page/play/kept.js writes it. */
const keyOf = (called, goal) => `mta_lab ${goal} ${called}`;

/** In how many steps a goal was reached; null where it was not, or where the browser keeps nothing. */
function reachedIn(called, goal) {
  try {
    return localStorage.getItem(keyOf(called, goal));
  } catch {
    return null;
  }
}

function forget(called, goal) {
  try {
    localStorage.removeItem(keyOf(called, goal));
  } catch { /* nothing is kept */ }
}
"#;
