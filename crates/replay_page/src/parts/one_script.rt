//! A text of the page: `page/one.js`. Made by `page/embed.py`.

pub(crate) const TEXT: &str =
    r#"// ---------------------------------------------------------------- the page of one run

const FOLDS = true; // alike steps share a column

/** What something comes to for each run of the page. */
const perRun = (act) => [act()];

/** A link's mark of the run, and a place of the chart, are those of the only one. */
const takeMarked = () => {};
const takeAt = (y) => y;
const drawCharts = (left, width) => [drawChart(left, width)];
const paperHead = () => [];

function showEnd() {
  document.body.classList.toggle("expected", run.expected === true);
  byId("end").replaceChildren(
    html("div", { class: "words" },
      html("p", { class: "name" }, html("b", {}, run.name), ` by ${run.schedule}`), ...endWords("h1")),
    ...endPicture(),
  );
}
"#;
