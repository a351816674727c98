//! A text of the page: `page/pair/two.js`. Made by `page/embed.py`.

pub(crate) const TEXT: &str =
    r#"// ---------------------------------------------------------------- the page of two runs: the shown one and the other

const FOLDS = false; // a step has the same column in both runs

// Of each run what belongs to it. That of the run which is shown stands in the variables of their names.
const sides = data.runs.map((one, k) => ({ run: { ...head, ...one }, steps: one.steps, runMark: `${k + 1}-` }));
let shownSide = 0;
const sideName = (k) => `run ${k + 1}`;

const taken = () => ({
  run, steps, runMark, world, stepsOf, stepsAt, waitsOf, lives, wordStates, inFinding, allStreams, atEnd, opened,
  columns, columnOf, hasManyArrows, lanes, laneOf, endRoom, chartTop, wordKeys, telling, tableFrom, question,
  position: view.position,
});

function put(side) {
  ({
    run, steps, runMark, world, stepsOf, stepsAt, waitsOf, lives, wordStates, inFinding, allStreams, atEnd, opened,
    columns, columnOf, hasManyArrows, lanes, laneOf, endRoom, chartTop, wordKeys, telling, tableFrom, question,
  } = side);
  view.position = side.position;
}

/** What something comes to for a run, in the place of the one that is shown. */
function inRun(k, act) {
  if (k === shownSide) return act();
  const own = taken();
  put(sides[k]);
  const result = act();
  sides[k] = taken();
  put(own);
  return result;
}

/** What something comes to for each run of the page. */
const perRun = (act) => sides.map((_, k) => inRun(k, act));

/** Shows the other run, after as many steps. */
function showSide(k) {
  if (k === shownSide) return;
  sides[shownSide] = taken();
  put(sides[k]);
  shownSide = k;
  tableFrom = -1;
  byId("slider").max = steps.length;
  showEnd();
  showWaits();
  showWhy();
  goTo(view.position);
}

/** The run of a link's mark is shown, and that in whose lanes a place of the chart is. */
const takeMarked = (mark) => mark && Number(mark[0]) <= sides.length && showSide(Number(mark[0]) - 1);

function takeAt(y) {
  const tops = perRun(() => chartTop);
  const k = y < tops[1] - CAPTION ? 0 : 1;
  showSide(k);
  return y - tops[k];
}
"#;
