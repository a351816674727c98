//! A text of the page: `page/columns.js`. Made by `page/embed.py`.

pub(crate) const TEXT: &str =
    r#"// ---------------------------------------------------------------- columns: a step each, or a run of alike steps folded

const FOLD_ABOVE = 2000;
const FOLD_LEAST = 4;
let opened = new Set(); // the first steps of the folds that the reader has opened
let columns = [];
let columnOf = new Int32Array(0); // of each step
let hasManyArrows = false;

const changesWorld = (step) => step.ch.some(([place]) => place[0] === "[" || /\.(status|scur|sres)$/.test(place));

/** The last of the steps from n on in which no word, count or status changes, and each stream has one outcome. */
function foldEnd(n) {
  const outcomes = new Map();
  for (; n <= steps.length; n++) {
    const step = steps[n - 1];
    if (changesWorld(step) || inFinding.has(n) || (outcomes.get(step.who) ?? step.o) !== step.o) break;
    outcomes.set(step.who, step.o);
  }
  return n - 1;
}

/** Whether a step is one more try of a wait that has begun. */
function isTriedAgain(n) {
  const { o, who } = steps[n - 1];
  return o === "blocked" && !inFinding.has(n) && (waitAt(who, n)?.from ?? n) < n;
}

/** The last of the steps from n on that may share a column: alike steps of long runs, of others tries in vain. */
function lastAlike(n) {
  if (!FOLDS) return n;
  if (steps.length > FOLD_ABOVE) return Math.max(n, foldEnd(n));
  let last = n;
  while (isTriedAgain(n) && last < steps.length && isTriedAgain(last + 1)) last++;
  return last;
}

function makeColumns() {
  columns = [];
  columnOf = new Int32Array(steps.length + 1);
  for (let n = 1; n <= steps.length; ) {
    const first = n;
    const last = lastAlike(n);
    const isFold = last - n + 1 >= FOLD_LEAST && !opened.has(n);
    while (n <= last) {
      const to = isFold ? last : n;
      columnOf.fill(columns.length, n, to + 1);
      columns.push({ from: n, to, isOpened: opened.has(first) });
      n = to + 1;
    }
  }
  hasManyArrows = mostArrows() > ARROWS_AT_ONCE;
}

/** The cells of a column: one for each stream that steps there, with how often. */
function cellsOf(column) {
  if (column.cells) return column.cells;
  const cells = new Map();
  for (let n = column.from; n <= column.to; n++) {
    const step = steps[n - 1];
    const cell = cells.get(step.who);
    if (cell) cell.count++;
    else cells.set(step.who, { n, step, count: 1 });
  }
  return (column.cells = [...cells.values()]);
}

// ---------------------------------------------------------------- arrows: between steps that a wait joins

const ARROWS_AT_ONCE = 8;

/** The arrows of a wait: from the step that let it through, or from the one that made it wait without end. */
function arrowsOf(wait) {
  if (wait.to !== null) return wait.met ? [[wait.met, wait.to, "frees"]] : [];
  const made = atEnd.waiting.get(wait.stream)?.made ?? wait.made;
  return made && made < wait.from ? [[made, wait.from, "causes"]] : [];
}

/** How many arrows cross one column at most. */
function mostArrows() {
  const turns = [];
  for (const [from, to] of run.waits.flatMap(arrowsOf)) turns.push([columnOf[from], 1], [columnOf[to], -1]);
  turns.sort((a, b) => a[0] - b[0] || a[1] - b[1]);
  let now = 0;
  let most = 0;
  for (const [, by] of turns) most = Math.max(most, (now += by));
  return most;
}
"#;
