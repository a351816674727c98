//! A text of the page: `page/page.js`. Made by `page/embed.py`.

pub(crate) const TEXT: &str =
    r#"// ---------------------------------------------------------------- going to a position

function show() {
  const n = view.position;
  tell();
  showStream();
  showWords();
  markSource();
  markHeads();
  showTable();
  showStreams();
  keepInSight();
  keepLaneInSight();
  repaint();
  markChain();
  byId("slider").value = n;
  byId("slider").setAttribute("aria-valuetext", `position ${n} of ${steps.length}`);
  byId("where").textContent = `${n} / ${steps.length}`;
  for (const id of ["first", "back"]) byId(id).setAttribute("aria-disabled", String(n === 0));
  for (const id of ["on", "last"]) byId(id).setAttribute("aria-disabled", String(n === steps.length));
}

function goTo(position) {
  const aim = Math.min(steps.length, Math.max(0, position));
  perRun(() => putInPlace(Math.min(steps.length, aim)));
  history.replaceState(null, "", `${stepHash(view.position)}${view.stream ? `.${view.stream}` : ""}`);
  show();
}

function choose(what) {
  Object.assign(view, what);
  goTo(view.position);
}

/** Goes to the position of a link, #17, and keeps its stream, #17.2.0. */
function followLink() {
  const [, mark, position, stream] = location.hash.match(/^#(\d-)?(\d+)(?:\.(\d+\.\d+))?$/) ?? [];
  if (position === undefined) return false;
  takeMarked(mark);
  if (stream && allStreams.includes(stream)) view.stream = stream;
  goTo(Number(position));
  return true;
}

function seek(list, by) {
  if (by > 0) return list.find((n) => n > view.position) ?? view.position;
  return list[lastUpTo(list, view.position - 1, Number)] ?? view.position;
}

const numbersOf = (isOne) => steps.flatMap((step, i) => (isOne(step) ? [i + 1] : []));

/** The steps that tell most: those of waits, of findings and of traps. */
function tellingSteps() {
  const ofWaits = run.waits.flatMap((wait) => [wait.from, wait.met, wait.to]);
  const all = new Set([...ofWaits, ...inFinding, ...numbersOf((step) => /^(trapped|stopped)/.test(step.o))]);
  return [...all].filter(Boolean).sort((a, b) => a - b);
}
let telling = [];

function seekMarked(by) {
  if (view.line) goTo(seek(numbersOf((step) => stepLine(step) === view.line), by));
  else goTo(seek(view.word === null ? telling : stepsAt.get(view.word) ?? [], by));
}

function play(going = !view.timer) {
  clearInterval(view.timer);
  if (going && view.position === steps.length) goTo(0);
  const stepOn = () => (view.position < steps.length ? goTo(view.position + 1) : play(false));
  view.timer = going ? setInterval(stepOn, 700) : 0;
  byId("play").setAttribute("aria-pressed", String(going));
  byId("play").setAttribute("aria-label", going ? "Pause" : "Play");
}

// ---------------------------------------------------------------- how it is shown

function refold(change) {
  change();
  makeColumns();
  makeLegend();
  byId("fold").hidden = !opened.size;
  fit();
  show();
}
const openFold = (column) => column && column.to > column.from && refold(() => opened.add(column.from));
const foldAgain = () => refold(() => opened.clear());

function zoom(by) {
  view.zoom = by === 0 ? 0 : view.zoom + by;
  fit();
  keepInSight();
  repaint();
}

function setHex() {
  view.hex = !view.hex;
  byId("hex").setAttribute("aria-pressed", String(view.hex));
  tableFrom = -1;
  showEnd();
  showWaits();
  showWhy();
  show();
}

function moveStream(by) {
  const ids = lanes.filter((lane) => lane.stream).map((lane) => lane.stream);
  if (ids.length) choose({ stream: ids[Math.min(ids.length - 1, Math.max(0, ids.indexOf(shownStream()) + by))] });
}

// ---------------------------------------------------------------- keys and clicks

const KEYS = {
  ArrowLeft: () => goTo(view.position - 1), ArrowRight: () => goTo(view.position + 1),
  ArrowUp: () => moveStream(-1), ArrowDown: () => moveStream(1),
  Home: () => goTo(0), End: () => goTo(steps.length),
  " ": () => play(), ",": () => seekMarked(-1), ".": () => seekMarked(1),
  "+": () => zoom(1), "=": () => zoom(1), "-": () => zoom(-1), 0: () => zoom(0),
  x: setHex, f: foldAgain, s: save, Enter: () => openFold(columns[columnOf[view.position]]),
  w: () => askWhy(view.word === null ? null : wordName(view.word)),
  Escape: () => (unask(), choose({ stream: null, word: null, line: null })), "?": () => byId("keys").showModal(),
};

/** Arrow keys in a list of buttons go to the next one of their kind; else they are the page's. */
function onKey(event) {
  if (event.ctrlKey || event.metaKey || event.altKey || byId("keys").open) return;
  const control = event.target.closest("button, input, a");
  if (control && [" ", "Enter"].includes(event.key)) return;
  const kind = control?.matches(".why") ? ".why" : "button:not(.why)";
  const list = event.target.closest(`#heads, #lines, #words${kind === ".why" ? ", #stream" : ""}`);
  const isSideways = /^Arrow(Left|Right)$/.test(event.key);
  if (list && /^Arrow(Up|Down)$/.test(event.key)) {
    const all = [...list.querySelectorAll(kind)];
    all[all.indexOf(control) + (event.key === "ArrowUp" ? -1 : 1)]?.focus();
  } else if (event.shiftKey && isSideways) {
    goTo(seek(stepsOf.get(shownStream()) ?? [], event.key === "ArrowLeft" ? -1 : 1));
  } else if (Object.hasOwn(KEYS, event.key)) {
    KEYS[event.key]();
  } else return;
  event.preventDefault();
}

function onChart(event) {
  const area = scroller.getBoundingClientRect();
  const column = columns[Math.floor((event.clientX - area.left + scroller.scrollLeft) / cellWidth)];
  const y = event.currentTarget.id === "numbers" ? -1 : takeAt(event.clientY - area.top);
  const lane = y < 0 ? undefined : lanes.find((one) => y >= one.y && y < one.y + one.height);
  if (!column) return;
  if (column.to > column.from) openFold(column);
  if (lane?.word !== undefined) view.word = lane.word;
  goTo(column.from);
}

function onLine(event) {
  const button = event.target.closest("button");
  if (button?.dataset.by) showLines(lineFrom + Number(button.dataset.by));
  const line = Number(button?.dataset.line);
  if (line) choose({ line: view.line === line ? null : line });
}

function onWord(event) {
  const word = event.target.closest("button")?.dataset.word;
  if (word) choose({ word: view.word === Number(word) ? null : Number(word) });
}

const BUTTONS = {
  first: KEYS.Home, back: KEYS.ArrowLeft, play: () => play(), on: KEYS.ArrowRight, last: KEYS.End,
  narrower: KEYS["-"], wider: KEYS["+"], hex: setHex, fold: foldAgain, export: save, help: KEYS["?"],
  earlier: () => showRows(tableFrom - TABLE_ROWS), later: () => showRows(tableFrom + TABLE_ROWS),
};

function listen() {
  addEventListener("keydown", onKey);
  byId("track").addEventListener("click", onChart);
  byId("numbers").addEventListener("click", onChart);
  byId("lines").addEventListener("click", onLine);
  byId("words").addEventListener("click", onWord);
  for (const id of ["state", "why"]) byId(id).addEventListener("click", onWhy);
  for (const [id, act] of Object.entries(BUTTONS)) byId(id).addEventListener("click", act);
  byId("slider").addEventListener("input", (event) => goTo(Number(event.target.value)));
  scroller.addEventListener("scroll", repaint, { passive: true });
  addEventListener("hashchange", followLink);
  addEventListener("resize", () => (fit(), repaint()));
  addEventListener("beforeprint", fillPaper);
}

// ---------------------------------------------------------------- the start

/** Gathers what belongs to the run, and makes its columns and lanes. */
function makeRun() {
  gather();
  [opened, wordKeys, telling] = [new Set(), listedWords(), tellingSteps()];
  makeColumns();
  makeLanes();
}

/** Shows what does not depend on the position. */
function begin() {
  byId("slider").max = steps.length;
  makeLegend();
  showLines(0);
  showEnd();
  showWaits();
  listen();
  fit();
}
"#;
