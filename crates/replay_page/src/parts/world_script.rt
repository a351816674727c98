//! A text of the page: `page/world.js`. Made by `page/embed.py`.

pub(crate) const TEXT: &str =
    r#"// ---------------------------------------------------------------- the world at a position

let world; // place: what stands there, of all that isn't 0
const startWords = head.start.memory.flatMap(([count, value, tags]) => Array(count).fill([value, tags]));
const startWord = (address) => startWords[address / 8] ?? ["0", 0];
const get = (place, absent = "0") => world.get(place) ?? absent;

function wordAt(address) {
  const [value, tags] = startWord(address);
  return [get(`[${address}].value`, value), get(`[${address}].tags`, tags)];
}

function putInPlace(position) {
  while (view.position < position) {
    for (const [place, , now] of steps[view.position++].ch) world.set(place, now);
  }
  while (view.position > position) {
    const changes = steps[--view.position].ch;
    for (let i = changes.length; i-- > 0; ) world.set(changes[i][0], changes[i][1]);
  }
}

/** The changes of the step that led here: place to its old and its new value. */
const changesHere = () =>
  new Map((steps[view.position - 1]?.ch ?? []).map(([place, before, after]) => [place, [before, after]]));

// ---------------------------------------------------------------- what the lanes need, gathered once

let stepsOf; // stream: its steps
let stepsAt; // word: the steps that refer to it
let waitsOf; // stream: its waits
let lives; // stream: [from, to] where it is not idle
let wordStates; // word: [step, value, tags], the first of step 0
let inFinding; // the steps of findings
let allStreams; // their names, in order
let atEnd; // who waits, was stopped, has quit or could go on at the end

/** The states of a word, in the order of the steps that made them. */
function statesOf(address) {
  if (!wordStates.has(address)) wordStates.set(address, [[0, ...startWord(address)]]);
  return wordStates.get(address);
}

function gatherChange(n, [place, before, now]) {
  if (place[0] === "[") {
    const states = statesOf(parseInt(place.slice(1), 10));
    if (states.at(-1)[0] !== n) states.push([n, ...states.at(-1).slice(1)]);
    states.at(-1)[place.endsWith("value") ? 1 : 2] = now;
  } else if (place.endsWith(".status")) {
    const life = listIn(lives, place.slice(0, -".status".length));
    if (before === "idle") life.push([n, Infinity]);
    else if (now === "idle") life.at(-1)[1] = n;
  }
}

function gather() {
  world = new Map(Object.entries(head.start.places));
  [stepsOf, stepsAt, waitsOf, lives, wordStates] = Array.from({ length: 5 }, () => new Map());
  for (const place of world.keys()) {
    if (place.endsWith(".status")) lives.set(place.slice(0, -".status".length), [[0, Infinity]]);
  }
  steps.forEach((step, i) => {
    step.who = `${step.p}.${step.s}`;
    listIn(stepsOf, step.who).push(i + 1);
    if (step.ref) listIn(stepsAt, step.ref[3]).push(i + 1);
    for (const change of step.ch) gatherChange(i + 1, change);
  });
  for (const wait of run.waits) {
    listIn(waitsOf, wait.stream).push(wait);
    statesOf(wait.word);
  }
  for (const { word } of run.end.waiting) statesOf(word);
  for (const finding of run.findings) for (const word of wordsOf(finding)) statesOf(word);
  inFinding = new Set(run.findings.flatMap(stepsOfFinding));
  allStreams = inOrder([...new Set([...lives.keys(), ...stepsOf.keys()])]);
  const { waiting, stopped, quit, able } = run.end;
  atEnd = { waiting: byStream(waiting), stopped: byStream(stopped), quit: new Set(quit), able: new Set(able) };
}

const wordsOf = (finding) => (finding.kind === "torn" ? [finding.stale, finding.fresh] : [finding.word]);

/** The steps of which a finding tells. */
function stepsOfFinding(finding) {
  if (finding.kind === "torn") return [...finding.reads, ...finding.writes];
  return [finding.read, finding.over, finding.stored].filter((n) => n !== undefined);
}

/** The step in which what was found is done: the store, or the second of the torn reads. */
const lastOfFinding = (finding) => (finding.kind === "torn" ? Math.max(...finding.reads) : finding.stored);

/** In a list in the order of steps: the index of the last entry that is not behind step n, -1 where there is none. */
function lastUpTo(list, n, stepOf) {
  let low = 0;
  for (let high = list.length; low < high; ) {
    const middle = (low + high) >> 1;
    if (stepOf(list[middle]) <= n) low = middle + 1;
    else high = middle;
  }
  return low - 1;
}

const stepOfState = (state) => state[0];
const stepOfWait = (wait) => wait.from;

/** The wait that a stream is in after step n. */
function waitAt(stream, n) {
  const all = waitsOf.get(stream) ?? [];
  const wait = all[lastUpTo(all, n, stepOfWait)];
  return wait && (wait.to === null || n < wait.to) ? wait : undefined;
}

const stateAt = (address, n) => statesOf(address)[lastUpTo(statesOf(address), n, stepOfState)];

/** The step up to n that left a word as full or empty as it is after n; 0 where it was so at the start. */
function turnedIn(address, n) {
  const states = statesOf(address);
  let i = lastUpTo(states, n, stepOfState);
  while (i > 0 && isFull(states[i][2]) === isFull(states[i - 1][2])) i--;
  return states[i][0];
}

const byStream = (list) => new Map(list.map((one) => [one.stream, one]));

/** The stream that is told at the right: the one that was chosen, else that of the step. */
const shownStream = () => view.stream ?? steps[view.position - 1]?.who ?? allStreams[0];
"#;
