//! A text of the page: `page/lanes.js`. Made by `page/embed.py`.

pub(crate) const TEXT: &str =
    r#"// ---------------------------------------------------------------- lanes: their places from top to bottom

// Pixels: the row of step numbers, a stream's lane, its cells, a word's lane, its bar, a row of brackets below it, the
// room for the lanes' names.
const RULER = 24, LANE = 32, CELL = 22, WORD = 46, BAR = 18, ROW = 19, HEAD = 158;
const SMALL_LETTER = 6.8; // pixels that a letter of the small texts takes
const ROWS = 4; // of brackets below a word, at most
let lanes = [];
let laneOf = new Map(); // stream name or word address: its lane

const findingsAt = (word) => run.findings.filter((finding) => wordsOf(finding).includes(word));

/** The brackets of a finding below a word: from a step to a later one, perhaps with a cross at one between them. */
function bracketsOf(finding, word) {
  const { kind, read, over, stored, reads, writes } = finding;
  if (kind !== "torn") return [{ kind, from: read ?? over, to: stored, cross: over }];
  const ends = [];
  if (word === finding.stale) ends.push({ kind, from: reads[0], to: writes[0], isOld: true });
  if (word === finding.fresh) ends.push({ kind, from: writes[1], to: reads[1] });
  return ends;
}

/** The brackets below a word, each with its row, so that they don't lie on each other while there are rows. */
function placedBrackets(word) {
  const brackets = findingsAt(word).flatMap((finding) => bracketsOf(finding, word));
  const ends = []; // of each row, where its last bracket ends
  for (const bracket of brackets) {
    const free = ends.findIndex((end) => end < bracket.from);
    bracket.row = free < 0 ? Math.min(ends.length, ROWS - 1) : free;
    ends[bracket.row] = bracket.to;
  }
  return { brackets, rows: ends.length };
}

function makeLanes() {
  [lanes, laneOf] = [[], new Map()];
  let y = 0;
  const add = (key, lane) => {
    laneOf.set(key, { key, y, ...lane });
    lanes.push(laneOf.get(key));
    y += lane.height;
  };
  for (const id of allStreams) {
    if (stepsOf.has(id) || waitsOf.has(id)) add(id, { stream: id, height: LANE });
  }
  for (const address of [...wordStates.keys()].sort((a, b) => a - b)) {
    const { brackets, rows } = placedBrackets(address);
    const found = new Set(findingsAt(address).flatMap(stepsOfFinding));
    add(address, { word: address, brackets, found, height: WORD + ROW * rows });
  }
  lanes.height = y + 4;
  endRoom = roomBehind();
}

let endRoom = 0; // pixels behind the last step
let chartTop = 0; // pixels above the run's lanes on the chart

/** The room that the texts behind the last step take. */
function roomBehind() {
  const notes = lanes.map((lane) => (lane.stream ? endNote(lane.stream)?.[1] : wordNote(lane.word)) ?? "");
  const last = lanes.flatMap((lane) => lane.brackets ?? []).filter((bracket) => bracket.to > steps.length - 3);
  const longest = Math.max(8, ...[...notes, ...last.map(bracketText)].map((text) => text.length));
  return Math.min(260, 24 + SMALL_LETTER * longest);
}

const middleOf = (stream) => laneOf.get(stream).y + LANE / 2;

// ---------------------------------------------------------------- signs: shape and colour both tell what happened

const OCTAGON = "-3.3,-8 3.3,-8 8,-3.3 8,3.3 3.3,8 -3.3,8 -8,3.3 -8,-3.3";

/** A box around (0, 0). */
const box = (width, height) =>
  svg("rect", { x: -width / 2, y: -height / 2, width, height, rx: Math.min(3, width / 2) });

/** What is written in a box: one text, or an operation's initial over its suffix. */
function writing(x, texts) {
  if (texts.length < 2) return texts.map((text) => svg("text", { x, y: 3.8, class: "in" }, text));
  return texts.map((text, i) => svg("text", { x, y: i ? 8.6 : -0.6, class: "in tiny" }, text));
}

const SIGNS = {
  done: (width, texts) => [box(width, CELL), ...writing(0, texts)],
  blocked(width, texts) {
    const left = texts.length ? 7 - width / 2 : -3.5;
    const bars = svg("path", { class: "mark", d: `M${left} -5h2.5v10h-2.5zM${left + 4.5} -5h2.5v10h-2.5z` });
    return [box(width, CELL - 4), ...(width < 10 ? [] : [bars]), ...writing(7, texts)];
  },
  trapped(width) {
    const half = Math.min(width / 2, 12);
    return [svg("path", { d: `M0 -11L${half} 9H${-half}z` }), svg("text", { class: "in", y: 6 }, "!")];
  },
  stopped: () => [
    svg("polygon", { points: OCTAGON }),
    svg("path", { class: "cross", d: "M-3 -3L3 3M3 -3L-3 3" }),
  ],
  skipped: (width) => [svg("path", { d: `M${-Math.min(width / 2, 5)} 0H${Math.min(width / 2, 5)}` })],
};

/** A step's sign around (0, 0). */
const glyph = (kind, width, texts = []) =>
  svg("g", { class: `cell ${kind}` }, ...(SIGNS[kind] ?? SIGNS.skipped)(width, texts));

const READS = new Set(["LOAD", "TAGGET"]);
const meetSigns = {
  blocked: () => svg("path", { class: "meet waits", d: "M-3 -4h2v8h-2zM1 -4h2v8h-2z" }),
  read: () => svg("circle", { class: "meet reads", r: 3.2 }),
  written: () => svg("path", { class: "meet writes", d: "M-4.5 4H4.5L0 -4z" }),
  added: () => svg("path", { class: "meet writes adds", d: "M-4.5 4H4.5L0 -4z" }),
  trapped: () => svg("text", { class: "meet traps", y: 4 }, "!"),
};

/** Where a step met a word: a ring where it read, a wedge where it wrote, bars where it was blocked. */
function meeting(step) {
  if (sign(step) === "blocked") return meetSigns.blocked();
  if (sign(step) !== "done") return meetSigns.trapped();
  if (READS.has(step.ref[0])) return meetSigns.read();
  return step.ref[0] === "FADD" ? meetSigns.added() : meetSigns.written();
}

const cross = () => svg("path", { class: "lost cross", d: "M-4.5 -4.5L4.5 4.5M4.5 -4.5L-4.5 4.5" });

/** A line as of torn paper, from (0, 0) to the right. */
function tornLine(width) {
  let path = "M0 -5V0";
  let x = 0;
  for (let up = true; x + 4 < width; up = !up) path += `L${(x += 4)} ${up ? -3 : 3}`;
  return svg("path", { class: "lost torn", d: `${path}L${width} 0V-5` });
}

// ---------------------------------------------------------------- texts of cells

const LETTER = 6.4, TINY_LETTER = 5.2; // pixels that a letter in a cell takes

/** The room for letters in a step's cell: beside the bars where it was blocked. */
const roomIn = (step, width) => width - cellGap(width) - (step.o === "blocked" ? 18 : 1);

/**
 * What a cell has room for: the operation's whole name, else its initial with its suffix: LOAD.N is never LOAD. A name
 * without a suffix is cut to two letters, or to one.
 */
function cellTexts(step, width) {
  const name = mnemonic(step);
  const room = roomIn(step, width);
  if (name.length * LETTER <= room) return name ? [name] : [];
  const [, suffix] = name.split(".");
  if (suffix && LETTER * 3 <= room) return [`${name[0]}.${suffix}`];
  if (suffix) return TINY_LETTER * 2 <= room && step.o === "done" ? [name[0], `.${suffix}`] : [];
  if (LETTER * 2 <= room) return [name.slice(0, 2)];
  return LETTER <= room ? [name[0]] : [];
}

const countTexts = (step, count, width) => (`×${count}`.length * LETTER <= roomIn(step, width) ? [`×${count}`] : []);
"#;
