//! A text of the page: `page/play/lanes.js`. Made by `page/embed.py`.

pub(crate) const TEXT: &str =
    r#"// ---------------------------------------------------------------- the way so far, as lanes

const CELL = 56;
const LEAST_CELL = 22;
const STREAM_LANE = 30;
const WORD_LANE = 42;
const END_LANE = 24;
const WORDS_DRAWN = 6;

/** The words that some step of the program meets, or that have a comment. */
function metWords() {
  const met = new Set(data.steps.flatMap((record) => (record.length > 1 ? [record[4] ?? record[3]] : [])));
  for (const { words: all } of data.shared) for (const [a] of all) met.add(a);
  for (const [first, many, , text] of data.data) {
    if (text && many <= 16) for (let i = 0; i < many; i++) met.add(first + 8 * i);
  }
  return [...met].filter((a) => shownWords[a / 8]).sort((a, b) => a - b);
}
const wordKeys = metWords();
const drawnWords = wordKeys.filter((a) => data.steps.some((record) => record.length > 1
  && record[4] === a)).slice(0, WORDS_DRAWN);

const HEAD = 158; // pixels of the lanes' names
const NAME_LETTER = 8, SMALL_LETTER = 6.2, NUMBER_LETTER = 6.8; // pixels that a letter takes

/** A text in so many pixels, of letters so wide; nothing where not even two of them have room. */
function textIn(text, pixels, letter) {
  const letters = Math.floor(pixels / letter);
  return text.length <= letters ? text : letters < 2 ? "" : cut(text, letters);
}

function laneHead(y, height, name, note, sign) {
  const parts = [svg("text", { class: "name", x: sign ? 32 : 14, y: y + height / 2 + 4 }, name)];
  const left = 14 + NAME_LETTER * name.length + 8;
  const text = textIn(note, HEAD - left, SMALL_LETTER);
  if (text) parts.push(svg("text", { class: "small", x: left, y: y + height / 2 + 4 }, text));
  if (sign) parts.push(sign);
  return parts;
}

/** A sign as in the badges, drawn. */
const SIGN_COLOURS = { right: "--full-ink", wrong: "--lost", broken: "--lost", deadlock: "--blocked",
  stopped: "--stopped", spinning: "--trapped", plain: "--muted", found: "--lost" };
function drawnSign(e, x, y) {
  const kind = kinds[e];
  const rx = ["right", "plain", "found"].includes(kind) ? 7 : 3;
  return svg("g", {}, svg("rect", { x: x - 7, y: y - 7, width: 14, height: 14, rx,
    fill: `var(${SIGN_COLOURS[kind]})` }),
    svg("text", { x, y: y + 3.5, class: `letter ${kind}` }, SIGNS[kind]));
}

/** The steps that are drawn: all, or those around the reader's place. */
const WINDOW = 240;
const drawn = { from: 0, to: 0 };
function setWindow() {
  drawn.from = Math.max(0, Math.min(view.at - WINDOW / 2, way.length - WINDOW));
  drawn.to = Math.min(way.length, drawn.from + WINDOW);
}
const drawnSteps = () => way.slice(drawn.from, drawn.to).map(([k], i) => [k, drawn.from + i]);

function streamLane(k, y, x, cell) {
  const parts = [];
  const middle = y + STREAM_LANE / 2;
  let from = -1;
  for (let n = drawn.from; n <= drawn.to; n++) {
    const isAlive = Boolean(content(stateAt(n), k).status);
    if (isAlive && from < 0) from = n;
    if (from >= 0 && (!isAlive || n === drawn.to)) {
      parts.push(svg("line", { class: "life", x1: from > drawn.from ? x(from) : x(from) - 4, x2: x(n), y1: middle,
        y2: middle }));
      from = -1;
    }
  }
  for (let n = drawn.from; n <= drawn.to; n++) {
    if (!isBlocked(stateAt(n), k)) continue;
    let end = n;
    while (end < drawn.to && isBlocked(stateAt(end + 1), k)) end++;
    const right = end === drawn.to ? x(end) + cell / 2 : x(end + 1);
    parts.push(svg("rect", { class: "wait", x: x(n), width: right - x(n), y: middle - 8, height: 16 }));
    n = end;
  }
  return parts;
}

function boxes(y, x, cell) {
  return drawnSteps().map(([k, i]) => {
    const before = stateAt(i);
    const record = recordOf(before, k);
    const top = y + k * STREAM_LANE + 4;
    const name = mnemonic(content(before, k).pc);
    const width = Math.max(LEAST_CELL, cell) - 4;
    const text = width >= 6.2 * name.length + 3 ? name : name.replace(/^(.).*?(\..)?$/, width >= 20 ? "$1$2" : "$1");
    return svg("g", { class: i >= view.at ? "undone" : "" },
      svg("rect", { class: `box ${record[0].split(" ")[0]}`, x: x(i + 1) - width / 2, y: top, width, height: 22,
        rx: 3 }),
      svg("text", { class: "in", x: x(i + 1), y: top + 15 }, text));
  });
}

/** A word's bar, high while it is full and thin while it is empty; below it who reads and writes. */
function wordLane(a, y, { x, cell, width }) {
  const parts = [];
  let from = drawn.from;
  const same = (n, m) => wordAt(stateAt(n), a).join() === wordAt(stateAt(m), a).join();
  for (let n = from + 1; n <= drawn.to + 1; n++) {
    if (n <= drawn.to && same(n, from)) continue;
    const [value, tags] = wordAt(stateAt(from), a);
    const [left, right] = [from > drawn.from ? x(from) : x(from) - 14, n > drawn.to ? x(drawn.to) + cell / 2 : x(n)];
    const isUndone = from > view.at ? " undone" : "";
    const isFull = tags & 1;
    parts.push(svg("rect", { class: `${isFull ? "full" : "empty"}${isUndone}`, x: left,
      width: Math.max(1, right - left), y: isFull ? y + 4 : y + 17, height: isFull ? 18 : 5 }));
    if (from > drawn.from && value !== wordAt(stateAt(from - 1), a)[0]) parts.push(svg("line",
      { class: `tick${isUndone}`, x1: left, x2: left, y1: y + 4, y2: y + 22 }));
    const room = (n > drawn.to ? width : right) - left - 8; // nothing stands after the last one
    const text = textIn(number(value), Math.min(room, 10 * NUMBER_LETTER), NUMBER_LETTER);
    if (text) parts.push(svg("text", { class: `value${isUndone}`, x: left + 6, y: isFull ? y + 17 : y + 14 },
      svg("title", {}, number(value)), text));
    from = n;
  }
  parts.push(...meetings(a, y, { x, cell, width }));
  return parts;
}

/** Who reads and writes a word, below its bar. */
function meetings(a, y, { x, cell, width }) {
  const met = drawnSteps().filter(([k, i]) => {
    const record = recordOf(stateAt(i), k);
    return record[0] === "done" && record[4] === a; // else it read and wrote nothing
  });
  return met.map(([k, i], at) => {
    const record = recordOf(stateAt(i), k);
    const [middle, low] = [x(i + 1), y + 32];
    const isRead = record[1] === "LOAD" || record[1] === "TAGGET";
    const mark = isRead ? svg("circle", { class: "meet reads", cx: middle - 8, cy: low, r: 3.5 })
      : svg("path", { class: "meet", d: `M${middle - 12} ${low + 4}h9l-4.5-9z` });
    const told = isRead ? record[6] : record[1] === "FADD" ? `+${number(record[5])}` : record[5];
    const room = at + 1 < met.length ? (met[at + 1][1] - i) * cell - 14 : width - middle;
    const text = textIn(number2(told), Math.min(room, 7 * NUMBER_LETTER), NUMBER_LETTER);
    return svg("g", { class: i >= view.at ? "undone" : "" }, mark, svg("title", {}, number2(told)),
      ...(text ? [svg("text", { class: "met", x: middle, y: low + 4 }, text)] : []));
  });
}
const number2 = (value) => (value === null || value[0] === "+" ? value ?? "" : number(value));

/** How many steps there are still to an end, until it can't be reached any more. */
function endLane(e, y, x, cell) {
  const parts = [];
  const most = Math.max(1, toGo[e][0], ...drawnSteps().map(([, i]) => toGo[e][stateAt(i + 1)]));
  for (let n = drawn.from; n <= drawn.to; n++) {
    const left = toGo[e][stateAt(n)];
    const isUndone = n > view.at ? " undone" : "";
    if (left < 0) {
      if (n === drawn.from) parts.push(svg("text", { class: "togo", x: x(n), y: y + 16 }, "–"));
      else {
        parts.push(svg("path", { class: `cross${isUndone}`, d: `M${x(n) - 5} ${y + 7}l10 10m0-10l-10 10` }));
        const text = x(n) + 95 > x(drawn.to) + cell / 2 ? "" : "out of reach";
        parts.push(svg("text", { class: `cut${isUndone}`, x: x(n) + 11, y: y + 16 }, text));
      }
      break;
    }
    const height = 3 + 15 * (1 - left / most);
    parts.push(svg("rect", { class: `bar ${kinds[e]}${isUndone}`, x: x(n) - cell / 2 + 2, width: cell - 4,
      y: y + 21 - height, height, rx: 2 }));
    if (left === 0) parts.push(drawnSign(e, x(n), y + 12));
    else parts.push(svg("text", { class: `togo${isUndone}`, x: x(n), y: y + 16 }, String(left)));
  }
  return parts;
}
"#;
