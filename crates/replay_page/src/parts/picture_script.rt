//! A text of the page: `page/picture.js`. Made by `page/embed.py`.

pub(crate) const TEXT: &str =
    r#"// ---------------------------------------------------------------- the picture: streams, their steps and waits

const at = (x, y, node) => (node.setAttribute("transform", `translate(${x} ${y})`), node);

/** The part of the lanes that a view of some width shows, whose left edge is `left` pixels from the first step's. */
class Picture {
  constructor(left, viewWidth, width, isLive) {
    Object.assign(this, { left, viewWidth, width, isLive });
    this.end = this.x(columns.length);
    this.here = isLive && view.position ? columnOf[view.position] : -1;
    this.first = Math.max(0, Math.floor(left / width) - 1);
    this.last = Math.min(columns.length - 1, Math.ceil((left + viewWidth) / width));
    this.firstStep = columns[Math.min(this.first, this.last)]?.from ?? 0;
    this.top = svg("svg", { class: "pic", width: viewWidth, height: lanes.height });
    for (const name of ["back", "bars", "stems", "arrows", "cells", "front"]) {
      this[name] = this.top.appendChild(svg("g", { class: name }));
    }
  }

  x(column) {
    return column * this.width - this.left;
  }

  /** The middle of a step's column; the left edge where no step is meant. */
  middle(n) {
    return n ? this.x(columnOf[n]) + this.width / 2 : this.x(0);
  }

  /** Where that ends which began in a step and is ended by another one, or by none. */
  stop(n) {
    return n === null || n === Infinity ? this.end + 8 : this.middle(n);
  }

  shows(from, to) {
    return to >= -20 && from <= this.viewWidth + 20;
  }

  /** What ends a lane behind the last step. */
  note(kind, y, text) {
    if (!this.shows(this.end, this.end + endRoom)) return;
    this.front.append(svg("text", { class: `small ${kind}`, x: this.end + 12, y }, text));
  }
}

function drawLanes(left, viewWidth, width, isLive) {
  const picture = new Picture(left, viewWidth, width, isLive);
  drawGround(picture);
  for (const lane of lanes) (lane.stream ? drawStream : drawWord)(picture, lane);
  for (let c = picture.first; c <= picture.last; c++) drawColumn(picture, c);
  if (picture.isLive && question) for (const [from, to] of chainLinks()) drawArrow(picture, from, to, "comes");
  return picture.top;
}

/** Behind all: the chosen lane, a rule under each lane, this step's column. */
function drawGround(picture) {
  const { viewWidth, width, back } = picture;
  for (const lane of lanes) {
    const isChosen = lane.stream ? lane.stream === view.stream : lane.word === view.word;
    if (picture.isLive && isChosen) {
      back.append(svg("rect", { class: "chosen", x: 0, y: lane.y, width: viewWidth, height: lane.height }));
    }
    back.append(svg("path", { class: "rule", d: `M0 ${lane.y + lane.height}H${viewWidth}` }));
  }
  if (picture.here < 0) return;
  back.append(svg("rect", { class: "now", x: picture.x(picture.here), y: 0, width, height: lanes.height }));
}

function drawStream(picture, lane) {
  const y = lane.y + LANE / 2;
  for (const [from, to] of lives.get(lane.stream) ?? []) {
    const [start, stop] = [picture.middle(from), picture.stop(to)];
    if (picture.shows(start, stop)) picture.back.append(svg("path", { class: "life", d: `M${start} ${y}H${stop}` }));
  }
  const waits = waitsOf.get(lane.stream) ?? [];
  for (let i = Math.max(0, lastUpTo(waits, picture.firstStep - 1, stepOfWait)); i < waits.length; i++) {
    if (picture.middle(waits[i].from) > picture.viewWidth) break;
    drawWait(picture, waits[i], y);
  }
  // Who made a stream wait without end may be in sight where its wait is not.
  const last = waits.at(-1);
  if (last?.to === null && picture.middle(last.from) > picture.viewWidth) drawArrows(picture, last);
  const note = endNote(lane.stream);
  if (note) picture.note(note[0], y + 3.5, note[1]);
}

function drawWait(picture, wait, y) {
  const [from, to] = [picture.middle(wait.from), picture.stop(wait.to)];
  if (!picture.shows(from, to)) return;
  const width = Math.max(0, to - from);
  picture.back.append(svg("rect", { class: "wait", x: from, y: y - CELL / 2 + 3, width, height: CELL - 6 }));
  drawArrows(picture, wait);
  if (wait.to === null) return; // the note at the end says it
  const gap = widestGap(picture, wait);
  const room = gap.to - gap.from - picture.width - 6;
  const name = namedWord(wait.word);
  const texts = [`waits for ${name} ${wait.for}`, name, wordName(wait.word)];
  const text = texts.find((one) => one.length * 5.9 < room);
  if (!text) return;
  picture.back.append(svg("text", { class: "small waits", x: gap.from + picture.width / 2 + 3, y: y + 3.5 }, text));
}

/** Between two steps of the stream that waits, or at the wait's end, where there is most room for words. */
function widestGap(picture, wait) {
  const all = stepsOf.get(wait.stream);
  let best = { from: 0, to: 0 };
  let i = lastUpTo(all, wait.from, Number);
  for (let n = wait.from; n && n < (wait.to ?? Infinity); ) {
    const next = all[++i] ?? 0;
    const from = picture.middle(n);
    const to = next ? picture.middle(next) : picture.end;
    if (to - from > best.to - best.from) best = { from, to };
    n = next;
  }
  return best;
}

const NOTE_LETTERS = 18; // of a word's address and name

/** What stands behind a stream's lane: how it ended. */
function endNote(stream) {
  const wait = atEnd.waiting.get(stream);
  if (wait) return ["waits", `waits for ${cut(namedWord(wait.word), NOTE_LETTERS)} ${wait.for}`];
  const stopped = atEnd.stopped.get(stream);
  if (stopped) return ["stops", `stopped: ${trapName(stopped.trap)}`];
  if (atEnd.quit.has(stream)) return ["muted", "has quit"];
  return atEnd.able.has(stream) ? ["muted", "can go on"] : null;
}

// ---------------------------------------------------------------- columns

function drawColumn(picture, c) {
  const middle = picture.x(c) + picture.width / 2;
  for (const cell of cellsOf(columns[c])) {
    drawCell(picture, middle, cell, c);
    const lane = cell.step.ref && laneOf.get(cell.step.ref[3]);
    if (lane) drawMeeting(picture, middle, cell, lane, c === picture.here);
  }
}

/** Between the cells of two columns. */
const cellGap = (width) => (width > 22 ? 4 : width > 12 ? 2 : 1);

function drawCell(picture, middle, { step, n, count }, c) {
  const { width } = picture;
  const inner = width - cellGap(width);
  const texts = count > 1 ? countTexts(step, count, width) : cellTexts(step, width);
  const node = at(middle, middleOf(step.who), glyph(sign(step), inner, texts));
  if (count > 1) {
    node.prepend(svg("rect", { class: "fold", x: 5 - width / 2, y: 3 - CELL / 2, width: inner, height: CELL, rx: 3 }));
  }
  if (picture.isLive && view.line && stepLine(step) === view.line) {
    node.append(svg("rect", { class: "ring", x: -width / 2, y: -CELL / 2 - 2, width, height: CELL + 4, rx: 4 }));
  }
  if (picture.isLive && isInChain(columns[c], step.who)) node.append(chainSign(width));
  node.classList.toggle("here", c === picture.here);
  node.append(svg("title", {}, cellTitle(step, n, count, columns[c])));
  picture.cells.append(node);
}

function cellTitle(step, n, count, column) {
  if (count > 1) return `steps ${column.from} to ${column.to}: ${step.who} ${count} times ${step.o}; click to open`;
  if (isSkipped(step)) return `step ${n}: ${step.who}: skipped`;
  return `step ${n}: ${step.who} at ${stepPlace(step)}: ${cut(stepStatement(step), 200)}: ${step.o}`;
}

// ---------------------------------------------------------------- the ruler: the steps' numbers

/** The numbers of the steps, above the same part of the lanes; this step's stands on a flag. */
function drawRuler(left, viewWidth, width, isLive) {
  const top = svg("svg", { class: "pic", width: viewWidth, height: RULER });
  const here = isLive && view.position ? columnOf[view.position] : -1;
  if (here >= 0) top.append(svg("rect", { class: "now", x: here * width - left, y: 0, width, height: RULER }));
  const last = Math.min(columns.length - 1, Math.ceil((left + viewWidth) / width));
  const gap = numberGap(width);
  for (let c = Math.max(0, Math.floor(left / width) - 1); c <= last; c++) {
    const x = c * width - left;
    if (columns[c].isOpened) top.append(svg("path", { class: "opened", d: `M${x} ${RULER - 2}h${width}` }));
    if (c !== here) drawNumber(top, c, x + width / 2, gap, Math.abs(c - here) * width);
  }
  drawRounds(top, left, viewWidth, width);
  if (here >= 0) drawFlag(top, here * width - left + width / 2, String(view.position));
  return top;
}

/** Every how many columns a number stands, so that it doesn't touch its neighbours. */
function numberGap(width) {
  const widest = 8 * String(steps.length).length + 6;
  return [1, 2, 5, 10, 20, 50, 100].find((gap) => gap * width >= widest) ?? 200;
}

function drawNumber(top, c, x, gap, fromFlag) {
  const label = String(columns[c].from);
  const hasOneStepAColumn = columns.length === steps.length;
  if ((hasOneStepAColumn ? columns[c].from : c) % gap) return;
  if (view.position && fromFlag < 8 * label.length + 8) return;
  top.append(svg("text", { class: "number", x, y: 15 }, label));
}

function drawFlag(top, x, label) {
  const width = 8 * label.length + 8;
  top.append(
    svg("rect", { class: "flag", x: x - width / 2, y: 3, width, height: 16, rx: 3 }),
    svg("text", { class: "number now", x, y: 15 }, label),
  );
}
"#;
