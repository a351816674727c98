//! A text of the page: `page/picture_words.js`. Made by `page/embed.py`.

pub(crate) const TEXT: &str =
    r#"// ---------------------------------------------------------------- the picture: words, and who met them

function drawWord(picture, lane) {
  const floor = lane.y + 6 + BAR;
  const states = statesOf(lane.word);
  for (let i = Math.max(0, lastUpTo(states, picture.firstStep - 1, stepOfState)); i < states.length; i++) {
    if (picture.middle(states[i][0]) > picture.viewWidth) break;
    drawBar(picture, states, i, floor);
  }
  picture.note("strong", floor - 5, wordNote(lane.word));
  for (const bracket of lane.brackets) drawBracket(picture, bracket, lane.y + WORD + ROW * bracket.row + 5);
}

/** What stands behind a word's lane: what it holds at the end. */
function wordNote(word) {
  const [, value, tags] = statesOf(word).at(-1);
  return isFull(tags) ? `${number(value)}, full` : "empty";
}

/** A word's state from one change to the next: high where it is full, thin where it is empty; a tick at a new value. */
function drawBar(picture, states, i, floor) {
  const [n, value, tags] = states[i];
  const from = picture.middle(n);
  const to = i + 1 < states.length ? picture.middle(states[i + 1][0]) : picture.end + 8;
  const height = isFull(tags) ? BAR : 4;
  const width = Math.max(0.5, to - from);
  picture.bars.append(svg("rect", { class: fullText(tags), x: from, y: floor - height, width, height }));
  if (i && value !== states[i - 1][1]) {
    picture.bars.append(svg("path", { class: "tick", d: `M${from} ${floor - BAR - 3}V${floor + 3}` }));
  }
  const start = Math.max(from, 0) + 5;
  const text = number(value) + (tags & 14 ? ` ${tagsText(tags)}` : "");
  if (!isFull(tags) || text.length * 6.8 + 1 >= Math.min(to, picture.viewWidth) - start) return;
  picture.bars.append(svg("text", { class: "value", x: start, y: floor - 5 }, text));
}

/** Where a step met a word, with the number that it read or wrote, and a stem between the two. */
function drawMeeting(picture, middle, { step, n }, lane, isHere) {
  const isFound = lane.found.has(n);
  const y = lane.y + 16 + BAR;
  const kind = `stem ${sign(step)}${isFound ? " lost" : ""}${isHere ? " here" : ""}`;
  const mark = at(middle, y, meeting(step));
  mark.classList.toggle("lost", isFound);
  const stem = `M${middle} ${middleOf(step.who) + CELL / 2}V${lane.y + 3}`;
  picture.stems.append(svg("path", { class: kind, d: stem }), mark);
  const text = meetingText(step.ref);
  if (text.length * 6.8 + 8 >= picture.width / 2 + 4) return;
  picture.stems.append(svg("text", { class: isFound ? "met lost" : "met", x: middle + 7, y: y + 4 }, text));
}

/** The number that was read or written. */
function meetingText([operation, , , , given, reply]) {
  if (reply === null || operation === "TAGSET") return "";
  if (operation === "FADD") return `+${number(given)}`.replace("+−", "−");
  return number(given ?? reply);
}

/** Below a word: from the read to the store that was made from it, or torn between a read and a change. */
function drawBracket(picture, bracket, y) {
  const [from, to] = [picture.middle(bracket.from), picture.middle(bracket.to)];
  if (!picture.shows(from, to + 200)) return;
  if (bracket.kind === "torn") picture.front.append(at(from, y, tornLine(to - from)));
  else picture.front.append(svg("path", { class: "lost", d: `M${from} ${y - 5}V${y}H${to}V${y - 5}` }));
  if (bracket.cross) picture.front.append(at(picture.middle(bracket.cross), y, cross()));
  picture.front.append(svg("text", { class: "small lost", x: to + 6, y: y + 3 }, bracketText(bracket)));
}

function bracketText({ kind, cross: over, from, to, isOld }) {
  if (kind === "torn") {
    const reader = steps[(isOld ? from : to) - 1];
    return `torn: ${reader.who} read the ${isOld ? "old" : "new"} ${number(reader.ref[5])}`;
  }
  const value = number(steps[over - 1].ref[4]);
  return kind === "lost" ? `${steps[over - 1].who}'s ${value} is lost` : `${value} was never read`;
}

// ---------------------------------------------------------------- arrows between streams

/**
 * Unbroken from the step that let a wait through; broken from the step that caused a wait without end, or the one in
 * which one stands. Where many would cross, only those of the stream that is told at the right.
 */
function drawArrows(picture, wait) {
  if (hasManyArrows && wait.stream !== shownStream()) return;
  const isIn = picture.isLive && waitAt(wait.stream, view.position) === wait;
  const isHere = isIn || (picture.isLive && view.position === wait.to);
  const arrows = arrowsOf(wait);
  if (isIn && wait.to !== null && wait.made && wait.made < wait.from) arrows.push([wait.made, wait.from, "causes"]);
  for (const [from, to, kind] of arrows) drawArrow(picture, from, to, isHere ? `${kind} here` : kind);
}

const arrowHead = (x, y, isUp) => svg("path", { class: "head", d: `M${x} ${y}l-4 ${isUp ? 7 : -7}h8z` });

function drawArrow(picture, from, to, kind) {
  const [x1, x2] = [picture.middle(from), picture.middle(to)];
  if (!picture.shows(Math.min(x1, x2), Math.max(x1, x2)) || columnOf[from] === columnOf[to]) return;
  const [y1, y2] = [from, to].map((n) => middleOf(steps[n - 1].who));
  const half = CELL / 2;
  const isUp = y2 < y1;
  let path, head;
  if (y1 === y2) {
    path = `M${x1} ${y1 - half}C${x1} ${y1 - 26} ${x2} ${y1 - 26} ${x2} ${y1 - half - 6}`;
    head = arrowHead(x2, y2 - half + 1, false);
  } else {
    const [start, stop] = isUp ? [y1 - half, y2 + half] : [y1 + half, y2 - half];
    const middle = (start + stop) / 2;
    path = `M${x1} ${start}C${x1} ${middle} ${x2} ${middle} ${x2} ${stop + (isUp ? 6 : -6)}`;
    head = arrowHead(x2, stop, isUp);
  }
  picture.arrows.append(svg("g", { class: `arrow ${kind}` }, svg("path", { d: path }), head));
}
"#;
