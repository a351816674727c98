//! A text of the page: `page/circle.js`. Made by `page/embed.py`.

pub(crate) const TEXT: &str =
    r#"// ---------------------------------------------------------------- who waits for whom, drawn

const node = (kind, x, y, text, width, height, rx) =>
  at(x, y, svg("g", { class: `node ${kind}` },
    svg("rect", { x: -width / 2, y: -height / 2, width, height, rx }), svg("text", { y: 4.5 }, text)));
const streamNode = (x, y, text) => node("stream", x, y, text, Math.max(52, 14 + 8 * text.length), 26, 13);
const wordNode = (x, y, text) => node("word", x, y, text, 10 + 8 * text.length, 20, 0);
const edgeHead = (x, y, degrees) =>
  svg("path", { class: "edge-head", d: "M0 0l-10 -5v10z", transform: `translate(${x} ${y}) rotate(${degrees})` });

/** A wait in words, as `waitText` has it, without the step. */
function waitWords(wait) {
  const [turned] = turnedWords(wait);
  const who = wait.by === wait.stream ? `it ${turned} itself` : `${wait.by} ${turned}`;
  return `${wait.stream} waits for ${fullName(wait.word)} to be ${wait.for}, which ${who}`;
}

/** A picture of waits, which a screen reader reads as words. */
const waitPicture = (width, height, waits) =>
  svg("svg", {
    class: "pic ring", width, height, viewBox: `0 0 ${width} ${height}`, role: "img",
    "aria-label": waits.map(waitWords).join("; "),
  });

const RING_PARTS = 720; // straight parts of which a ring's length is summed
const NODE_ROOM = 100; // pixels of a ring from a stream to the next
const ROOMY = 6; // up to so many streams the words stand on the ring, of more within it
const WITHIN = 24; // pixels

const ON_RING = 11; // letters of a word's address and name
const IN_ROW = 16;

/** A word on a ring of so many streams: with its name where it stands on the ring. */
const wordOnRing = (count, { word }) => (count > ROOMY ? wordName(word) : cut(namedWord(word), ON_RING));

/** A ring of so many nodes, and the spot of node i, or between two nodes: equal parts are equally long. */
function ringOf(count, letters) {
  const ry = count > ROOMY ? 104 : 74;
  const mean = (count * Math.max(NODE_ROOM, 8 * letters + 96)) / (2 * Math.PI);
  const rx = Math.max(150, Math.round(Math.sqrt(Math.max(0, 2 * mean * mean - ry * ry))));
  const [width, height] = [2 * (rx + 50), 2 * (ry + 26)];
  const turn = (part) => (2 * Math.PI * part) / RING_PARTS;
  const exact = (part) => [width / 2 + rx * Math.sin(turn(part)), height / 2 - ry * Math.cos(turn(part))];
  const lengths = [0];
  for (let part = 1; part <= RING_PARTS; part++) {
    const [[x1, y1], [x2, y2]] = [exact(part - 1), exact(part)];
    lengths.push(lengths.at(-1) + Math.hypot(x2 - x1, y2 - y1));
  }
  const spot = (i) => {
    const length = ((i % count) / count) * lengths.at(-1);
    return exact(Math.max(0, lastUpTo(lengths, length, Number))).map((v) => Number(v.toFixed(1)));
  };
  /** As many pixels within the ring at a spot as a word takes, where it has no room on the ring. */
  const within = ([x, y]) => {
    const [right, down] = [(x - width / 2) / rx ** 2, (y - height / 2) / ry ** 2];
    const by = count > ROOMY ? WITHIN / Math.hypot(right, down) : 0;
    return [x - right * by, y - down * by];
  };
  const head = 0.06 * Math.min(1, count / ROOMY); // of the way to the next node
  return { width, height, rx, ry, spot, within, head };
}

/** The arc from node i of a ring to the next one's box, and where the word stands on it. */
function arcOf({ spot, within, rx, ry, head }, i) {
  const [nextX, nextY] = spot(i + 1);
  const isInBox = ([x, y]) => Math.abs(x - nextX) < 30 && Math.abs(y - nextY) < 18;
  let end = i + 1;
  while (end > i && isInBox(spot(end))) end -= 0.01;
  const [x, y] = spot(i);
  const [tipX, tipY] = spot(end);
  const [nearX, nearY] = spot(end - head);
  const degrees = (Math.atan2(tipY - nearY, tipX - nearX) * 180) / Math.PI;
  return {
    line: svg("path", { class: "edge", d: `M${x} ${y}A${rx} ${ry} 0 0 1 ${nearX} ${nearY}` }),
    head: edgeHead(tipX, tipY, degrees.toFixed(1)),
    middle: within(spot((i + end) / 2 + 0.04)),
  };
}

/** What the next stream of a circle did to the word that is waited for; `changed` where waits differ. */
const circleWord = (waits) => (waits.every((wait) => wait.for === "full") ? "took"
  : waits.every((wait) => wait.for === "empty") ? "filled" : "changed");

/** The streams of a circle on a ring: an arrow from each to the one that turned the word it waits for. */
function drawCircle(circle, waiting) {
  const waits = circle.map((id) => waiting.find((wait) => wait.stream === id)).filter(Boolean);
  const words = waits.map((wait) => wordOnRing(circle.length, wait));
  const longest = circle.length > ROOMY ? 0 : Math.max(...words.map((word) => word.length));
  const ring = ringOf(circle.length, longest);
  const picture = waitPicture(ring.width, ring.height, waits);
  const nodes = [];
  waits.forEach((wait, i) => {
    const arc = arcOf(ring, i);
    picture.append(arc.line, arc.head);
    const word = wordNode(...arc.middle, words[i]);
    word.append(svg("title", {}, fullName(wait.word)));
    nodes.push(word, streamNode(...ring.spot(i), wait.stream));
  });
  const lines = ["each arrow: waits for", `this word, which the next ${circleWord(waits)}`];
  const [x, y] = [ring.width / 2, ring.height / 2];
  picture.append(...nodes, ...lines.map((text, i) => svg("text", { class: "small", x, y: y - 3 + 15 * i }, text)));
  return picture;
}

const ROW_HEIGHT = 38;

/** A row for each that waits: the stream, an arrow with the word on it, and the one that turned the word. */
function drawWaitRows(waits) {
  const picture = waitPicture(400, ROW_HEIGHT * waits.length + 22, waits);
  waits.forEach((wait, i) => {
    const y = ROW_HEIGHT * i + 18;
    const other = wait.by === wait.stream ? "itself" : wait.by;
    picture.append(
      svg("path", { class: "edge", d: `M60 ${y}H288` }), edgeHead(298, y, 0),
      streamNode(40, y, wait.stream), wordNode(170, y, `${cut(namedWord(wait.word), IN_ROW)} ${wait.for}`),
      streamNode(336, y, other),
    );
  });
  const y = ROW_HEIGHT * waits.length + 14;
  picture.append(svg("text", { class: "small", x: 200, y }, "each arrow: waits for a word that the other changed"));
  return picture;
}
"#;
