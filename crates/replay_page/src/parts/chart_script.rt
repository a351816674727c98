//! A text of the page: `page/chart.js`. Made by `page/embed.py`.

pub(crate) const TEXT: &str =
    r#"// ---------------------------------------------------------------- the chart on the screen

const LEAST_ROOM = 13; // pixels of a step in which its signs can still be read
const scroller = byId("scroll");
let cellWidth = 24;
let frame = 0;

/** All steps at once where their signs can still be read, else steps of a comfortable width. */
function fit() {
  const count = Math.max(1, ...perRun(() => columns.length));
  const behind = Math.max(...perRun(() => endRoom));
  const room = Math.floor((scroller.clientWidth - behind) / count);
  const fitting = room >= LEAST_ROOM ? Math.min(76, room) : columns.length < steps.length ? 34 : 26;
  cellWidth = Math.round(Math.min(140, Math.max(6, fitting * 1.35 ** view.zoom)));
  byId("span").setAttribute("width", count * cellWidth + behind);
}

/** The lanes of the run, as far as they are in sight. */
function drawChart(left, width) {
  const picture = drawLanes(left, width, cellWidth, true);
  picture.setAttribute("role", "img");
  const what = `${times(steps.length, "1 step", "steps")} of ${times(stepsOf.size, "1 stream", "streams")} over time`;
  picture.setAttribute("aria-label", `${what}. The tables below say the same in words.`);
  return picture;
}

function paint() {
  frame = 0;
  const [left, width] = [scroller.scrollLeft, scroller.clientWidth];
  byId("picture").replaceChildren(...drawCharts(left, width));
  byId("numbers").replaceChildren(drawRuler(left, width, cellWidth, true));
}

function repaint() {
  frame ||= requestAnimationFrame(paint);
}

// ---------------------------------------------------------------- the lanes' names

const HEAD_LETTERS = 16; // of a word's address and name

/** A name's height is that of an empty picture in it: the page has no styles of its own for single elements. */
const strut = (height) => svg("svg", { class: "strut", width: 1, height, "aria-hidden": "true" });

/** The lanes' names; a click on one does something first. */
function makeHeads(first = () => {}) {
  for (const lane of lanes) {
    lane.name = html("b", {});
    lane.note = html("span", {});
    lane.head = html("button", { class: "head", "aria-pressed": "false" }, strut(lane.height), lane.name, lane.note);
    const kind = lane.stream ? "stream" : "word";
    lane.head.addEventListener("click", () => {
      first();
      choose({ [kind]: view[kind] === lane[kind] ? null : lane[kind] });
    });
  }
  return lanes.map((lane) => lane.head);
}

function markStream(lane) {
  const state = stateOf(lane.stream);
  const isThere = state !== "idle" && state !== "has quit";
  const wait = waitAt(lane.stream, view.position);
  const own = lane.stream === shownStream() ? " own" : "";
  lane.head.className = `head${wait ? " waits" : ""}${own}${isThere ? "" : " idle"}`;
  lane.head.setAttribute("aria-pressed", String(view.stream === lane.stream));
  lane.name.textContent = lane.stream;
  lane.note.textContent = isThere ? placeOf(get(`${lane.stream}.pc`, 0)) : "";
  const where = isThere ? `, at ${lane.note.textContent}` : "";
  const how = wait ? `waits for ${namedWord(wait.word)} to be ${wait.for}` : state;
  const label = `Stream ${lane.stream}${where}, ${how}`;
  lane.head.setAttribute("aria-label", label);
  lane.head.setAttribute("title", label);
}

function markWord(lane) {
  const [value, tags] = wordAt(lane.word);
  lane.head.setAttribute("aria-pressed", String(view.word === lane.word));
  const [name, text] = [namedWord(lane.word), remark(lane.word)];
  lane.name.textContent = cut(name, HEAD_LETTERS);
  lane.note.textContent = text;
  const note = text ? `, ${cut(text, 200)}` : "";
  lane.head.setAttribute("aria-label", `Word ${name}${note}: ${number(value)}, ${fullText(tags)}`);
  lane.head.setAttribute("title", `${name} ${cut(text, 200)}`);
}

function markHeads() {
  perRun(() => lanes.forEach((lane) => (lane.stream ? markStream : markWord)(lane)));
}

/** The first of the steps that belong to what is found in this step; 0 where nothing is. */
const foundFrom = () =>
  Math.min(...run.findings.filter((one) => lastOfFinding(one) === view.position).flatMap(stepsOfFinding), Infinity);

function keepInSight() {
  const x = columnOf[view.position] * cellWidth;
  const right = scroller.scrollLeft + scroller.clientWidth;
  const from = foundFrom();
  const start = from < Infinity ? Math.max(0, columnOf[from] * cellWidth - cellWidth) : x;
  const isWhole = x + 2 * cellWidth - start < scroller.clientWidth;
  if (!view.position) scroller.scrollLeft = 0;
  else if (start < x && isWhole && (start < scroller.scrollLeft || x + 2 * cellWidth > right)) {
    scroller.scrollLeft = start;
  } else if (x < scroller.scrollLeft || x + cellWidth > right - 40) {
    scroller.scrollLeft = view.position === steps.length ? x + endRoom : x - scroller.clientWidth / 2;
  }
}

/** Where there are more lanes than room, the step's own comes into sight. */
function keepLaneInSight() {
  const chart = byId("chart");
  const lane = laneOf.get(steps[view.position - 1]?.who);
  if (!lane || chart.scrollHeight <= chart.clientHeight) return;
  const y = chartTop + lane.y;
  const bottom = chart.scrollTop + chart.clientHeight;
  if (y < chart.scrollTop || y + lane.height > bottom) chart.scrollTop = y - chart.clientHeight / 3;
}

// ---------------------------------------------------------------- the legend

const barSign = (kind, height) => svg("rect", { class: kind, x: -9, y: 8 - height, width: 18, height });
const arrowSign = (kind) => {
  const head = svg("path", { class: "head", d: "M9 0l-7 -4v8z" });
  return svg("g", { class: `arrow ${kind}` }, svg("path", { d: "M-8 0H3" }), head);
};
const waitSign = () => svg("rect", { class: "wait", x: -9, y: -8, width: 18, height: 16 });

/** The signs that this run has, each with what it means. */
function legendItems() {
  const kinds = [...new Set(steps.map(sign))];
  const items = kinds.map((kind) => [glyph(kind, 18), kind]);
  const asked = new Set(steps.filter((step) => step.ref && step.o === "done").map((step) => step.ref[0]));
  const isRef = (operations) => operations.some((operation) => asked.has(operation));
  if (wordStates.size) items.push([barSign("full", BAR), "word full"], [barSign("empty", 4), "word empty"]);
  if (isRef(["LOAD", "TAGGET"])) items.push([meetSigns.read(), "read"]);
  if (isRef(["STORE", "TAGSET", "PURGE"])) items.push([meetSigns.written(), "written"]);
  if (isRef(["FADD"])) items.push([meetSigns.added(), "read and added to"]);
  if (run.waits.length) items.push([waitSign(), "waits"]);
  const arrows = new Set(run.waits.flatMap(arrowsOf).map(([, , kind]) => kind));
  const whose = hasManyArrows ? " (the chosen stream)" : "";
  if (arrows.has("frees")) items.push([arrowSign("frees"), `lets through${whose}`]);
  if (arrows.has("causes")) items.push([arrowSign("causes"), `makes it wait${whose}`]);
  if (run.findings.some((finding) => finding.kind !== "torn")) items.push([cross(), "lost"]);
  if (run.findings.some((finding) => finding.kind === "torn")) items.push([at(-9, 2, tornLine(18)), "torn read"]);
  if (run.round) items.push([at(-10, 2, roundArrow(20)), "comes back to the same state"]);
  const fold = svg("text", { class: "small", x: -8, y: 4 }, "×8");
  if (columns.length < steps.length) items.push([fold, "so many alike steps"]);
  return items;
}

function makeLegend() {
  const sized = { class: "pic", width: 24, height: 24, viewBox: "-12 -12 24 24", "aria-hidden": "true" };
  const signs = perRun(() => [...legendItems(), ...chainItems()]).flat();
  const items = new Map(signs.map(([node, name]) => [name, node]));
  byId("legend").replaceChildren(
    ...[...items].map(([name, node]) => html("span", {}, svg("svg", sized, node), name)));
}
"#;
