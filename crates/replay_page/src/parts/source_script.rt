//! A text of the page: `page/source.js`. Made by `page/embed.py`.

pub(crate) const TEXT: &str =
    r#"// ---------------------------------------------------------------- the source: a window of its lines, with marks

const LINES_SHOWN = 400;
const LINE_SHOWN = 300; // letters of a line
const linesWithWords = new Set(head.program.map(([line]) => line));
let lineRows = []; // of the lines in the window
let lineFrom = 0; // how many lines stand before the window

function sourceRow(text, i) {
  const comesFrom = text.indexOf(";");
  const [before, after] = comesFrom < 0 ? [text, ""] : [text.slice(0, comesFrom), text.slice(comesFrom)];
  const body = html("span", { class: "text" });
  if (before.trim() || !after) body.append(html("span", { class: "code" }, cut(before.trimEnd(), LINE_SHOWN)));
  if (after) body.append(html("span", { class: "comment" }, cut(after, LINE_SHOWN)));
  const marks = html("span", { class: "marks" });
  const line = lineFrom + i + 1;
  const isButton = linesWithWords.has(line);
  const node = html(isButton ? "button" : "div", { class: "line", "data-line": line },
    marks, html("span", { class: "count" }, String(line)), body);
  return { node, marks, line, isButton };
}

/** A button that shows the lines before or behind the window. */
const moreLines = (first, last, by) =>
  html("button", { class: "more", "data-by": by }, `lines ${first} to ${last}`);

/** Shows the lines from some line on: as many as the window has. */
function showLines(from) {
  const all = head.source.length;
  const least = Math.max(0, all - LINES_SHOWN);
  lineFrom = Math.max(0, Math.min(from, least));
  const shown = head.source.slice(lineFrom, lineFrom + LINES_SHOWN);
  lineRows = shown.map(sourceRow);
  const nodes = lineRows.map((entry) => entry.node);
  const behind = lineFrom + shown.length;
  if (lineFrom > 0) nodes.unshift(moreLines(Math.max(1, lineFrom - LINES_SHOWN + 1), lineFrom, -LINES_SHOWN));
  if (behind < all) nodes.push(moreLines(behind + 1, Math.min(all, behind + LINES_SHOWN), LINES_SHOWN));
  byId("lines").replaceChildren(...nodes);
  byId("lines").classList.toggle("long", all >= 1000);
  byId("lines").scrollTop = 0;
  marked = [];
}

const rowOfLine = (line) => lineRows[line - lineFrom - 1];
let marked = [];

/** Line to the streams that stand there. */
function streamsOnLines() {
  const streams = new Map();
  for (const id of lives.keys()) {
    if (get(`${id}.status`, "idle") === "running") listIn(streams, lineOf(get(`${id}.pc`, 0))).push(id);
  }
  return streams;
}

const MARKED = 7; // letters of the names that are shown at a line

/** The marks of the streams at a line, the one at the right first: two of them, where there is room. */
function markLine(entry, ids) {
  const own = shownStream();
  ids.sort((a, b) => (b === own) - (a === own));
  const shown = ids.length === 2 && ids.join("").length <= MARKED ? ids : ids.slice(0, 1);
  for (const id of shown) {
    const kind = `mark${id === own ? " own" : ""}${waitAt(id, view.position) ? " blocked" : ""}`;
    entry.marks.append(html("span", { class: kind }, id));
  }
  const more = ids.length - shown.length;
  if (more) entry.marks.append(html("span", { class: "mark", title: ids.join(", ") }, `+${more}`));
}

function unmark() {
  for (const { node, marks } of marked) {
    marks.replaceChildren();
    node.classList.remove("from");
  }
  marked = [];
}

/** Marks this step's line and where each stream stands; the step's line, or the shown stream's, comes into sight. */
function markSource() {
  const step = steps[view.position - 1];
  const aimLine = step ? stepLine(step) : lineOf(get(`${shownStream()}.pc`, 0));
  if (aimLine && !rowOfLine(aimLine)) showLines(aimLine - LINES_SHOWN / 2);
  unmark();
  for (const [line, ids] of streamsOnLines()) {
    const entry = rowOfLine(line);
    if (!entry) continue;
    marked.push(entry);
    markLine(entry, ids);
  }
  const aim = rowOfLine(aimLine);
  if (aim && step) {
    marked.push(aim);
    aim.node.classList.add("from");
  }
  for (const { node, line, isButton } of lineRows) {
    if (isButton) node.setAttribute("aria-pressed", String(line === view.line));
  }
  if (aim) bringInSight(byId("lines"), aim.node);
}

function bringInSight(pane, node) {
  const [y, bottom] = [node.offsetTop, pane.scrollTop + pane.clientHeight];
  if (y < pane.scrollTop || y > bottom - 40) pane.scrollTop = y - pane.clientHeight / 3;
}
"#;
