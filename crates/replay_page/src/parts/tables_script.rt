//! A text of the page: `page/tables.js`. Made by `page/embed.py`.

pub(crate) const TEXT: &str =
    r#"// ---------------------------------------------------------------- steps, waits and streams as tables

const TABLE_ROWS = 400;
const STREAMS_SHOWN = 200;
const STATEMENT_SHOWN = 80; // letters
let tableFrom = -1; // how many steps stand before the table; -1: it has to be made anew

const tableHead = (...names) =>
  html("thead", {}, html("tr", {}, ...names.map((name) => html("th", { scope: "col" }, name))));
const cells = (...texts) => texts.map((text) => html("td", {}, text));

function stepRow(step, n) {
  const link = html("a", { href: stepHash(n) }, String(n));
  return html("tr", { id: `row-${n}` },
    html("th", { scope: "row" }, link),
    ...cells(step.who, stepPlace(step), cut(stepStatement(step), STATEMENT_SHOWN)),
    html("td", { class: `outcome ${sign(step)}` }, step.o),
    html("td", {}, ...sentence(step, n)));
}

/** Shows the rows from some step on: as many as the table has. */
function showRows(from) {
  tableFrom = Math.max(0, Math.min(from, steps.length - TABLE_ROWS));
  const shown = steps.slice(tableFrom, tableFrom + TABLE_ROWS);
  const behind = tableFrom + shown.length;
  byId("steps").replaceChildren(
    html("caption", { class: "unseen" }, `Steps ${tableFrom + 1} to ${behind} of ${steps.length}`),
    tableHead("step", "stream", "address", "instruction", "outcome", "what it did"),
    html("tbody", {}, ...shown.map((step, i) => stepRow(step, tableFrom + i + 1))),
  );
  byId("earlier").hidden = tableFrom === 0;
  byId("later").hidden = behind === steps.length;
  byId("earlier").textContent = `steps ${Math.max(1, tableFrom - TABLE_ROWS + 1)} to ${tableFrom}`;
  byId("later").textContent = `steps ${behind + 1} to ${Math.min(steps.length, behind + TABLE_ROWS)}`;
}

function showTable() {
  const n = view.position;
  const isOut = n > 0 && (n <= tableFrom || n > tableFrom + TABLE_ROWS);
  if (tableFrom < 0 || isOut || (n === 0 && tableFrom > 0)) showRows(n - TABLE_ROWS / 2);
  const old = byId("steps").querySelector(".now");
  old?.classList.remove("now");
  old?.removeAttribute("aria-current");
  const here = byId(`row-${n}`);
  here?.classList.add("now");
  here?.setAttribute("aria-current", "step");
  const pane = byId("trace");
  if (!here) pane.scrollTop = 0;
  else if (here.offsetTop < pane.scrollTop + 30 || here.offsetTop + 30 > pane.scrollTop + pane.clientHeight) {
    pane.scrollTop = here.offsetTop - pane.clientHeight / 2;
  }
}

/** What ended a wait. */
function untilText(wait) {
  if (wait.to === null) {
    const isStuck = !atEnd.able.has(wait.stream);
    return [isStuck && run.end.kind === "deadlock" ? "never" : "the run's end"];
  }
  if (!wait.met) return [stepLink(wait.to)];
  return [stepLink(wait.to), ", let through by ", stepLink(wait.met), ` of ${steps[wait.met - 1].who}`];
}

function waitRow(wait) {
  const text = waitText(wait, wait.to === null ? steps.length : wait.from);
  return html("tr", {},
    html("th", { scope: "row" }, wait.stream), html("td", {}, ...text),
    html("td", {}, stepLink(wait.from)), html("td", {}, ...untilText(wait)));
}

function showWaits() {
  const rows = run.waits.slice(0, TABLE_ROWS).map(waitRow);
  const more = run.waits.length - rows.length;
  const caption = `Who waited for what${more > 0 ? ` (the first ${rows.length} of ${run.waits.length} waits)` : ""}`;
  byId("waits").hidden = rows.length === 0;
  byId("waits").replaceChildren(
    html("caption", {}, caption), tableHead("stream", "waits", "first try", "until"), html("tbody", {}, ...rows));
}

/** Each stream's place and state here: what the lanes' names and bands show. */
function showStreams() {
  const rows = allStreams.slice(0, STREAMS_SHOWN).map((id) => {
    const wait = waitAt(id, view.position);
    const state = stateOf(id);
    const isThere = state !== "idle" && state !== "has quit";
    return html("tr", {},
      html("th", { scope: "row" }, id), ...cells(isThere ? placeOf(get(`${id}.pc`, 0)) : ""),
      html("td", {}, ...(wait ? waitText(wait, view.position) : [state])));
  });
  const more = allStreams.length - rows.length;
  const caption = `The streams after step ${view.position}${more > 0 ? ` (the first ${rows.length} of them)` : ""}`;
  byId("streams").replaceChildren(
    html("caption", {}, caption), tableHead("stream", "at", "state"), html("tbody", {}, ...rows));
}
"#;
