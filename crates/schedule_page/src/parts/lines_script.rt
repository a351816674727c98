//! A text of the page: `page/play/lines.js`. Made by `page/embed.py`.

pub(crate) const TEXT: &str =
    r#"// ---------------------------------------------------------------- lines about runs

/** The lines that not all runs keep. Each has a run that does not: its steps, and those that come again and again. */
const unkeptLines = data.runs.filter((one) => !one.kept);

/** The streams of a run that does not keep a line: those of its steps that change something, and how many of them are
  of the round. */
function runOf(one) {
  const streams = [];
  let w = 0;
  const take = (name) => {
    const k = names.indexOf(name);
    if (leads[k][w] === w) return;
    streams.push(k);
    w = leads[k][w];
  };
  scheduleSteps(one.schedule).forEach(take);
  const first = streams.length;
  scheduleSteps(one.round).forEach(take);
  return { streams, inRound: streams.length - first };
}

/** What is said of all runs, where some line is not kept. */
function unkeptText() {
  return unkeptLines.length ? ` Not every run${begins} keeps ${and(unkeptLines.map(({ line }) => quote(line)))}.` : "";
}

/** How a run goes on that does not keep a line. */
function followsText({ follows }, inRound) {
  if (follows === "nothing") return "no stream has to go on from here";
  if (follows === "anything") return "that is so whatever follows";
  if (!inRound) return "steps that change nothing can be taken again and again";
  return `the last ${inRound === 1 ? "step" : steps(inRound)} can be taken again and again`;
}

/** What is said where the way up to step n is a run that does not keep a line. */
function unkeptParts(n) {
  return unkeptLines.flatMap((one) => {
    const { streams, inRound } = runOf(one);
    const isRun = streams.length === n && streams.every((k, i) => way[i][0] === k);
    return isRun ? [` ${quote(one.line)} is not kept: ${followsText(one, inRound)}.`] : [];
  });
}

/** Shows a run that does not keep a line, from the start. */
function showRun(one) {
  view.shown = true;
  extend(0, runOf(one).streams);
  goTo(0, true);
  play();
}

/** The lines about runs, and for each that not all runs keep a button that shows one. */
function runRow(one) {
  const kind = one.kept ? "right" : "wrong";
  const sign = html("span", { class: `sign ${kind}`, "aria-hidden": "true" }, SIGNS[kind]);
  const told = `${one.kept ? "every" : "not every"} run${begins} keeps it`;
  const row = html("li", {}, sign, html("span", { class: "line" }, quote(one.line)), html("span", { class: "togo" }, told));
  if (one.kept) return row;
  const show = html("button", { type: "button", class: "show", "aria-label": `Show a run that does not keep ${one.line}` },
    "Show");
  show.addEventListener("click", () => showRun(one));
  row.append(show);
  return row;
}

/** What is said of the lines about runs beside the ends. */
function runNotes() {
  if (!data.runs.length) return [];
  return [html("p", { class: "muted" }, "What is said of whole runs:"),
    html("ul", { "aria-label": "Lines about runs" }, ...data.runs.map(runRow))];
}
"#;
