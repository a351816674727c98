//! A text of the page: `page/gallery/runs.js`. Made by `page/embed.py`.

pub(crate) const TEXT: &str =
    r#"// ---------------------------------------------------------------- a run as a small picture

const [LANE, STEP_MOST, HEAD] = [14, 12, 2]; // in units of the picture
const [WIDE, HIGH] = [264, 72];
/** A sign of each outcome: its class, and its path in a box of this width and height. */
const SIGNS = {
  done: ["done-step", (w, h) => `M0 0H${w}V${h}H0Z`],
  blocked: ["blocked", (w, h) => `M0 ${h * 0.2}H${w}V${h * 0.8}H0Z`],
  trapped: ["trapped", (w, h) => `M${w / 2} 0L${w} ${h}H0Z`],
  stopped: ["stopped", (w, h) => `M0 ${h / 2}L${w / 2} 0L${w} ${h / 2}L${w / 2} ${h}Z`],
  skipped: ["skipped", (w, h) => `M0 ${h * 0.4}H${w}V${h * 0.6}H0Z`],
};
const OUTCOMES = { done: "done", blocked: "blocked", trapped: "trapped", stopped: "stopped by a trap" };

/** The sign of an outcome at a place. */
function signAt(outcome, x, y, width, height) {
  const [kind, path] = SIGNS[outcome.split(" ")[0]] ?? SIGNS.skipped;
  return svg("path", { class: kind, d: path(width, height), transform: `translate(${x} ${y})` });
}

/** The lanes of the streams of a run, which has these steps of a stream and an outcome each. */
function drawRun(run, says) {
  const streams = [...new Set(run.map(([stream]) => stream))].sort(byNumbers);
  const lane = Math.min(LANE, (HIGH - 2 * HEAD) / Math.max(1, streams.length));
  const step = Math.min(STEP_MOST, (WIDE - 2 * HEAD) / Math.max(1, run.length));
  const top = (HIGH - lane * streams.length) / 2;
  const y = (stream) => top + lane * streams.indexOf(stream);
  const lanes = streams.map((stream) => svg("path", { class: "lane", d: `M0 ${y(stream) + lane / 2}H${WIDE}` }));
  const cells = run.map(([stream, outcome], i) =>
    signAt(outcome, HEAD + i * step, y(stream) + lane * 0.15, step * 0.84, lane * 0.7));
  return svg("svg", { class: "run", viewBox: `0 0 ${WIDE} ${HIGH}`, role: "img", "aria-label": says,
    preserveAspectRatio: "xMinYMid meet" }, ...lanes, ...cells);
}

/** Names of streams in the order of processor and stream. */
function byNumbers(one, other) {
  const [[p, s], [q, t]] = [one, other].map((name) => name.split(".").map(Number));
  return p - q || s - t;
}

const signText = ([outcome, text]) => html("span", { class: "told" },
  svg("svg", { class: "sign", viewBox: "0 0 14 12", "aria-hidden": "true" }, signAt(outcome, 1, 1, 12, 10)),
  ` ${text}`);
byId("signs").replaceChildren(...Object.entries(OUTCOMES).map(signText));
"#;
