//! A text of the page: `page/run.js`. Made by `page/embed.py`.

pub(crate) const TEXT: &str =
    r#"// Shows a run, or two, which stand as JSON in #run (docs/LAB_REFERENCE.md has its form). The script computes nothing of
// the machine: a position is reached by putting recorded values in place, forwards or backwards.

const data = JSON.parse(byId("run").textContent);
const head = data; // the program, its source and data, for what all pages name by it

// The run that is shown. What is gathered of it stands in variables too: a page of two runs takes the one or the other.
let run = data;
let steps = data.steps;
let runMark = ""; // what links to its steps begin with

// What the reader has chosen. `stream` null follows the step; `word` and `line` mark their steps.
const view = { position: 0, stream: null, word: null, line: null, hex: false, timer: 0, zoom: 0 };

// ---------------------------------------------------------------- lists and links

const stepHash = (n) => `#${runMark}${n}`;
const stepLink = (n) => html("a", { href: stepHash(n) }, `step ${n}`);
const listIn = (map, key) => map.get(key) ?? (map.set(key, []), map.get(key));

const whole = (text) => html("span", { class: "whole" }, text); // is not broken over lines

// ---------------------------------------------------------------- steps in words

const sign = (step) => step.o.split(" ")[0];
const trapOf = (step) => Number(step.o.split(" ")[1]);

// A skipped step has read no word of the program.
const isSkipped = (step) => step.o === "skipped";
const stepPlace = (step) => (isSkipped(step) ? "" : placeOf(step.pc));
const stepLine = (step) => (isSkipped(step) ? undefined : lineOf(step.pc));
const stepStatement = (step) => (isSkipped(step) ? "" : statement(step.pc));

/** The name of the first operation of a step's word, with its suffix. */
function mnemonic(step) {
  return stepStatement(step).split("|")[0].trim().split(/\s+/)[0].replace(/^@.*/, "@");
}

/** Names of streams in the order of processor and stream. */
function inOrder(ids) {
  const pairs = ids.map((id) => id.split(".").map(Number));
  return pairs.sort((a, b) => a[0] - b[0] || a[1] - b[1]).map((pair) => pair.join("."));
}

const NAMED = 8;

/** As many names as can be taken in, and how many more there are. */
const andMore = (names) =>
  and(names.length > NAMED + 1 ? [...names.slice(0, NAMED), `${names.length - NAMED} more`] : names);
const times = (count, one, many) => (count === 1 ? one : `${count} ${many}`);

/** A status word in words: where it points, then what else is set. */
function statusText(value) {
  const bits = BigInt(value);
  const pc = Number(bits & 0xffffffffn);
  const codes = Number((bits >> 32n) & 0xffffn);
  const mask = Number((bits >> 48n) & 7n);
  const parts = [pc === NO_HANDLER ? "no handler" : placeOf(pc)];
  if (codes) parts.push(codesText(codes));
  if (mask) parts.push(`mask ${mask}`);
  if (bits >> 56n) parts.push("in a trap");
  return parts.join("; ");
}
"#;
