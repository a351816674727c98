//! A text of the page: `page/why.js`. Made by `page/embed.py`.

pub(crate) const TEXT: &str =
    r#"// ---------------------------------------------------------------- why: the steps that a value comes from

// The data say of each step what it wrote, what it read for that, and which step wrote that last. A chain follows these
// links. A location is a word, `[8]`, or a register of a stream, `2.0.r1`.

const CHAIN_SHOWN = 100;
const NO_CHAIN = "What a value comes from is shown of runs of up to 10,000 steps.";
let question = null; // the location that the reader asked for, after which step, and its chain

const isWord = (place) => place[0] === "[";
const addressOf = (place) => parseInt(place.slice(1), 10);
const ownerOf = (place) => (isWord(place) ? place : place.split(".").slice(0, 2).join("."));

/** A location by its name in the data of step n, where the name of the step's own stream is left out. */
const locationOf = (name, n) => (/[.[]/.test(name) ? name : `${steps[n - 1].who}.${name}`);

/** What step n wrote into a location; a stream's name stands for its registers that are not named. */
function entryOf(n, place) {
  const entries = run.why[n - 1];
  return entries.find(([name]) => locationOf(name, n) === place) ?? entries.find(([name]) => name === ownerOf(place));
}

/** What step n read for what it wrote into a location, each with the step that wrote it last; 0 where none had. */
function sourcesOf(n, place) {
  const [, ...names] = entryOf(n, place);
  return Array.from({ length: names.length / 2 }, (_, i) => [locationOf(names[2 * i], n), names[2 * i + 1]]);
}

/** The step up to n that wrote a location last; 0 where none has. */
function lastWriter(place, n) {
  while (n > 0 && !entryOf(n, place)) n--;
  return n;
}

/** The steps that these writes come from, the newest first: of each the locations that it wrote. */
function chainOf(writes) {
  const chain = new Map();
  for (const [place, n] of writes) {
    if (!n || chain.get(n)?.includes(place)) continue;
    listIn(chain, n).push(place);
    writes.push(...sourcesOf(n, place));
  }
  return new Map([...chain].sort(([one], [other]) => other - one));
}

// ---------------------------------------------------------------- what stands in a location after a step

/** Of each place that a step changed what stood there, in the order of the steps: [step, value]. */
function allStates() {
  const states = new Map();
  steps.forEach((step, i) => {
    for (const [place, , now] of step.ch) listIn(states, place).push([i + 1, now]);
  });
  return states;
}

/** What stood in a location after step n, in words. */
function heldAt(place, n) {
  const states = question.states.get(isWord(place) ? `${place}.value` : place) ?? [];
  const last = states[lastUpTo(states, n, stepOfState)];
  const first = isWord(place) ? startWord(addressOf(place))[0] : head.start.places[place] ?? "0";
  return partWords(isWord(place) ? "value" : place.split(".")[2], last ? last[1] : first);
}

/** A location by name: a word's address and name, a register; whose it is where it is not of the stream. */
function locationWords(place, stream) {
  if (isWord(place)) return namedWord(addressOf(place));
  const [owner, part] = [ownerOf(place), place.split(".")[2]];
  if (owner === stream) return part ?? "all registers";
  return `${part ?? "all other registers"} of ${owner}`;
}

// ---------------------------------------------------------------- the chain in the lanes

/** Whether a cell has a step of the chain: one of the column's steps of its stream. */
function isInChain({ from, to }, who) {
  if (!question) return false;
  for (let n = from; n <= to; n++) if (question.chain.has(n) && steps[n - 1].who === who) return true;
  return false;
}

/** The mark of a cell of the chain: a dashed frame. */
const chainSign = (width, height = CELL + 6) =>
  svg("rect", { class: "chain", x: -width / 2, y: -height / 2, width, height, rx: 4 });

/** Its signs, for the legend. */
const chainItems = () =>
  (question ? [[chainSign(20, 18), "in the chain"], [arrowSign("comes"), "wrote what was read"]] : []);

const shownChain = () => [...question.chain].slice(0, CHAIN_SHOWN);

/** From the step that wrote a location to the one that read it, of the steps that are listed. */
function chainLinks() {
  const links = shownChain().flatMap(([n, places]) =>
    places.flatMap((place) => sourcesOf(n, place).map(([, from]) => [from, n])));
  return links.filter(([from]) => from);
}

// ---------------------------------------------------------------- the chain in words

function sourceWords([place, from], n) {
  const { who } = steps[n - 1];
  const since = from ? ["written in ", stepLink(from)] : ["as at the start"];
  return [html("b", {}, locationWords(place, who)), ` (${heldAt(place, n - 1)}, `, ...since, ")"];
}

function writeWords(place, n) {
  const sources = sourcesOf(n, place).map((source) => sourceWords(source, n));
  const from = sources.flatMap((words, i) => [i ? " and " : " from ", ...words]);
  return ["wrote ", html("b", {}, locationWords(place, steps[n - 1].who)), ...from];
}

const chainRow = ([n, places]) =>
  html("li", { "data-step": n }, stepLink(n), " ", html("b", {}, steps[n - 1].who), ` at ${stepPlace(steps[n - 1])} `,
    code(cut(stepStatement(steps[n - 1]), 60)), ": ", ...joined(places.map((place) => writeWords(place, n))), ".");

/** What was asked, as a heading. */
function askedTitle() {
  const { place, position } = question;
  if (!place) return `What step ${position} wrote comes from`;
  const when = position ? `after step ${position}` : "at the start";
  return `Why ${locationWords(place)} is ${heldAt(place, position)} ${when}`;
}

/** Who wrote it, and how long the chain is. */
function chainWords() {
  const { place, position, first, chain } = question;
  if (!run.why) return [NO_CHAIN];
  if (!chain.size && !place) return [`Step ${position} wrote no register and no word.`];
  if (!chain.size) return ["No step has written it: it is as at the start."];
  const part = chain.size > CHAIN_SHOWN ? `, of which the last ${CHAIN_SHOWN} are listed` : "";
  const count = `The chain has ${times(chain.size, "1 step", "steps")}${part}, the newest first.`;
  return place ? ["It was written last in ", stepLink(first), `. ${count}`] : [count];
}

function showWhy() {
  const node = byId("why");
  node.hidden = !question;
  makeLegend();
  if (!question) return node.replaceChildren();
  node.replaceChildren(
    html("h2", { id: "why-title" }, askedTitle()), html("button", { id: "unask" }, "Close"),
    html("p", {}, ...chainWords()), html("ol", {}, ...shownChain().map(chainRow)));
  markChain();
}

/** Marks this position's step in the chain. */
function markChain() {
  for (const row of byId("why").querySelectorAll("li")) {
    const isHere = Number(row.dataset.step) === view.position;
    row.classList.toggle("now", isHere);
    if (isHere) row.setAttribute("aria-current", "step");
    else row.removeAttribute("aria-current");
  }
}

// ---------------------------------------------------------------- asking

/** What is asked for: a location that a step wrote, or all that it wrote. */
function writesHere(place, n) {
  if (!run.why) return [];
  return place ? [[place, n]] : run.why[n - 1].map(([name]) => [locationOf(name, n), n]);
}

/** Shows the chain of what stands in a location here; without a location that of all that this step wrote. */
function askWhy(place) {
  const { position } = view;
  if (run.why === undefined || !(place || position)) return;
  const first = run.why && place ? lastWriter(place, position) : position;
  question = { place, position, first, chain: chainOf(writesHere(place, first)), states: allStates() };
  showWhy();
  repaint();
  byId("why").focus({ preventScroll: true });
  byId("why").scrollIntoView({ block: "nearest" });
}

function unask() {
  if (!question) return;
  const { place } = question;
  question = null;
  showWhy();
  repaint();
  byId("state").querySelector(`[data-why="${place}"]`)?.focus({ preventScroll: true });
}

/** A value as a button that asks why it is so, where the data say it. */
function whyButton(place, nodes) {
  const location = place.replace(/\.value$/, "");
  if (!run.why || !(isWord(location) || /\.[rt]\d+$/.test(location))) return nodes;
  return [html("button", { class: "why", "data-why": location, title: "Why? The steps that it comes from" }, ...nodes)];
}

function onWhy(event) {
  const button = event.target.closest("button");
  if (button?.id === "unask") unask();
  else if (button?.dataset.why) askWhy(button.dataset.why);
}
"#;
