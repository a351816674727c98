//! A text of the page: `page/pair/both.js`. Made by `page/embed.py`.

pub(crate) const TEXT: &str =
    r#"// ---------------------------------------------------------------- both runs on the chart, and where they part

const CAPTION = 26; // pixels of the line above the lanes of a run, in pair.css too
const PLACES_SHOWN = 4;

/** The step in which the schedules part: the first that is not of one stream in both, or that one of them has not. */
function partingStep() {
  const [one, other] = data.runs.map(({ steps }) => steps);
  const n = one.findIndex((step, i) => step.p !== other[i]?.p || step.s !== other[i]?.s);
  return n < 0 ? (one.length < other.length ? one.length + 1 : 0) : n + 1;
}
const parting = partingStep();
const differing = data.difference?.position ?? 0;

/** The lines above the lanes: which run it is, and how it ended. */
function drawCaption(k, width) {
  const [, title] = endTitle();
  const picture = svg("svg", { class: "pic caption", width, height: CAPTION });
  const text = svg("text", { class: "side-title", x: 8, y: 17 }, `${run.schedule}: ${title}`);
  const sheet = svg("rect", { class: k === shownSide ? "sheet taken" : "sheet", width, height: CAPTION });
  picture.append(sheet, text);
  return picture;
}

/** Where the schedules part: a line through the lanes, before that step. */
function drawParting(picture, left) {
  const x = (columnOf[parting] ?? columns.length) * cellWidth - left;
  if (parting) picture.append(svg("path", { class: "parting", d: `M${x} 0V${lanes.height}` }));
  return picture;
}

const drawCharts = (left, width) =>
  sides.flatMap((_, k) => inRun(k, () => [drawCaption(k, width), drawParting(drawChart(left, width), left)]));

const paperHead = () => [html("h2", {}, `${run.schedule}: ${endTitle()[1]}`)];

/** The names of all lanes, each run's below a button that shows it. */
function headsOfBoth() {
  let top = 0;
  return sides.flatMap((side, k) => inRun(k, () => {
    chartTop = top + CAPTION;
    top = chartTop + lanes.height;
    const button = html("button", { class: "caption", "data-side": k }, sideName(k));
    return [button, ...makeHeads(() => showSide(k)), html("div", { class: "gap" })];
  }));
}

// ---------------------------------------------------------------- where they part, in words

const stepWords = (step) =>
  step ? [html("b", {}, step.who), isSkipped(step) ? " is skipped" : ` at ${stepPlace(step)} `,
    isSkipped(step) ? "" : code(cut(stepStatement(step), 60))] : ["has ended"];

function partingWords() {
  if (!parting) return ["Both schedules are the same."];
  const took = perRun(() => stepWords(steps[parting - 1])).flatMap((words, k) =>
    [k ? "; " : "", `${sideName(k)}: `, ...words]);
  const shared = parting > 1 ? `The runs share ${times(parting - 1, "the first step", "steps")}. ` : "";
  return [shared, "They part in ", stepLink(parting), ": ", ...took, "."];
}

const partTexts = {
  value: number, tags: (tags) => [fullText(tags), tagsText(tags)].filter(Boolean).join(", "), pc: placeOf,
};

/** A place in which the states differ, and what stands there in the one and in the other. */
function placeWords([place, one, other]) {
  const [, owner, part] = place.match(/^(.*)\.(\w+)$/);
  const say = partTexts[part] ?? ((value) => (/^\d+$/.test(value) ? number(value) : String(value)));
  const own = part === "pc" ? `where ${owner} is` : `${part} of ${owner}`;
  const name = place[0] === "[" ? fullName(parseInt(owner.slice(1), 10)) : own;
  return [`${name} (`, html("span", { class: "change" }, say(one), " | ", say(other)), ")"];
}

/** Words first, then what streams hold. */
const wordsFirst = (places) => [...places].sort(([one], [other]) => (other[0] === "[") - (one[0] === "["));

function differenceWords() {
  if (!data.difference) return parting ? [" Their states are the same after each step."] : [];
  const places = wordsFirst(data.difference.differ);
  const more = places.length - PLACES_SHOWN;
  const told = places.slice(0, PLACES_SHOWN).flatMap((place, i) => [i ? ", " : "", ...placeWords(place)]);
  const rest = more > 0 ? `, and ${more} more.` : ".";
  return [" After ", stepLink(differing), " their states differ first: ", ...told, rest];
}

// ---------------------------------------------------------------- both ends

/** A run's schedule, a button that shows it, and how it ended. */
function sideWords(k) {
  const pressed = String(k === shownSide);
  const button = html("button", { class: "take", "data-side": k, "aria-pressed": pressed }, `Show ${sideName(k)}`);
  const kind = k === shownSide ? "side taken" : "side";
  return html("section", { class: kind, "aria-label": sideName(k) },
    html("p", { class: "name" }, button, ` ${run.schedule}`), ...endWords("h2"));
}

function showEnd() {
  byId("end").classList.add("pair");
  byId("end").replaceChildren(
    html("h1", { class: "pair" }, `${head.name}: two runs`),
    html("p", { class: "parts" }, ...partingWords(), ...differenceWords()),
    html("div", { class: "sides" }, ...sides.map((_, k) => inRun(k, () => sideWords(k)))),
  );
}

function onSide(event) {
  const side = event.target.closest("[data-side]")?.dataset.side;
  if (side === undefined) return;
  const { className } = event.target;
  showSide(Number(side));
  document.querySelector(`.${className}[data-side="${side}"]`)?.focus({ preventScroll: true });
}
"#;
