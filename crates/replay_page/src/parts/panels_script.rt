//! A text of the page: `page/panels.js`. Made by `page/embed.py`.

pub(crate) const TEXT: &str =
    r#"// ---------------------------------------------------------------- the panel at the right: a stream, and the words

const counts = (used, reserved) => `${used} in use, ${reserved} reserved`;

const row = (name, place, value, change, note) =>
  html("tr", { class: change ? "changed" : null }, html("th", { scope: "row" }, name),
    html("td", { "data-place": place, "data-value": value }, ...whyButton(place, change || [note ?? number(value)])));

const isSet = (value) => String(value) !== "0";

/** What a stream has beside its registers: part, name, what stands there at the start, when it is shown, its words. */
const PARTS = [
  ["codes", "codes, the newest first", 0, isSet, codesText],
  ["mask", "trap mask", 0, isSet, number],
  ["trap", "in a trap", 0, isSet, (value) => (isSet(value) ? "yes" : "no")],
  ...Array.from({ length: 8 }, (_, t) => [
    `t${t}`, `t${t}`, "0", (value) => isSet(value) && (t || value !== String(NO_HANDLER)), statusText]),
  ["xr", "trap register", "0", isSet, (value) => (isSet(value) ? trapText(BigInt(value)) : "0")],
  ["retries", "tries", 0, isSet, number],
];
const trapText = (bits) => `${trapName(Number(bits & 255n))} at ${number(bits >> 8n)}`;

/** The rows of a stream: its place, registers that are not zero, what else is set; what changed in any case. */
function streamRows(id, changes) {
  const rows = [];
  const add = (part, name, absent, isShown, say) => {
    const place = `${id}.${part}`;
    const value = get(place, absent);
    const change = changes.get(place);
    if (!isShown(value) && !change) return;
    const told = change && [html("span", { class: "change" }, say(change[0]), " → ", html("b", {}, say(change[1])))];
    rows.push(row(name, place, value, told, say(value)));
  };
  add("pc", "at", 0, () => true, placeOf);
  for (let r = 1; r < 32; r++) add(`r${r}`, `r${r}`, "0", isSet, number);
  for (const part of PARTS) add(...part);
  return rows;
}

/** How many streams of a processor are in use and reserved. */
function processorRow(p, changes) {
  const place = `${p}.scur`;
  const [used, reserved] = [get(place, 0), get(`${p}.sres`, 0)];
  const change = changes.get(place);
  const told = change && [html("span", { class: "change" }, `${change[0]} → `, html("b", {}, `${change[1]} in use`))];
  return row(`processor ${p}`, place, used, told, counts(used, reserved));
}

/** A stream's state in a word: waits, running, stopped, idle or has quit. */
function stateOf(id) {
  const status = get(`${id}.status`, "idle");
  if (waitAt(id, view.position)) return "waits";
  if (status !== "idle") return status.split(" ")[0];
  return (lives.get(id) ?? []).some(([from]) => from <= view.position) ? "has quit" : "idle";
}

/** The element that is made anew by something has the focus again where it had it. */
function keepFocus(node, act) {
  const { word, why } = document.activeElement?.dataset ?? {};
  const old = node.contains(document.activeElement) && (why ? `[data-why="${why}"]` : word && `[data-word="${word}"]`);
  act();
  if (old) node.querySelector(old)?.focus({ preventScroll: true });
}

function showStream() {
  const id = shownStream();
  const changes = changesHere();
  const status = get(`${id}.status`, "idle");
  const wait = waitAt(id, view.position);
  const rows = status === "idle" ? [] : streamRows(id, changes);
  rows.push(processorRow(id.split(".")[0], changes));
  const kind = wait ? "blocked" : status.split(" ")[0];
  const tag = html("span", { class: `tag ${kind}`, "data-place": `${id}.status`, "data-value": status }, stateOf(id));
  keepFocus(byId("stream"), () => byId("stream").replaceChildren(
    html("h2", {}, `Stream ${id} `, tag),
    ...(wait ? [html("p", { class: "waiting" }, "It ", ...waitText(wait, view.position), ".")] : []),
    html("table", { "aria-label": `Stream ${id}` }, html("tbody", {}, ...rows)),
  ));
}

// ---------------------------------------------------------------- words

const WORDS_SHOWN = 200;
const WORD_LETTERS = 20; // of a word's address and name
const DATA_LISTED = 16; // a line of data with a name or a comment has its words listed, where it has no more than these

function listedWords() {
  const isListed = ([first, count, , text]) => count <= DATA_LISTED && (text || nameOfLine.has(first));
  const lines = run.data.filter(isListed);
  const named = lines.flatMap(([first, count]) => Array.from({ length: count }, (_, i) => first + 8 * i));
  const all = new Set([...named, ...wordStates.keys(), ...stepsAt.keys()]);
  return [...all].filter((address) => startWords[address / 8]).sort((a, b) => a - b);
}
let wordKeys = []; // the words that are listed

/** Word to the streams that wait for it here. */
function waitersHere() {
  const waiting = new Map();
  for (const stream of waitsOf.keys()) {
    const wait = waitAt(stream, view.position);
    if (wait) listIn(waiting, wait.word).push(stream);
  }
  return waiting;
}

function wordRow(address, changes, who) {
  const [value, tags] = wordAt(address);
  const [valuePlace, tagsPlace] = [`[${address}].value`, `[${address}].tags`];
  const isChanged = changes.has(valuePlace) || changes.has(tagsPlace);
  const pressed = String(view.word === address);
  const told = changes.has(valuePlace) ? changed(changes.get(valuePlace)[0], value) : number(value);
  const full = fullText(tags);
  const note = cut(remark(address), dataOf(address)?.[1] > 1 ? 26 : 60);
  const waits = who ? [html("span", { class: "waiting" }, ` ${andMore(who)} wait${who.length > 1 ? "" : "s"}`)] : [];
  return html("tr", { class: isChanged ? "changed" : null },
    html("th", { scope: "row" },
      html("button", { class: "word", "data-word": address, "aria-pressed": pressed },
        cut(namedWord(address), WORD_LETTERS))),
    html("td", { "data-place": valuePlace, "data-value": value }, ...whyButton(valuePlace, [told])),
    html("td", { "data-place": tagsPlace, "data-value": tags },
      html("span", { class: `bit ${full}`, "aria-hidden": "true" }),
      `${full}${tags & 14 ? `, ${tagsText(tags)}` : ""}`),
    html("td", { class: "note" }, note, ...waits));
}

function showWords() {
  const changes = changesHere();
  const waiting = waitersHere();
  const shown = wordKeys.slice(0, WORDS_SHOWN);
  const rows = shown.map((address) => wordRow(address, changes, waiting.get(address)));
  const rest = startWords.length - rows.length;
  const why = wordKeys.length > WORDS_SHOWN ? "not listed" : "that no step touched";
  keepFocus(byId("words"), () => byId("words").replaceChildren(
    html("h2", {}, "Words"),
    html("table", { class: "words", "aria-label": "Words" }, html("tbody", {}, ...rows)),
    ...(rest ? [html("p", { class: "muted" }, `${rest} more ${why}.`)] : []),
    ...(run.why === null ? [html("p", { class: "muted" }, NO_CHAIN)] : []),
  ));
}
"#;
