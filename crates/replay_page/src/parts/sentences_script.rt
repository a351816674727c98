//! A text of the page: `page/sentences.js`. Made by `page/embed.py`.

pub(crate) const TEXT: &str =
    r#"// ---------------------------------------------------------------- a step in a sentence, in the words of `mta_lab view`

// A step has its stream `who`, its `pc`, its outcome `o`, its reference `ref` and its changes `ch`, all as in the data
// of the page of a run. A part of its sentence is a list of texts and nodes.

const change = (before, now) => html("span", { class: "change" }, before, " → ", html("b", {}, now));
const changeOf = (name, before, now) => html("span", { class: "change" }, `${name} `, before, " → ",
  html("b", {}, now));
const joined = (parts) => parts.flatMap((part, i) => (i ? ["; ", ...part] : part));

const trapWords = (trap) => `trap ${trap}, ${trapName(trap)}`;
const trapReason = (trap) => (TRAPS[trap] ?? "").split(": ")[1] ?? "";
const codeLetters = (codes) => [0, 4, 8, 12].map((at) =>
  ["Z", "N", "C", "V"].filter((_, bit) => (codes >> at) & (1 << bit)).join("") || "-").join(" ");
const maskWords = (mask) => (mask ? [...["TRAP0", "TRAP1", "BLOCKED"].filter((_, bit) => mask & (1 << bit)), "disabled"]
  .join(" ") : "none");
const statusWords = (status) => status.replace(/^stopped (\d+)$/, (_, trap) => `stopped by ${trapWords(trap)}`);

/** A target register: its place where it is a pc alone, else its bits. */
function targetWords(value) {
  const bits = BigInt(value);
  if (bits === 0n) return "0";
  if (bits === BigInt(NO_HANDLER)) return "no handler";
  return bits > 0xffffffffn ? `0x${bits.toString(16)}` : placeName(Number(bits));
}

// what view calls a part of a stream, and how it says what stands there, where that is no plain name or number
const PART_NAMES = { trap: "in trap", retries: "tries" };
const PART_WORDS = { codes: codeLetters, mask: maskWords, trap: (is) => (is ? "yes" : "no"), status: statusWords };
const partName = (part) => PART_NAMES[part] ?? part;
const partWords = (part, value) => (/^t\d$/.test(part) ? targetWords : PART_WORDS[part] ?? number)(value);

/** A word's comment, as it stands after the word's address and name. */
const remarkOf = (address) => fullName(address).slice(namedWord(address).length);

/** A trap: its number and name, the address where the memory refused the request, and why. */
function trapParts(outcome, trap, address) {
  const at = address === undefined ? "" : ` at ${namedWord(address)}`;
  return [html("b", { class: outcome === "stopped" ? "lost" : "trap" }, `${trapWords(trap)}${at}`),
    `: ${trapReason(trap)}`];
}

const isOfWord = ([place], address) => place.startsWith(`[${address}].`);

/** What stands first of a step: its trap, its wait, or the word that it left as it was. */
function headParts({ o, ref, ch }, [value, tags]) {
  const [outcome, trap] = o.split(" ");
  const [operation, , , address] = ref ?? [];
  if (trap) return [trapParts(outcome, Number(trap), address)];
  if (outcome === "blocked") return [[`waits for ${fullName(address)} to be ${isFull(tags) ? "empty" : "full"}`]];
  if (!ref || ch.some((one) => isOfWord(one, address))) return [];
  const verb = operation === "LOAD" || operation === "TAGGET" ? "is" : "stays";
  return [[`${namedWord(address)} ${verb} ${number(value)}, ${allTags(tags)}${remarkOf(address)}`]];
}

/** What became of the word that a step changed; none where it changed none. */
function wordParts({ ref, ch }) {
  if (!ref) return [];
  const [operation, , , address, , reply] = ref;
  const [value, tags] = ["value", "tags"].map((part) => ch.find(([place]) => place === `[${address}].${part}`));
  const name = namedWord(address);
  const turned = tags ? [change(allTags(tags[1]), allTags(tags[2]))] : [];
  if (value) {
    const both = changeOf(name, number(value[1]), number(value[2]));
    return [[both, ...turned.flatMap((one) => [", ", one]), remarkOf(address)]];
  }
  const isRead = (operation === "LOAD" || operation === "FADD") && reply !== null;
  return tags ? [[`${name} ${isRead ? `is ${number(reply)}, ` : ""}`, ...turned, remarkOf(address)]] : [];
}

/** What changed of the stepping stream; its pc says where it goes on, where that is not the next word. */
function ownParts({ pc, o }, part, before, now) {
  if (part !== "pc") return [[changeOf(partName(part), partWords(part, before), partWords(part, now))]];
  return o === "done" && now === pc + 1 ? [] : [[`to ${placeName(now)}`]];
}

/** What changed of a stream that the step started; its start has its pc. */
function startedParts({ ch }, stream, part, now) {
  if (part === "pc") return [];
  if (part !== "status") return [[`${stream} has ${partName(part)} ${partWords(part, now)}`]];
  const [, , pc] = ch.find(([place]) => place === `${stream}.pc`) ?? [null, 0, 0];
  return [[`starts ${stream} at ${placeName(pc)}`]];
}

/** What changed but for words. The end of the step's stream stands for all that is of it and for the slots. */
function streamParts(step) {
  const processor = step.who.split(".")[0];
  const hasEnded = step.ch.some(([place, , now]) => place === `${step.who}.status` && now === "idle");
  const isKept = !step.ch.some(([place]) => place === `${processor}.sres`);
  const parts = hasEnded ? [[`the stream ends${isKept ? ", its slot is kept" : ""}`]] : [];
  for (const [place, before, now] of step.ch) {
    const [, stream, part] = place.match(/^(\d+\.\d+)\.(\w+)$/) ?? [];
    if (stream && stream !== step.who) parts.push(...startedParts(step, stream, part, now));
    else if (hasEnded) continue;
    else if (stream) parts.push(...ownParts(step, part, before, now));
    else if (place.endsWith(".sres")) parts.push([`processor ${processor} has ${number(now)} slots`]);
  }
  return parts;
}

/** The parts of a step's sentence; `word` is the value and the tags that its reference left in the word it met. */
function sentenceParts(step, word) {
  const parts = [...headParts(step, word), ...streamParts(step), ...wordParts(step)];
  return parts.length ? parts : [["goes on"]];
}
"#;
