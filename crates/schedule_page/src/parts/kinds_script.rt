//! A text of the page: `page/play/kinds.js`. Made by `page/embed.py`.

pub(crate) const TEXT: &str =
    r#"// ---------------------------------------------------------------- ends and states by kind

const isJudged = data.ends.some((end) => end.right !== null);
const SIGNS = { right: "✓", plain: "•", found: "?", wrong: "!", broken: "!", deadlock: "∞", stopped: "×",
  spinning: "↻" };
/** Ends that are right if all else is: those that wait or loop, a line of the expectations allows. */
const MAY_BE_RIGHT = ["finished", "waiting", "looping"];
/** Whether streams wait at an end, and none can go on. */
const isStill = (end) => ["deadlock", "waiting"].includes(end?.kind);
/** The kind of an end. Where nothing is judged, one whose shortest schedule has a finding is `found`. */
function kindOf(end) {
  if (!MAY_BE_RIGHT.includes(end.kind)) return end.kind;
  if (end.right !== null) return end.right ? "right" : "wrong";
  return end.findings.length ? "found" : "plain";
}
const kinds = data.ends.map(kindOf);
const rightEnds = data.ends.flatMap((end, e) => (end.right ? [e] : []));
const isBad = (e) => kinds[e] === "wrong" || kinds[e] === "broken";

/** A word by its name; by its address where it has none. */
const shortName = (a) => givenName(a) || wordName(a);

/** [address, value before, value] of each word of a state that differs from the start. */
const changedWords = (w) => [...wordMap(w)].map(([a, [value]]) => [a, startWord(a)[0], value]);

/** Writes to each end what its first state holds: the words that changed, who waits for which word, who was stopped;
  and the tags by which alone it differs from others. */
function describeEnds() {
  for (const end of data.ends) {
    const w = end.states[0];
    end.words = changedWords(w);
    end.tags = [];
    const running = names.map((name, k) => [name, k]).filter(([, k]) => runs(w, k));
    end.waiting = isStill(end) ? running.map(([name, k]) => [name, recordOf(w, k)[4]
      ?? recordOf(w, k)[3]]) : [];
    end.stopped = names.flatMap((name, k) => {
      const [status, trap] = (content(w, k).status ?? "").split(" ");
      return status === "stopped" ? [[name, Number(trap)]] : [];
    });
  }
  data.ends.forEach((end, e) => (end.label = end.kind === "broken" ? end.text : labelOf(end, e)));
  separateLabels();
}

/** Writes to an end the tags of those words whose tags differ among it and others. */
function noteTags(end, alike) {
  const tagsIn = (other, a) => wordAt(other.states[0], a)[1];
  const all = [...new Set(alike.flatMap((other) => other.words.map((word) => word[0])))].sort((a, b) => a - b);
  const telling = all.filter((a) => new Set(alike.map((other) => tagsIn(other, a))).size > 1);
  end.tags = telling.map((a) => [a, allTags(tagsIn(end, a))]);
}

/** Gives each end a label of its own: ends with the same one get the tags that differ, and those that still have the
  same one a number. */
function separateLabels() {
  for (const alike of labelled()) {
    for (const end of alike.filter((one) => !one.tags.length && one.kind !== "broken")) {
      noteTags(end, alike);
      end.label = withTags(end.label, end.tags.slice(0, 3));
    }
  }
  for (const alike of labelled()) alike.forEach((end, i) => (end.label += ` (${i + 1})`));
}

/** The ends of each label that several have. */
function labelled() {
  const all = new Map();
  for (const end of data.ends) all.set(end.label, [...(all.get(end.label) ?? []), end]);
  return [...all.values()].filter((alike) => alike.length > 1);
}

/** A label with the tags of some words, each after the word's value where the label has it. */
function withTags(label, tags) {
  const parts = label.split(", ");
  for (const [a, text] of tags) {
    const name = shortName(a);
    const at = parts.findIndex((part) => part.split(" ").some((piece) => piece.startsWith(`${name}=`)));
    if (at < 0) parts.push(`${name} ${text}`);
    else parts[at] += ` ${text}`;
  }
  return parts.join(", ");
}

/** A short name that tells an end from the others of its kind: by words that differ between them,
  and by who waits. */
function labelOf(end, e) {
  const alike = data.ends.filter((other) => other.kind === end.kind);
  const valueIn = (other, a) => other.words.find((word) => word[0] === a)?.[2] ?? startWord(a)[0];
  const all = [...new Set(alike.flatMap((other) => other.words.map((word) => word[0])))].sort((a, b) => a - b);
  const telling = all.filter((a) => new Set(alike.map((other) => valueIn(other, a))).size > 1).slice(0, 3);
  const who = end.waiting.map(([name]) => name).join(", ");
  const isByWho = new Set(alike.map((other) => JSON.stringify(other.waiting))).size > 1;
  if (!telling.length && !(isByWho && who)) noteTags(end, alike);
  const differing = telling.map((a) => `${shortName(a)}=${valueIn(end, a)}`).join(", ")
    || end.tags.slice(0, 3).map(([a, tags]) => `${shortName(a)} ${tags}`).join(", ");
  const first = end.words.slice(0, 2).map((word) => `${shortName(word[0])}=${word[2]}`).join(", ");
  if (end.kind === "finished") return differing || `finished ${first}`.trim();
  const waits = isByWho && who ? [`${who} ${end.waiting.length > 1 ? "wait" : "waits"}`] : [];
  const texts = [...waits, ...(differing ? [differing] : [])].join(", ");
  const number = !texts && alike.length > 1 ? ` ${alike.indexOf(data.ends[e]) + 1}` : "";
  return texts ? `${end.kind}: ${texts}` : `${end.kind}${number}`;
}
describeEnds();

/** What is told of a state by what can still come: open, right, wrong, dead, plain. */
function classOf(set) {
  const all = set.map((e) => kinds[e]);
  if (all.length && all.every((kind) => kind === "deadlock")) return "dead";
  if (!isJudged) return all.length === 1 ? "plain" : "open";
  const rights = set.filter((e) => data.ends[e].right).length; // also those that a trap stops as expected
  return rights === set.length ? "right" : rights ? "open" : "wrong";
}
const classes = data.sets.map(classOf);
const stateClass = (w) => classes[aheadOf[w]];
"#;
