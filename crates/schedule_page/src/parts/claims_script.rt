//! A text of the page: `page/play/claims.js`. Made by `page/embed.py`.

pub(crate) const TEXT: &str =
    r#"// ---------------------------------------------------------------- claims that do not hold: who is inside

const INSIDE = /^(always|never) at (most|least) (\d+) of ((?:\d+\.\d+ )+)in (\S+)\.\.(\S+)$/;
const OF_WORD = /^(?:always|never) word \[?(\w+)(?:\+(\d+))?\]? /;

/** The place in the program of a label, several of which may stand at one word; -1 where no line has it. */
function placeOfLabel(name) {
  const line = data.source.findIndex((text) => text.match(/^\s*(\w+):/)?.[1] === name);
  return line < 0 ? -1 : data.program.findIndex(([number]) => number > line);
}

/** The place in the program that a claim names by a label, by what is so many words after it, or by a number; -1 where
  the page knows no such label. */
function placeNamed(text) {
  if (/^(\d+|0x[\da-f]+)$/i.test(text)) return Number(text);
  const [, name, more] = text.match(/^(\w+)(?:\+(\d+))?$/) ?? [];
  const at = placeOfLabel(name);
  return at < 0 ? -1 : at + Number(more ?? 0);
}

/** The streams of a claim that run within its range in a state; none where the page can't tell, or where they do not
  break it. */
function insideParts(text, w) {
  const [, rule, side, many, streams, first, last] = text.match(INSIDE) ?? [];
  if (!rule) return [];
  const [low, high] = [placeNamed(first), placeNamed(last)];
  if (low < 0 || high < 0) return [];
  const isIn = (k) => k >= 0 && runs(w, k) && content(w, k).pc >= low && content(w, k).pc <= high;
  const inside = streams.trim().split(" ").map((name) => names.indexOf(name)).filter(isIn);
  const holds = side === "most" ? inside.length <= Number(many) : inside.length >= Number(many);
  if (holds !== (rule === "never")) return [];
  const who = inside.map((k) => `${names[k]} at ${placeOf(content(w, k).pc)}`);
  return [html("b", {}, "Inside"), ` ${first}..${last}: ${who.length ? and(who) : "no stream"}.`];
}

/** The word of a claim, as it is in a state. */
function claimedWordParts(text, w) {
  const [, name, more] = text.match(OF_WORD) ?? [];
  if (!name) return [];
  const named = data.names.find(([, , one]) => one === name)?.[0];
  const address = (named ?? Number(name)) + 8 * Number(more ?? 0);
  if (!shownWords[address / 8]) return [];
  const [value, tags] = wordAt(w, address);
  return [html("b", {}, "Here"), ` ${namedWord(address)} is ${number(value)}, ${allTags(tags)}.`];
}

/** The places of the steps by which a stream comes back to a state alone, one of which at least is not blocked; none
  where it does not. */
function loopOf(w, k) {
  const places = [];
  let isGoing = false;
  for (let v = w; runs(v, k) && places.length <= N; v = leads[k][v]) {
    if (v === w && places.length) return isGoing ? places : [];
    places.push(content(v, k).pc);
    isGoing ||= !isBlocked(v, k);
  }
  return [];
}

const LOOP_SHOWN = 12; // places of a loop

/** The stream that can loop alone in a state. */
function busyParts(text, w) {
  if (text !== "never busy") return [];
  const k = names.findIndex((_, one) => loopOf(w, one).length);
  if (k < 0) return [];
  const places = loopOf(w, k).map(placeOf);
  const rest = places.length > LOOP_SHOWN ? ", .." : "";
  return [html("b", {}, names[k]), ` can loop alone here: ${steps(places.length)} lead back to this very state: `
    + `${places.slice(0, LOOP_SHOWN).join(", ")}${rest}.`];
}

/** Of the claims that do not hold in a state what breaks them, with each claim's line but that of end e, the result. */
function brokenLines(w, e) {
  const broken = data.ends.flatMap((end, i) => (end.kind === "broken" && toGo[i][w] === 0 ? [i] : []));
  return broken.flatMap((i) => {
    const text = data.ends[i].text.trim().replace(/\s+/g, " ");
    const why = [insideParts, claimedWordParts, busyParts].map((parts) => parts(text, w)).find((one) => one.length);
    const claim = i === e ? [] : [html("li", {}, html("b", { class: "lost" }, "A claim does not hold here: "),
      code(text), ".")];
    return [...claim, ...(why ? [html("li", {}, ...why)] : [])];
  });
}
"#;
