//! A text of the page: `page/play/effects.js`. Made by `page/embed.py`.

pub(crate) const TEXT: &str =
    r#"// ---------------------------------------------------------------- what a step would do, by the states before and after

// the parts of a stream, in the order of the changes of a step
const PARTS = ["pc", "codes", "mask", "trap", "xr", "retries", "status",
  ...Array.from({ length: 32 }, (_, n) => `r${n}`), ...Array.from({ length: 8 }, (_, n) => `t${n}`)];

/** What stands in a part of a stream: the page's data leave out zeros, and a t0 that names no handler. */
function partOf(stream, part) {
  if (part === "status") return stream.status ?? "idle";
  const isText = /^(r\d|t\d|xr)/.test(part); // it has 64 bits
  const usual = part === "t0" && stream.status ? NO_HANDLER : 0;
  return stream[part] ?? (isText ? String(usual) : usual);
}

/** What changes of a stream. */
const streamChanges = (name, before, now) =>
  PARTS.map((part) => [`${name}.${part}`, partOf(before, part), partOf(now, part)])
    .filter(([, was, is]) => String(was) !== String(is));

/** What changes of a word. */
function wordChanges(address, before, now) {
  return ["value", "tags"].map((part, i) => [`[${address}].${part}`, before[i], now[i]])
    .filter(([, was, is]) => was !== is);
}

/** The step of a stream in a state, in the form of the steps of a run (sentences.js). */
function stepOf(w, k) {
  const [o, ...ref] = recordOf(w, k);
  const to = leads[k][w];
  const others = [...names.keys()].filter((other) => other !== k);
  const changing = [k, ...others].filter((other) => held[other][w] !== held[other][to]);
  const ch = changing.flatMap((other) => streamChanges(names[other], content(w, other), content(to, other)));
  const [p] = names[k].split(".");
  const [was, is] = [w, to].map((state) => shared(state).places[p][1]);
  if (was !== is) ch.push([`${p}.sres`, was, is]);
  if (ref.length) ch.push(...wordChanges(ref[3], wordAt(w, ref[3]), wordAt(to, ref[3])));
  return { who: names[k], pc: content(w, k).pc, o, ref: ref.length ? ref : undefined, ch };
}

/** The parts of what a stream's step does: each a list of texts and nodes. */
function effectParts(w, k) {
  const step = stepOf(w, k);
  return sentenceParts(step, step.ref ? wordAt(leads[k][w], step.ref[3]) : []);
}

/** For which state a blocked request waits: the word is in the other one. */
const wantedOf = (w, word) => (isFull(wordAt(w, word)[1]) ? "empty" : "full");

/** What a blocked stream waits for at step n of the way, and who made it so on the way here. */
function waitParts(record, n, isShort) {
  const word = record[4];
  const wanted = wantedOf(stateAt(n), word);
  const made = turnedIn(word, n);
  const turned = wanted === "full" ? "emptied" : "filled";
  const start = `waits for ${isShort ? wordName(word) : fullName(word)} to be ${wanted}`;
  if (isShort) return [start];
  const since = begunSteps ? "where your way begins" : "since the start";
  if (!made) return [`${start}, and it is ${wanted === "full" ? "empty" : "full"} ${since}`];
  return [`${start}; ${names[way[made - 1][0]]} ${turned} it in step ${made}`];
}

const isBlocked = (w, k) => runs(w, k) && /^blocked/.test(recordOf(w, k)[0]);

/** A blocked or done step that leads nowhere: nothing that anybody sees changes. */
const leadsNowhere = (w, k) => leads[k][w] === w;
"#;
