//! A text of the page: `page/play/findings.js`. Made by `page/embed.py`.

pub(crate) const TEXT: &str =
    r#"// ---------------------------------------------------------------- findings of the way, by docs/LAB_REFERENCE.md

const SOUGHT = 1000; // steps of a way in which findings are looked for
const isSought = !data.begin; // what was read in the first steps that were given is not known
let known = []; // of each step from 0 what it did, with the last write of its word before it, and what was found in it

const lastBefore = (n, test) => {
  let m = n - 1;
  while (m >= 0 && !test(known[m])) m--;
  return m;
};
const anyBetween = (low, high, test) => {
  for (let m = low + 1; m < high; m++) if (test(known[m])) return true;
  return false;
};

/** Whether a step brings its stream news of what another wrote after step low. */
const bringsNews = (step, low) => isHeard(step) && step.lastWrite > low && known[step.lastWrite].k !== step.k;

/** Whether a step of the stream between steps m and n meets a or b, or brings it news since the first of the two. */
function areParted(meets, k, a, b, m, n) {
  const low = Math.min(m, n);
  return anyBetween(low, Math.max(m, n), (step) => step.k === k
    && (meets(step, a) || meets(step, b) || bringsNews(step, low)));
}
const neverMet = () => false;

/** The marks of a stream before step n of what its step r read. */
function marksBefore(k, r, n) {
  let marks = marksAfter(NO_MARKS, known[r], true);
  for (let m = r + 1; m < n; m++) if (known[m].k === k) marks = marksAfter(marks, known[m], false);
  return marks;
}

function lostUpdate(n) {
  const step = known[n];
  if (!wasFullStore(step)) return null;
  const over = lastBefore(n, (one) => writes(one, step.word) || (one.k === step.k && reads(one, step.word)));
  if (over < 0 || known[over].k === step.k) return null;
  for (let read = over - 1; read >= 0; read--) {
    if (known[read].k !== step.k || !reads(known[read], step.word)) continue;
    const marks = marksBefore(step.k, read, n);
    if (!marked(marks.registers, step.flow?.stored ?? 0)) continue;
    return { kind: "lost", word: step.word, read, over, stored: n };
  }
  return null;
}

function unreadStore(n) {
  const step = known[n];
  if (step.operation !== "STORE") return null;
  const over = lastBefore(n, (one) => writes(one, step.word) || reads(one, step.word));
  const other = known[over];
  if (!other || other.k === step.k || other.operation !== "STORE" || other.after === step.after) return null;
  return { kind: "unread", word: step.word, over, stored: n };
}

/** Whether words a and b held, at one moment from step i to step j, what a was in the first and b in the second. */
function wereAtOnce(a, b, i, j) {
  const [v, w] = [known[i].before, known[j].before];
  let [x, y] = [v, known.slice(i).find((step) => step.word === b).before];
  for (let m = i; m < j; m++) {
    if (x === v && y === w) return true;
    if (known[m].word === a) x = known[m].after;
    if (known[m].word === b) y = known[m].after;
  }
  return x === v && y === w;
}

/** Whether the stream computes something, in a step up to n, from what it read in steps i and j. */
function computesFromBoth(k, i, j, n) {
  let [one, other] = [marksBefore(k, i, j + 1), marksBefore(k, j, j + 1)];
  for (let m = j + 1; m <= n; m++) {
    const step = known[m];
    if (step.k !== k) continue;
    if (step.flow?.operands && mixed(one, step.flow) && mixed(other, step.flow)) return true;
    [one, other] = [marksAfter(one, step, false), marksAfter(other, step, false)];
  }
  return false;
}

/** The reads of word a, changed in step k, with which a glimpse of the other word makes a pair. */
function pairsOf({ reader, writer, fresh, freshRead: j, freshWrite: l }, k) {
  const a = known[k].word;
  if (known[k].k !== writer || !changesValue(known[k]) || a === fresh) return [];
  if (areParted(writes, writer, a, fresh, k, l)) return [];
  const pairs = [];
  for (let i = 0; i < k; i++) {
    const step = known[i];
    if (step.k !== reader || step.operation !== "LOAD" || step.word !== a) continue;
    if (areParted(reads, reader, a, fresh, i, j)) continue;
    const isLater = l < k && lastBefore(l, (one) => one.k === writer && writes(one, a)) > i;
    const isLetGo = lastBefore(j, (one) => one.k === reader && one.isChange) > i
      && areParted(neverMet, writer, a, fresh, i, k);
    if (!isLater && !isLetGo) pairs.push({ kind: "torn", stale: a, fresh, staleRead: i, freshRead: j, staleWrite: k,
      freshWrite: l });
  }
  return pairs;
}

/** What step j sees of another stream's change. */
function glimpseOf(j) {
  const step = known[j];
  const change = known[step.lastWrite];
  if (step.operation !== "LOAD" || !change || !changesValue(change) || change.k === step.k) return null;
  return { reader: step.k, writer: change.k, fresh: step.word, freshRead: j, freshWrite: step.lastWrite };
}

/** Whether a pair is torn, by what is done up to step n: its words never held both values, or it is used as one. */
function isTorn({ stale, fresh, staleRead: i, freshRead: j, staleWrite: k }, n) {
  const [a, b, first, second] = i < j ? [stale, fresh, i, j] : [fresh, stale, j, i];
  const reader = known[j].k;
  if (Math.max(j, k) < n) return known[n].k === reader && computesFromBoth(reader, first, second, n);
  return !wereAtOnce(a, b, first, second) || computesFromBoth(reader, first, second, n);
}

/** The pairs of which step n is the last one. */
function newPairs(n) {
  const step = known[n];
  step.glimpse = glimpseOf(n);
  const pairs = [];
  for (let k = 0; step.glimpse && k < n; k++) pairs.push(...pairsOf(step.glimpse, k));
  for (let j = 0; changesValue(step) && j < n; j++) if (known[j].glimpse) pairs.push(...pairsOf(known[j].glimpse, n));
  return pairs;
}

/** Adds the next step of the way to those that are known, with what is found in it. */
function follow() {
  const n = known.length;
  const [k, to] = way[n];
  const step = { ...actionOf(stateAt(n), k, to), entry: way[n] };
  known.push(step);
  step.lastWrite = step.word === undefined ? -1 : lastBefore(n, (one) => writes(one, step.word));
  step.pairs = newPairs(n);
  const torn = known.flatMap((one) => one.pairs).filter((pair) => pair.found === undefined && isTorn(pair, n));
  for (const pair of torn) pair.found = n;
  step.found = [lostUpdate(n) ?? unreadStore(n), ...torn].filter(Boolean);
}

/** What is found in step n of the way; steps of a way that has been left are forgotten. */
function foundIn(n) {
  if (!isSought || n < 1 || n > SOUGHT) return [];
  let kept = 0;
  while (kept < known.length && kept < way.length && known[kept].entry === way[kept]) kept++;
  known = known.slice(0, kept);
  for (const { pairs } of known) for (const pair of pairs) if (pair.found >= kept) delete pair.found;
  while (known.length < n) follow();
  return known[n - 1].found;
}

/** All that is found up to step n. */
const foundTo = (n) => Array.from({ length: Math.min(n, SOUGHT) }, (_, i) => foundIn(i + 1)).flat();

// ---------------------------------------------------------------- findings in words

const FOUND = { lost: "Lost update", unread: "Unread store", torn: "Torn read" };
const nameIn = (n) => names[known[n].k];
const wroteIn = (n, verb, over) => `${nameIn(n)} ${verb} ${number(known[n].after)}${over} in step ${n + 1}`;
const pairIn = (verb, ...both) => {
  const [[a, m], [b, n]] = both.sort((one, other) => one[1] - other[1]);
  return `${nameIn(m)} ${verb} ${wordName(a)} in step ${m + 1} and ${wordName(b)} in step ${n + 1}`;
};

/** A finding as `mta_lab view` tells it, without its head. */
function findingText(finding) {
  const { kind, word, read, over, stored, stale, fresh } = finding;
  if (kind === "torn") {
    return `of ${wordName(stale)} and ${wordName(fresh)}: `
      + `${pairIn("read", [stale, finding.staleRead], [fresh, finding.freshRead])}, `
      + pairIn("changed", [stale, finding.staleWrite], [fresh, finding.freshWrite]);
  }
  const last = wroteIn(stored, "stored", " over it");
  if (kind === "unread") return `to ${wordName(word)}: ${wroteIn(over, "stored", "")}, ${last}`;
  const first = `${nameIn(read)} read ${number(known[read].before)} in step ${read + 1}`;
  return `of ${wordName(word)}: ${first}, ${wroteIn(over, "wrote", "")}, ${last}`;
}

const findingParts = (finding) => [html("b", { class: "lost" }, FOUND[finding.kind]), ` ${findingText(finding)}.`];
"#;
