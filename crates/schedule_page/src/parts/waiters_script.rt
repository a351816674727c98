//! A text of the page: `page/play/waiters.js`. Made by `page/embed.py`.

pub(crate) const TEXT: &str =
    r#"// ---------------------------------------------------------------- who can wait forever, while others go on

// A round is fair by words if each stream that runs in all of its states has a step in it, and each that could complete
// its step in one of them completes one (docs/LAB_REFERENCE.md, "Waiting forever"). A blocked step that changes nothing
// is never taken here: it can be put into a round at any state where the stream is blocked.

const MOST_LOOKS = 20_000_000; // at a step of a state, in all: if there were more, no such goal is offered
const WAITERS = 4; // so many streams are offered

const canComplete = (w, k) => runs(w, k) && !isBlocked(w, k);

/** What each stream does in each state: whether it runs, and whether its step is not blocked. */
function knownSteps() {
  const outcomes = data.does.map((row) => (Array.isArray(row)
    ? new Map(Array.from({ length: row.length / 2 }, (_, i) => [row[2 * i], row[2 * i + 1]])) : row));
  const isBlockedStep = data.steps.map(([outcome]) => outcome.startsWith("blocked"));
  const isRunning = data.contents.map((one) => one.status === "running");
  return names.map((_, k) => {
    const [running, able] = [new Uint8Array(N), new Uint8Array(N)];
    for (let w = 0; w < N; w++) {
      const at = held[k][w];
      if (!isRunning[at]) continue;
      const step = outcomes[at] instanceof Map ? outcomes[at].get(sharedOf[w]) : outcomes[at];
      running[w] = 1;
      if (!isBlockedStep[step]) able[w] = 1;
    }
    return { running, able };
  });
}

/** The sets of some states in which steps lead from each state to each other one and stay in the set, by Tarjan. */
function connectedSets(states, known) {
  const [order, low, isOpen] = [new Map(states.map((w) => [w, -1])), new Map(), new Set()];
  const [open, sets] = [[], []];
  let count = 0;
  const enter = (w) => {
    order.set(w, count);
    low.set(w, count++);
    open.push(w);
    isOpen.add(w);
    return { w, next: 0 };
  };
  for (const root of states) {
    const path = order.get(root) < 0 ? [enter(root)] : [];
    while (path.length) {
      const at = path.at(-1);
      if (at.next < leads.length) {
        const k = at.next++;
        const to = known[k].running[at.w] ? leads[k][at.w] : -1;
        if (!order.has(to)) continue;
        if (order.get(to) < 0) path.push(enter(to));
        else if (isOpen.has(to)) low.set(at.w, Math.min(low.get(at.w), order.get(to)));
        continue;
      }
      path.pop();
      const above = path.at(-1)?.w;
      if (above !== undefined) low.set(above, Math.min(low.get(above), low.get(at.w)));
      if (low.get(at.w) === order.get(at.w)) sets.push(closedSet(at.w, open, isOpen));
    }
  }
  return sets;
}

/** The states that were entered from a state on, taken from the open ones. */
function closedSet(w, open, isOpen) {
  const set = open.splice(open.lastIndexOf(w));
  set.forEach((one) => isOpen.delete(one));
  return set;
}

/** Of a connected set what can hold a fair round: all of it, if it is one; else the states that are left without those
  in which a stream could complete a step that it completes nowhere in the set; none, if it has no fair round. */
function fairPart(set, known) {
  const isIn = new Set(set);
  const isStep = (w, k) => isIn.has(leads[k][w]);
  const late = [];
  let goOn = 0;
  for (const [k, { running, able }] of known.entries()) {
    const isAble = set.some((w) => able[w]);
    const isCompleted = set.some((w) => able[w] && isStep(w, k));
    if (isCompleted) goOn++;
    else if (isAble) late.push(k);
    if (set.every((w) => running[w]) && !set.some((w) => isStep(w, k))) return [];
  }
  if (!goOn) return [];
  return late.length ? set.filter((w) => late.every((k) => !known[k].able[w])) : set;
}

/** The sets of states in which a stream is blocked while a fair round goes through all of them. */
function waitingSets(k, known) {
  const { running, able } = known[k];
  const left = [Array.from({ length: N }, (_, w) => w).filter((w) => running[w] && !able[w])];
  const found = [];
  while (left.length) {
    for (const set of connectedSets(left.pop(), known)) {
      const part = fairPart(set, known);
      if (part.length === set.length) found.push(set);
      else if (part.length) left.push(part);
    }
  }
  return found;
}

/** Of each state the fewest steps to one of some states, -1 if none leads there. */
function stepsTo(states) {
  const out = new Int32Array(N).fill(-1);
  const before = Array.from({ length: N }, () => []);
  for (const to of leads) for (let w = 0; w < N; w++) if (to[w] !== w) before[to[w]].push(w);
  states.forEach((w) => (out[w] = 0));
  const queue = [...states];
  for (let i = 0; i < queue.length; i++) {
    for (const w of before[queue[i]]) if (out[w] < 0) queue.push(w), out[w] = out[queue[i]] + 1;
  }
  return out;
}

/** The streams that can wait forever while others go on: of each its number, its sets, and the steps to one of them. */
function findWaiters() {
  if (N * names.length ** 2 > MOST_LOOKS) return [];
  const known = knownSteps();
  return names.flatMap((_, k) => {
    const sets = waitingSets(k, known);
    return sets.length ? [{ k, sets: sets.map((set) => new Set(set)), left: stepsTo(sets.flat()) }] : [];
  });
}
const waiters = findWaiters();
const waiterOf = (k) => waiters.find((one) => one.k === k);
"#;
