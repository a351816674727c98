//! A text of the page: `page/play/waiting.js`. Made by `page/embed.py`.

pub(crate) const TEXT: &str =
    r#"// ---------------------------------------------------------------- the round that the last steps of the way are

/** What the last steps of the way say of each stream: whether it ran in each state, could complete a step in one,
  completed one, and had one, or could have one that changes nothing. */
class RoundSoFar {
  constructor() {
    this.streams = names.map(() => ({ runs: true, isAble: false, completes: false, steps: false }));
  }

  /** Adds a state of it. */
  addState(w) {
    this.streams.forEach((one, k) => {
      if (!runs(w, k)) return void (one.runs = false);
      const [isAble, isIdle] = [canComplete(w, k), leadsNowhere(w, k)];
      one.isAble ||= isAble;
      one.completes ||= isAble && isIdle;
      one.steps ||= isIdle;
    });
  }

  /** Adds a step from a state. */
  addStep(w, k) {
    this.streams[k].steps = true;
    this.streams[k].completes ||= canComplete(w, k);
  }

  /** Whether it is fair by words, and some stream goes on in it. */
  isFair() {
    const isEach = this.streams.every((one) => (!one.isAble || one.completes) && (!one.runs || one.steps));
    return isEach && this.streams.some((one) => one.completes);
  }
}

/** The fair round that the last steps of the way are, if a stream is blocked in all of its states: after how many steps
  it begins, and who goes on in it. Of several it is the shortest; null if they are none. */
function roundHere(k) {
  const w = here();
  if (k === null || !isBlocked(w, k)) return null;
  const round = new RoundSoFar();
  round.addState(w);
  let from = view.at; // a round of steps that change nothing has none of the way
  while (!(stateAt(from) === w && round.isFair())) {
    from--;
    if (from < 0 || !isBlocked(stateAt(from), k)) return null;
    round.addState(stateAt(from));
    round.addStep(stateAt(from), way[from][0]);
  }
  return { from, going: names.filter((_, one) => round.streams[one].completes) };
}

// ---------------------------------------------------------------- hints to such a round

/** The streams of a shortest way from a state to the first that `isEnd` holds of, by steps that stay in a set. */
function wayWithin(set, w, isEnd) {
  const from = new Map([[w, null]]);
  for (const v of from.keys()) {
    if (isEnd(v)) {
      const streams = [];
      for (let at = v; from.get(at); at = from.get(at)[0]) streams.unshift(from.get(at)[1]);
      return streams;
    }
    for (const k of ableIn(v)) {
      const to = leads[k][v];
      if (set.has(to) && !from.has(to)) from.set(to, [v, k]);
    }
  }
  return [];
}

/** Since when the way stays in a set, and which streams still have to complete a step in it. */
function stayIn(set) {
  const round = new RoundSoFar();
  round.addState(here());
  let from = view.at;
  for (; from > 0 && set.has(stateAt(from - 1)); from--) {
    round.addState(stateAt(from - 1));
    round.addStep(stateAt(from - 1), way[from - 1][0]);
  }
  const isStep = (w, k) => canComplete(w, k) && set.has(leads[k][w]);
  const needed = names.map((_, k) => k)
    .filter((k) => !round.streams[k].completes && [...set].some((w) => isStep(w, k)));
  return { from, needed, isStep };
}

/** Whose step leads on to a round, and why. */
function waitingHint({ k, sets, left }) {
  const w = here();
  const set = sets.find((one) => one.has(w));
  const who = names[k];
  if (!set) {
    const next = ableIn(w).find((one) => left[leads[one][w]] === left[w] - 1);
    return [next, ` From a state that is ${steps(left[w])} away ${who} can be left waiting.`];
  }
  const { from, needed, isStep } = stayIn(set);
  if (needed.length) {
    const streams = wayWithin(set, w, (v) => needed.some((one) => isStep(v, one)));
    const end = streams.reduce((v, one) => leads[one][v], w);
    const late = needed.find((one) => isStep(end, one));
    return [streams[0] ?? late, ` ${names[late]} could go on: it has to complete a step before the way comes back.`];
  }
  const back = wayWithin(set, w, (v) => v === stateAt(from));
  const leadBack = `${steps(back.length)} lead${back.length === 1 ? "s" : ""} back`;
  return [back[0], ` ${leadBack} to where you were after ${steps(from)}.`];
}

function hintOfWaiter() {
  const one = waiterOf(view.waiter);
  if (roundHere(one.k)) return say([html("b", {}, "You are there.")]);
  view.hints++;
  if (one.left[here()] < 0) {
    let n = view.at;
    while (one.left[stateAt(n)] < 0) n--;
    return say([html("b", {}, "Hint: "), `from here no schedule leaves ${names[one.k]} waiting forever. Undo ${
      steps(view.at - n)}.`]);
  }
  const [next, why] = waitingHint(one);
  if (next === undefined) return say([html("b", {}, "Hint: "), "go around once more."]);
  view.hinted = next;
  return say([html("b", {}, "Hint: "), `take a step of ${names[next]}.${why}`]);
}

// ---------------------------------------------------------------- what is said of such a goal

const waitingText = (k) => `make ${names[k]} wait forever`;
const waitingRule = (k) => ` Come back to a state in which you were before. All the way around ${names[k]} has to be `
  + "blocked, and each stream that could complete a step has to complete one. ";

/** What is said where the last steps of the way leave the stream waiting forever. */
function waitingLines(k) {
  const { from, going } = roundHere(k);
  const streams = way.slice(from, view.at).map(([one]) => one);
  const helped = view.hints ? `, with ${count(view.hints, "hint", "hints")}` : "";
  const best = won.get(waitingText(k));
  if (!view.hints && (best === undefined || view.at < best)) won.set(waitingText(k), view.at);
  const again = !streams.length ? `A step of ${and(going)} leads back to this very state.`
    : `The last ${steps(streams.length)} can be taken again and again: ${cut(namesOf(streams), SKIPPED_SHOWN)}. `
      + `They lead back to the state after ${steps(from)}.`;
  return [html("li", { class: "won" }, `${steps(view.at)}${helped}.`),
    html("li", {}, again),
    html("li", {}, `All that time ${names[k]} is blocked at ${placeOf(content(here(), k).pc)}, also at each step of `
      + `its own. ${and(going)} complete${going.length === 1 ? "s" : ""} steps: no stream that could go on is left out.`)];
}
"#;
