//! A text of the page: `page/play/why.js`. Made by `page/embed.py`.

pub(crate) const TEXT: &str =
    r#"// ---------------------------------------------------------------- why a step is a good one, by the graph alone

const canStep = (w, k) => runs(w, k) && !leadsNowhere(w, k);
const ableIn = (w) => names.map((_, k) => k).filter((k) => canStep(w, k));

/** Whether a stream's step from a state is done: no try that is blocked, and no trap. */
const isDone = (w, k) => canStep(w, k) && recordOf(w, k)[0] === "done";

/** The streams whose step from a state puts an end out of reach that can still come. */
const losing = (w, e) => ableIn(w).filter((k) => toGo[e][leads[k][w]] < 0);

/** Whether some way from state w to end e has a step that `meets` names, and none before it that `bars` names. */
function someWay(w, e, bars, meets) {
  const seen = new Uint8Array(N);
  const queue = [w];
  seen[w] = 1;
  for (let i = 0; i < queue.length; i++) {
    const v = queue[i];
    for (const k of toGo[e][v] === 0 ? [] : ableIn(v)) {
      const to = leads[k][v];
      if (toGo[e][to] < 0) continue;
      const { pc } = content(v, k);
      if (isDone(v, k) && bars(k, pc)) continue;
      if (isDone(v, k) && meets(k, pc)) return true;
      if (!seen[to]) queue.push(to);
      seen[to] = 1;
    }
  }
  return false;
}

const VERBS = { LOAD: ["read", "reads"], STORE: ["store", "stores"], FADD: ["add", "adds"] };
const verbs = (pc) => VERBS[mnemonic(pc).split(".")[0]] ?? ["step", "steps"];
const STATEMENT_LETTERS = 50;
const stepName = (pc) => `${cut(statement(pc), STATEMENT_LETTERS)} at ${placeOf(pc)}`;

/** The steps of a way from a state, each as [state before it, stream]. */
function stepsFrom(w, streams) {
  let v = w;
  return streams.map((k) => {
    const step = [v, k];
    v = leads[k][v];
    return step;
  });
}

/** What has to come before what on each way from state w to end e: by the first state of a shortest way where a step of
  stream j puts the end out of reach. None where the graph does not show it. */
function orderParts(w, e) {
  const way = stepsFrom(w, shortestWay(w, e));
  const at = way.findIndex(([v, k]) => losing(v, e).some((j) => j !== k && isDone(v, j)));
  if (at < 0) return [];
  const [v, next] = way[at];
  for (const j of losing(v, e).filter((one) => one !== next && isDone(v, one))) {
    const { pc: q } = content(v, j);
    const isLate = (k, pc) => k === j && pc === q;
    if (!someWay(w, e, () => false, isLate)) return neverParts([j, q]);
    const others = way.slice(at).reverse().filter(([u, i]) => i !== j && isDone(u, i));
    const first = others.map(([u, i]) => [i, content(u, i).pc])
      .find(([i, p]) => !someWay(w, e, (k, pc) => k === i && pc === p, isLate));
    if (first) return firstParts(first, [j, q]);
  }
  return [];
}

const neverParts = ([k, pc]) =>
  [` On no way to your goal does ${names[k]} ${verbs(pc)[0]} (`, code(stepName(pc)), ")."];
const firstParts = ([i, p], [j, q]) => [` ${names[i]} has to ${verbs(p)[0]} (`, code(stepName(p)),
  `) before ${names[j]} ${verbs(q)[1]} (`, code(stepName(q)), ")."];

/** Why a hint names a stream. */
function whyParts(w, e, k) {
  const others = ableIn(w).filter((other) => other !== k);
  const lost = losing(w, e).filter((other) => other !== k);
  const now = !others.length ? " No step of another stream changes anything here."
    : lost.length ? ` A step of ${lost.map((one) => names[one]).join(" or ")} now would put it out of reach.`
      : " Each choice here keeps it in reach.";
  return [now, ...orderParts(w, e)];
}

// ---------------------------------------------------------------- where no choice changes what can come

/** Whether each step from a state leaves all ends in reach that could come. */
const isQuiet = (w) => !endIn.has(w) && ableIn(w).length > 0
  && ableIn(w).every((k) => aheadOf[leads[k][w]] === aheadOf[w]);

let skipKnown = [-1, []]; // a state, and the way from it that follows

/** The streams of a shortest way from a state to one where a step changes what can still come, or that is an end. Each
  step of it leaves all ends in reach; none where it begins with a choice, or comes to none. */
function quietWay(w) {
  if (skipKnown[0] !== w) skipKnown = [w, isQuiet(w) ? findQuietWay(w) : []];
  return skipKnown[1];
}

function findQuietWay(w) {
  const from = new Map([[w, null]]);
  for (const v of from.keys()) {
    if (!isQuiet(v)) {
      const way = [];
      for (let at = v; from.get(at); at = from.get(at)[0]) way.unshift(from.get(at)[1]);
      return way;
    }
    for (const k of ableIn(v)) if (!from.has(leads[k][v])) from.set(leads[k][v], [v, k]);
  }
  return [];
}

const namesOf = (way) => way.map((k) => names[k]).join(", ");
const SKIPPED_SHOWN = 120; // letters

function skip() {
  if (!isAheadShown() || !quietWay(here()).length) return;
  const streams = quietWay(here());
  extend(view.at, streams);
  goTo(way.length);
  const [what, theirs] = streams.length === 1 ? ["step is", "it changes"] : ["steps are", "they change"];
  say([html("b", {}, `${steps(streams.length).replace(/ .*/, "")} ${what} taken:`),
    ` ${cut(namesOf(streams), SKIPPED_SHOWN)}. ${upper(theirs)} nothing of what can still come.`]);
}

/** The button that skips, where no choice changes what can come. If it goes, what follows in the page has the focus. */
function showSkip() {
  const streams = isAheadShown() ? quietWay(here()) : [];
  const hadButton = document.activeElement === byId("skip-on");
  byId("skipping").hidden = !streams.length;
  if (!streams.length && hadButton) (choiceNodes.find((node) => !node.hidden) ?? byId("undo")).focus();
  if (!streams.length) return;
  const e = endIn.get(streams.reduce((w, k) => leads[k][w], here()));
  const where = e === undefined ? "next choice" : kinds[e] === "broken" ? "broken claim" : "end";
  byId("quiet").textContent = "No choice here changes what can still come.";
  byId("skip-on").textContent = `Skip to the ${where}: ${steps(streams.length)}`;
}
"#;
