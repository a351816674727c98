//! A text of the page: `page/end.js`. Made by `page/embed.py`.

pub(crate) const TEXT: &str =
    r#"// ---------------------------------------------------------------- the end in words

const FINDINGS_SHOWN = 5;
const WAITS_SHOWN = 8;
const GROUP_LEAST = 4; // of streams at one word that are told together
const CIRCLE_LEAST = 2;
const CIRCLE_MOST = 12;
const ROWS_MOST = 6; // of waits that are drawn without a circle

/** Who can't go on unless another one does. */
const stuckAtEnd = () => run.end.waiting.map((wait) => wait.stream).filter((id) => !atEnd.able.has(id));
const begunAtEnd = () => run.end.able.filter((id) => !run.end.fresh.includes(id));
/** Whether each stream that runs may wait where it stands, as lines of the expectations say: then it is no deadlock. */
const mayWait = () => run.may_wait === true;
const isDeadlock = () => run.end.kind === "deadlock" && !mayWait();
/** Whether nobody who has begun can go on. No deadlock, as long as one that has not begun could free another. */
const isHeldUp = () => stuckAtEnd().length > 0 && begunAtEnd().length === 0;

/** `", with a lost update and a torn read"`, or nothing. */
function foundText() {
  const texts = ["lost", "torn"].flatMap((kind) => {
    const count = run.findings.filter((finding) => finding.kind === kind).length;
    return count ? [times(count, FINDINGS[kind].one, FINDINGS[kind].many)] : [];
  });
  return texts.length ? `, with ${and(texts)}` : "";
}

/** A circle of a deadlock, or no stream. */
const circleAtEnd = () => (isDeadlock() && run.end.circle.length >= CIRCLE_LEAST ? run.end.circle : []);

/** Those of the stuck streams that are in no circle, and wait for one of it, or for one who does. */
function waitersFor(circle) {
  const found = new Set(circle);
  const isNext = (id) => !found.has(id) && found.has(atEnd.waiting.get(id).by);
  for (let next; (next = stuckAtEnd().find(isNext)); ) found.add(next);
  return stuckAtEnd().filter((id) => found.has(id) && !circle.includes(id));
}

const waitOrWaits = (ids) => `wait${ids.length > 1 ? "" : "s"}`;
/** That streams wait as they may: as expected, if all else is so too. */
const asTheyMay = (ids) => (run.expected ? "as expected" : `as ${ids.length > 1 ? "they" : "it"} may`);

/** Who else waits at a deadlock with a circle: for a stream of it, or for something else. */
function waitsBeside(circle) {
  const forThem = waitersFor(circle);
  const apart = stuckAtEnd().filter((id) => !circle.includes(id) && !forThem.includes(id));
  const texts = [];
  if (forThem.length) texts.push(`, and ${andMore(forThem)} ${waitOrWaits(forThem)} for them`);
  if (apart.length) texts.push(`; ${andMore(apart)} ${waitOrWaits(apart)} for something else`);
  return texts.join("");
}

/** Who waits for whom, in the fewest words. */
function waitsTitle() {
  const circle = circleAtEnd();
  if (circle.length) return `Deadlock: ${andMore(circle)} wait for each other in a circle${waitsBeside(circle)}`;
  const waits = `${andMore(stuckAtEnd())} ${waitOrWaits(stuckAtEnd())}`;
  if (mayWait()) return `${waits} forever, ${asTheyMay(stuckAtEnd())}`;
  return isDeadlock() ? `Deadlock: ${waits} forever` : `${waits}, and no stream that has begun can go on`;
}

/** The streams that a trap stopped, after what else is said of the end. */
const trappedText = () =>
  (run.end.stopped.length ? `; a trap stopped ${andMore(run.end.stopped.map((one) => one.stream))}` : "");

/** The end in a line: its sign, and why the run ended so. An end that is as expected has no sign of a fault. */
function endTitle() {
  const [kind, title] = titleOfEnd();
  if (run.expected === undefined) return [kind, title];
  return [run.expected ? "finished" : kind === "deadlock" ? kind : "bad", title];
}

function titleOfEnd() {
  const { kind, stopped, quit } = run.end;
  const n = times(steps.length, "1 step", "steps");
  const found = foundText();
  if (isHeldUp()) return [isDeadlock() ? "deadlock" : found ? "bad" : "steps", waitsTitle() + trappedText() + found];
  if (stopped.length && (kind === "stopped" || begunAtEnd().length === 0)) {
    return ["bad", `Stopped by a trap: ${andMore(stopped.map((one) => one.stream))}${found}`];
  }
  if (kind === "finished") return [found ? "bad" : "finished", `Finished after ${n}${found}`];
  if (begunAtEnd().length === 0 && quit.length) {
    return [found ? "bad" : "finished", `All who began have quit after ${n}${found}`];
  }
  return [found ? "bad" : "steps", `The schedule ends after ${n}, before the program does${trappedText()}${found}`];
}

const has = (names) => (names.length > 1 ? "have" : "has");

/** Who has quit, could go on, or has not begun. */
function restText() {
  const { quit, fresh, able } = run.end;
  const begun = begunAtEnd();
  const parts = [];
  if (quit.length) parts.push(`${andMore(quit)} ${has(quit)} quit`);
  if (begun.length) parts.push(`${andMore(begun)} can go on`);
  if (fresh.length) parts.push(`${andMore(fresh)} ${has(fresh)} not begun`);
  if (!parts.length) return [];
  const only = isHeldUp() && able.length;
  const who = able.length > 1 ? "theirs" : able[0];
  return [[`${parts.join("; ")}.${only ? ` Only a step of ${who} could still free one that waits.` : ""}`]];
}

function stoppedText({ stream, trap, address }) {
  const n = stepsOf.get(stream)?.find((one) => sign(steps[one - 1]) === "stopped");
  const where = n ? [` at ${placeOf(steps[n - 1].pc)} in `, stepLink(n)] : [];
  return [html("b", {}, stream), " stopped", ...where, `, address ${number(address)}: ${TRAPS[trap]}.`];
}

/** Who waits for what: one by one, but for many at one word. */
function waitItems(waiting) {
  const groups = new Map();
  for (const wait of waiting) listIn(groups, `${wait.word} ${wait.for} ${wait.made}`).push(wait);
  return [...groups.values()].flatMap((group) => {
    const [first] = group;
    const told = (wait) => [html("b", {}, wait.stream), " ", ...waitText(wait, steps.length, wait.since), "."];
    if (group.length < GROUP_LEAST) return group.map(told);
    const [, ...rest] = waitText({ ...first, stream: null }, steps.length);
    return [[html("b", {}, andMore(group.map((wait) => wait.stream))), " wait ", ...rest, "."]];
  });
}

/** Whether the end is as expected, where something was. */
function judgedItems() {
  if (run.expected === undefined) return [];
  if (run.expected) return [["As expected."]];
  return [[html("b", { class: "lost" }, "Not as expected"), run.missed ? `: ${run.missed}.` : "."]];
}

function endItems() {
  const { waiting, stopped } = run.end;
  const items = [...judgedItems(), ...roundItems()];
  const found = run.findings.slice(0, FINDINGS_SHOWN).map((finding) => findingText(finding, false));
  items.push(...found);
  const more = run.findings.length - FINDINGS_SHOWN;
  if (more > 0) items.push([`.. and ${times(more, "one more finding", "more findings")}.`]);
  const waits = waitItems(waiting);
  items.push(...waits.slice(0, WAITS_SHOWN));
  const others = waits.length - WAITS_SHOWN;
  if (others > 0) items.push([`.. and ${times(others, "one more waits", "more wait")}.`]);
  return [...items, ...stopped.map(stoppedText), ...restText()];
}

/** The picture of who waits for whom: a circle where there is one, else a row for each whose word a step has turned. */
function endPicture() {
  if (!isHeldUp()) return [];
  const { waiting } = run.end;
  const circle = circleAtEnd();
  if (circle.length) return circle.length <= CIRCLE_MOST ? [drawCircle(circle, waiting)] : [];
  const rows = waiting.filter((wait) => stuckAtEnd().includes(wait.stream) && wait.by !== null);
  return rows.length && rows.length <= ROWS_MOST ? [drawWaitRows(rows)] : [];
}

/** The end's title, a heading of some kind, and the rest of it as a list. */
function endWords(heading) {
  const [kind, title] = endTitle();
  const list = html("ul", {}, ...endItems().map((item) => html("li", {}, ...item)));
  return [html(heading, { class: kind }, title), list];
}
"#;
