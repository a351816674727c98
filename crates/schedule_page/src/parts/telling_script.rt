//! A text of the page: `page/play/telling.js`. Made by `page/embed.py`.

pub(crate) const TEXT: &str =
    r#"// ---------------------------------------------------------------- telling what happened

function outOfReach(n) {
  const lost = lostIn(n);
  if (!isAheadShown() || !lost.length) return [];
  const left = endsAhead(stateAt(n));
  const isRight = (e) => data.ends[e].right;
  const isLost = lost.some(isRight) && !left.some(isRight);
  const gone = endsText(lost, theLabel);
  const rest = left.length === 1 ? `: only ${theLabel(left[0])} can come.` : ".";
  const text = `From here ${gone} can’t be reached any more${rest}`;
  return [" ", html("b", { class: isLost ? "lost" : "" }, isLost ? "Point of no return. " : ""), text];
}

function tell() {
  const n = view.at;
  if (view.told) {
    const told = view.told;
    view.told = null;
    return byId("told").replaceChildren(...told);
  }
  if (n === 0) {
    const begun = data.begin ? " The first steps were given: your way begins after them." : " No stream has stepped.";
    return byId("told").replaceChildren(html("b", {}, "The start."), begun, ...unkeptParts(n),
      " Choose a stream below.");
  }
  const [k] = way[n - 1];
  const before = stateAt(n - 1);
  const { pc } = content(before, k);
  byId("told").replaceChildren(...votedParts(), `Step ${n}: `, html("b", {}, names[k]), " at ",
    html("b", {}, placeOf(pc)), " ", code(cut(statement(pc), 90)), ": ", ...joined(effectParts(before, k)), ".",
    ...foundIn(n).flatMap((finding) => [" ", ...findingParts(finding)]), ...outOfReach(n), ...unkeptParts(n));
}

const button = (text, act) => {
  const node = html("button", { type: "button" }, text);
  node.addEventListener("click", act);
  return node;
};
const stepButton = (n) => {
  const node = html("button", { type: "button", class: "link" }, `step ${n}`);
  node.addEventListener("click", () => goTo(n));
  return node;
};

function resultTitle(e) {
  const end = data.ends[e];
  const values = endWords(end, fullName);
  const text = values.length ? `: ${and(values)}` : "";
  if (end.kind === "deadlock") return `Deadlock: ${waitersText(end)}${alsoStopped(end)}`;
  const stopped = and(end.stopped.map(([who, trap]) => `${who} (${trapName(trap)})`));
  if (end.kind === "stopped") return `Stopped by a trap: ${stopped}`;
  if (end.kind === "broken") return `A claim does not hold here: ${end.text}`;
  if (end.kind === "spinning") return `It runs forever from here: no schedule ends it${alsoStopped(end)}`;
  const judged = end.right === null ? "" : end.right ? ", and right" : ", but wrong";
  if (end.kind === "waiting") return `Waiting${judged}: ${waitersText(end)}${alsoStopped(end)}`;
  if (end.kind === "looping") return `It runs forever, as it may${judged}${alsoStopped(end)}`;
  return `Finished${judged}${text}`;
}

const quote = (text) => `“${text}”`;
const unjudgedText = () => and(data.unjudged.map(quote));
const expectedText = () =>
  and([...data.expected.map(quote), ...data.unjudged.map((text) => `${quote(text)} (not judged on this page)`)]);

/** The steps of an end's schedule, as names. */
function scheduleSteps(text) {
  return text.trim().split("\n").filter(Boolean).flatMap((line) => {
    const [p, s, n] = line.split(" ").map(Number);
    return Array(n).fill(`${p}.${s}`);
  });
}

function goalLine(e) {
  if (view.waiter !== null) return [html("li", { class: "won" }, `Your goal is another: ${waitingText(view.waiter)}.`)];
  if (view.goal === null) return [];
  if (!view.shown) keepReached(e, view.at);
  const fewest = data.ends[view.goal].shortest;
  if (e !== view.goal) return [html("li", { class: "won" }, `Your goal is another: ${goalText(view.goal)}.`)];
  if (view.shown) return [html("li", {}, "This was shown to you. Now find a way yourself: start again.")];
  const helped = view.hints ? `, with ${count(view.hints, "hint", "hints")}` : "";
  const how = view.at === fewest ? `the fewest that any schedule${begins} needs` : `the fewest are ${fewest}`;
  const best = won.get(e);
  if (!view.hints && (best === undefined || view.at < best)) won.set(e, view.at);
  return [html("li", { class: "won" }, `${steps(view.at)}, ${how}${helped}.`)];
}

function resultLines(e) {
  const end = data.ends[e];
  const lines = goalLine(e);
  if (end.missed) lines.push(html("li", {}, "Expected: ", code(end.missed), "."));
  if (end.right && data.unjudged.length) lines.push(html("li", {}, `This page does not judge ${unjudgedText()}.`));
  lines.push(...brokenLines(here(), e));
  if (isStill(end)) {
    names.forEach((name, k) => {
      if (runs(here(), k)) lines.push(html("li", {}, html("b", {}, name), " ",
        ...waitParts(recordOf(here(), k), view.at), "."));
    });
  }
  const n = pointOfNoReturn();
  if (n) {
    const { pc } = content(stateAt(n - 1), way[n - 1][0]);
    lines.push(html("li", {}, html("b", { class: "lost" }, "Point of no return: "), stepButton(n),
      ` (${names[way[n - 1][0]]} `,
      code(cut(statement(pc), 60)), `). Before it ${rightEnds.length > 1 ? "a right end" : label(rightEnds[0])} could `
      + "still come, after it no schedule leads there."));
  }
  const own = way.slice(0, view.at).map(([k]) => names[k]).join();
  const found = foundTo(view.at);
  lines.push(...found.slice(0, FOUND_SHOWN).map((finding) => html("li", {}, ...findingParts(finding))));
  const isTold = found.length > 0 || scheduleSteps(end.schedule).join() === own;
  if (!found.length) lines.push(...shortestFindings(end, isTold));
  return [lines, isTold, n];
}
const FOUND_SHOWN = 3;

/** What was found in the shortest schedule to an end; `isOwn` where that is the way here. */
function shortestFindings(end, isOwn) {
  return end.findings.slice(0, FOUND_SHOWN).map((finding) => {
    const [kind, ...rest] = finding.replace(/\s{2,}.*$/, "").split(": ");
    const counted = begunSteps ? ` These steps count from the program’s start, ${steps(begunSteps)} before yours.`
      : "";
    const how = isOwn ? "" : `By a shortest schedule${begins} to this end: `;
    return html("li", {}, how, html("b", { class: "lost" }, kind), `: ${rest.join(": ")}.${counted}`);
  });
}

let hadFocus = false; // whether the focus is on a button of the result, which is made anew

/** Shows that the stream waits forever that is to wait. */
function showWaiting(box) {
  box.className = "reached";
  return box.replaceChildren(html("span", { class: "sign reached", "aria-hidden": "true" }, "★"),
    html("h2", {}, `Goal reached: ${names[view.waiter]} waits forever`), html("ul", {}, ...waitingLines(view.waiter)),
    html("div", { class: "actions" }, button("Start again", () => goTo(0))));
}

function showResult() {
  const e = endHere();
  const box = byId("result");
  const isWaiting = roundHere(view.waiter) !== null;
  hadFocus = box.contains(document.activeElement);
  box.hidden = e === undefined && !isWaiting;
  if (isWaiting) return showWaiting(box);
  if (e === undefined) return box.replaceChildren();
  const [lines, isTold, n] = resultLines(e);
  const actions = [button("Start again", () => goTo(0))];
  if (n) actions.unshift(button(`Back to before step ${n}`, () => goTo(n - 1)));
  if (!isTold && data.ends[e].findings.length) actions.push(button("Show that schedule", () => showSchedule(e)));
  const isWon = e === view.goal && !view.shown;
  if (isWon) lines.splice(1, 0, html("li", {}, signOf(e), ` ${resultTitle(e)}.`));
  const next = goalOrder[goalOrder.indexOf(view.goal) + 1];
  if (isWon && next !== undefined) actions.push(button(`Next goal: ${goalText(next)}`, () => setGoal(next)));
  box.className = isWon ? "reached" : kinds[e];
  const sign = isWon ? html("span", { class: "sign reached", "aria-hidden": "true" }, "★") : signOf(e);
  return box.replaceChildren(sign, html("h2", {}, isWon ? `Goal reached: ${wonText(e)}` : resultTitle(e)),
    html("ul", {}, ...lines), html("div", { class: "actions" }, ...actions));
}
"#;
