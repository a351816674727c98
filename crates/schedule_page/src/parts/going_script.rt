//! A text of the page: `page/play/going.js`. Made by `page/embed.py`.

pub(crate) const TEXT: &str =
    r#"// ---------------------------------------------------------------- going

function lead() {
  const running = names.filter((_, k) => runs(0, k));
  if (view.waiter !== null) {
    return [html("b", {}, `${upper(waitingText(view.waiter))}.`), waitingRule(view.waiter),
      "You choose who takes the next step: press a button below or its number."];
  }
  if (view.goal !== null) {
    return [html("b", {}, `${upper(goalText(view.goal))}.`),
      ` Fewest steps${begunSteps ? " after those that are given" : ""}: ${data.ends[view.goal].shortest}. `
      + "You choose who takes the next step: press a button below or its number."];
  }
  const n = data.ends.length;
  const others = names.some((_, k) => !content(0, k).status) ? " and starts others" : "";
  const who = running.length === 1 ? `The stream ${running[0]} runs${others}`
    : `The streams ${and(running)} run at once`;
  const first = begunSteps === 1 ? "step of each schedule here is" : `${steps(begunSteps)} of each schedule here are`;
  const given = begunSteps ? `The first ${first} given. ` : "";
  if (!running.length) return [`${given}No stream runs any more.`];
  return [`${given}${who}, and nothing says whose instruction comes next: you do. Press a button below, or its number. `
    + `This page knows every schedule${begins || " there is"}: they lead to `
    + `${count(N, "state", "states")} and ${count(n, "end", "ends")}.${verdictText()}`];
}

/** What follows from it that every schedule ends right; no more than that, where some line is not judged or not kept. */
function rightText() {
  if (data.unjudged.length) return `, as far as this page judges. It does not judge ${unjudgedText()}.`;
  return unkeptLines.length || runsForever() ? "." : ": you can’t break it.";
}

/** What holds of all schedules of the page, and of all runs. */
const verdictText = () => endingText() + unkeptText();

/** What is expected of ends, in brackets; nothing if lines about runs are all. */
const expectedPart = () => (data.expected.length + data.unjudged.length ? ` (expected: ${expectedText()})` : "");

/** What holds of the ends of all schedules of the page. */
function endingText() {
  const [n, goods] = [data.ends.length, data.ends.filter((end) => end.right).length];
  if (isJudged && goods === 0) return ` No schedule${begins} ends right${expectedPart()}.`;
  if (isJudged && goods < n) return "";
  if (isJudged && data.ends.every((end) => end.kind === "looping")) {
    return ` No schedule${begins} ends: each runs forever, as it may${data.unjudged.length ? rightText() : "."}`;
  }
  const ending = `${begins}${begins ? " and" : " that"} ends`;
  if (isJudged) return ` Every schedule${runsForever() ? `${ending},` : begins} ends right${rightText()}`;
  if (n > 1) return "";
  const { kind } = data.ends[0];
  if (kind === "spinning") return ` No schedule${begins} ends: it runs forever.`;
  if (kind === "deadlock") return ` Every schedule${runsForever() ? `${ending},` : begins} ends in a deadlock.`;
  return ` Every schedule${ending} comes to the same end.`;
}

const linkText = () => {
  const out = [];
  for (let i = 0; i < view.at; ) {
    let j = i;
    while (j < view.at && way[j][0] === way[i][0]) j++;
    out.push(`${names[way[i][0]]}${j - i > 1 ? `x${j - i}` : ""}`);
    i = j;
  }
  return out.join(",");
};

/** The schedule up to here, from the start of the program. */
const scheduleText = () => data.begin + linkText().split(",").filter(Boolean).map((run) => {
  const [, p, s, n] = run.match(/^(\d+)\.(\d+)(?:x(\d+))?$/);
  return `${p} ${s} ${n ?? 1}\n`;
}).join("");

/** What was reached, for a mail or a form: the program, the goal, the steps, and the way as a link's end. */
function resultText() {
  const e = endHere();
  const isWaiting = roundHere(view.waiter) !== null;
  const goal = view.waiter !== null ? waitingText(view.waiter) : view.goal === null ? "none" : goalText(view.goal);
  const isReached = isWaiting || (view.goal !== null && e === view.goal && !view.shown);
  const outcome = isWaiting ? "in a round" : e === undefined ? "not at an end" : endText(e);
  const help = view.hints ? ` with ${count(view.hints, "hint", "hints")}` : "";
  return [`Program: ${data.name}`, `Goal: ${goal}${isReached ? `, reached${help}` : ""}`, `State: ${outcome}`,
    `Steps: ${view.at}`, `Way: #${linkText()}`, ""].join("\n");
}

function show() {
  document.body.classList.toggle("lecture", view.lecture); // before the pictures are as wide as there is room
  tell();
  showResult();
  showGoals();
  showChoices();
  showWay();
  showMap();
  showSource();
  showEnds();
  showState();
  byId("lead").replaceChildren(...lead());
  const fewest = view.goal === null ? "" : `, fewest ${data.ends[view.goal].shortest}`;
  byId("where").textContent = `${steps(view.at)}${fewest}`;
  for (const id of ["reset", "undo"]) byId(id).setAttribute("aria-disabled", String(view.at === 0));
  byId("redo").setAttribute("aria-disabled", String(view.at === way.length));
  byId("hint").hidden = !hasGoal();
  byId("ahead").hidden = data.ends.length < 2;
  byId("ahead").setAttribute("aria-pressed", String(view.ahead));
  byId("lecture").setAttribute("aria-pressed", String(view.lecture));
  byId("vote").hidden = !view.lecture && !view.vote;
  byId("vote").setAttribute("aria-pressed", String(view.vote !== null));
  byId("hex").setAttribute("aria-pressed", String(view.hex));
  document.body.dataset.state = here();
}

function refresh() {
  const hash = linkText();
  history.replaceState(null, "", hash ? `#${hash}` : location.pathname + location.search);
  show();
}

function goTo(n, isPlayed) {
  if (!isPlayed) stop();
  view.at = Math.max(0, Math.min(way.length, n));
  Object.assign(view, { hinted: null, vote: null });
  if (view.at === 0 && !isPlayed) {
    Object.assign(view, { hints: 0, shown: null });
    if (hasGoal()) way = []; // a game begins anew
  }
  refresh();
  view.voted = "";
}

/** Takes a step of a stream, where it changes anything; in a vote the stream gets one. */
function take(k) {
  if (view.vote) return castVote(k);
  const w = here();
  if (!names[k] || !runs(w, k)) return undefined;
  if (leadsNowhere(w, k)) {
    return say([html("b", {}, names[k]), " ", ...(isBlocked(w, k) ? waitParts(recordOf(w, k), view.at)
      : ["only runs in a loop"]), ". Nothing changes, so the step is not taken."]);
  }
  if (way[view.at]?.[0] !== k) {
    way = way.slice(0, view.at);
    way.push([k, leads[k][w]]);
  }
  return goTo(view.at + 1);
}

/** Puts a way after the steps that are kept. */
function extend(from, streams) {
  way = way.slice(0, from);
  for (const k of streams) way.push([k, leads[k][stateAt(way.length)]]);
}

function stop() {
  clearInterval(view.timer);
  view.timer = 0;
}

function play() {
  stop();
  const step = () => (view.at < way.length ? goTo(view.at + 1, true) : stop());
  view.timer = setInterval(step, 650);
}

/** Shows a shortest way to an end, from here where it can still be reached, else from the start. */
function showEnd(e) {
  const from = toGo[e][here()] < 0 ? 0 : view.at;
  view.shown = true;
  extend(from, shortestWay(stateAt(from), e));
  goTo(from, true);
  play();
}

/** Shows the schedule of which the findings of an end are told. */
function showSchedule(e) {
  view.shown = true;
  extend(0, scheduleSteps(data.ends[e].schedule).map((name) => names.indexOf(name)));
  goTo(0, true);
  play();
}

/** Goes to a state of the map: along the way, by one step, or by a shortest way from the start. */
function goToState(w) {
  const on = Array.from({ length: way.length + 1 }, (_, n) => n).find((n) => stateAt(n) === w);
  if (on !== undefined) return goTo(on);
  const k = leads.findIndex((to) => to[here()] === w);
  if (k >= 0) return take(k);
  const back = new Map([[0, null]]);
  const queue = [0];
  for (let i = 0; i < queue.length && !back.has(w); i++) {
    leads.forEach((to, stream) => {
      const j = to[queue[i]];
      if (!back.has(j)) back.set(j, [queue[i], stream]), queue.push(j);
    });
  }
  const streams = [];
  for (let j = w; back.get(j); j = back.get(j)[0]) streams.unshift(back.get(j)[1]);
  extend(0, streams);
  return goTo(way.length);
}

const LINKED = 5000; // steps of a link that are followed

/** Follows a link such as #0.0x2,1.0, or the way on which the page opens, as far as its steps can be taken; #ends leads
  to all ends. */
function followLink() {
  let hash = "";
  try {
    hash = decodeURIComponent(location.hash.slice(1)) || data.opened || "";
  } catch { /* no text */ }
  if (hash === "ends") return showAllEnds();
  stop();
  way = [];
  let isWhole = true;
  for (const one of hash.split(",").filter(Boolean)) {
    const [, name, many] = one.match(/^(\d+\.\d+)(?:x(\d+))?$/) ?? [];
    const k = names.indexOf(name);
    for (let n = Math.min(LINKED, Number(many ?? 1)); n > 0 && isWhole; n--) {
      const w = stateAt(way.length);
      isWhole = k >= 0 && runs(w, k) && way.length < LINKED;
      if (isWhole && !leadsNowhere(w, k)) way.push([k, leads[k][w]]);
    }
    if (k < 0) isWhole = false;
  }
  Object.assign(view, { at: way.length, hints: 0, hinted: null, shown: null, vote: null });
  if (!isWhole) view.told = [html("b", {}, "The link goes on"),
    " with a step that can’t be taken; here it is followed as far as it leads."];
  show();
}
"#;
