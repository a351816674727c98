//! A text of the page: `page/play/choices.js`. Made by `page/embed.py`.

pub(crate) const TEXT: &str =
    r#"// ---------------------------------------------------------------- the choices

let choiceNodes = [];

function makeChoices() {
  choiceNodes = names.map((name, k) => {
    const node = html("button", { type: "button", class: "choice", "data-stream": k });
    node.addEventListener("click", () => take(k));
    return node;
  });
  byId("choices").replaceChildren(...choiceNodes);
}

/** The ends that a step from one state to another puts out of reach. */
function lostBetween(w, to) {
  const after = new Set(endsAhead(to));
  return endsAhead(w).filter((e) => !after.has(e));
}

/** The ends that can come after a step, and those that it puts out of reach. */
const badgesAfter = (w, to) => [...chips(endsAhead(to), false), ...chips(lostBetween(w, to), true)];

/** The same in words. */
function afterText(w, to) {
  const lost = lostBetween(w, to);
  return `. Then can come: ${endsText(endsAhead(to))}${lost.length ? `; no longer: ${endsText(lost)}` : ""}`;
}

function showChoice(node, w, k) {
  const { pc } = content(w, k);
  const isIdle = leadsNowhere(w, k);
  const asks = recordOf(w, k).length > 1; // then it may change something once another stream has changed the word
  const effect = isBlocked(w, k) ? waitParts(recordOf(w, k), view.at)
    : isIdle ? [`changes nothing${asks ? " now" : ", forever"}`] : joined(effectParts(w, k));
  if (isBlocked(w, k)) effect.push(isIdle ? ". A step now changes nothing." : ". A step counts one more try.");
  const isBadged = isAheadShown() && !isIdle && endsAhead(w).length > 1;
  const badges = view.vote ? [votesFor(k)] : isBadged ? badgesAfter(w, leads[k][w]) : [];
  const key = k < 9 ? String(k + 1) : "";
  node.className = `choice${view.hinted === k ? " hinted" : ""}`;
  node.setAttribute("aria-disabled", String(isIdle));
  if (key) node.setAttribute("aria-keyshortcuts", key);
  const hint = view.hinted === k ? "Hint: " : "";
  const told = `${hint}${names[k]} at ${placeOf(pc)}: ${statement(pc)}: ${words(effect)}`;
  const tail = view.vote ? `. ${count(view.vote[k], "vote", "votes")}` : isBadged ? afterText(w, leads[k][w]) : "";
  node.setAttribute("aria-label", cut(told, 400) + tail);
  node.replaceChildren(key ? html("kbd", {}, key) : html("span"), html("span", { class: "who" }, names[k]),
    html("span", { class: "what" }, html("span", { class: "statement" }, cut(statement(pc), 80)),
      html("span", { class: "place" }, placeOf(pc)), html("span", { class: "effect" }, ...effect)),
    html("span", { class: "badges" }, ...badges));
}

/** A stream's state in words: running, waits, stopped, has quit or has not begun; idle where it may have quit in the
  steps that are given. */
function stateOf(k) {
  const w = here();
  const { status } = content(w, k);
  if (status === "running") return isBlocked(w, k) ? "waits" : "running";
  if (status) return status.split(" ")[0];
  const hasBegun = Array.from({ length: view.at + 1 }, (_, n) => n).some((n) => content(stateAt(n), k).status);
  return hasBegun ? "has quit" : begunSteps ? "idle" : "not begun";
}

function showChoices() {
  const w = here();
  const focused = choiceNodes.indexOf(document.activeElement);
  names.forEach((_, k) => {
    choiceNodes[k].hidden = !runs(w, k);
    choiceNodes[k].classList.remove("hinted");
    if (runs(w, k)) showChoice(choiceNodes[k], w, k);
  });
  const running = names.filter((_, k) => runs(w, k));
  const isDead = isStill(data.ends[endHere()]); // then the result tells who waits for what
  byId("choices").hidden = isDead;
  const canStep = names.some((_, k) => runs(w, k) && !leadsNowhere(w, k));
  byId("choices-title").textContent = !canStep ? running.length ? "No stream can go on" : "No stream runs any more"
    : view.vote ? `Who takes the next step? ${count(votesCast(), "vote", "votes")}` : "Who takes the next step?";
  byId("choices-title").parentElement.hidden = !canStep && endIn.has(w);
  const isOnly = isAheadShown() && canStep && endsAhead(w).length === 1 && data.ends.length > 1;
  const isBadged = isAheadShown() && canStep && endsAhead(w).length > 1;
  byId("only").replaceChildren(...(isOnly ? ["now only", badge(endsAhead(w)[0]), "can come"] : isBadged
    ? ["what can still come after it"] : []));
  const group = (state) => names.filter((_, k) => stateOf(k) === state);
  const texts = [["has quit", "have quit"], ["stopped", "were stopped"],
    ["not begun", "have not begun"], ["idle", "do not run"]].flatMap(([one, many]) => {
    const who = group(one);
    if (!who.length) return [];
    const single = { stopped: "was stopped", "not begun": "has not begun", idle: "does not run" }[one] ?? one;
    return [`${and(who)} ${who.length > 1 ? many : single}`];
  });
  byId("others").textContent = texts.length ? `${texts.join("; ")}.` : "";
  byId("others").hidden = !texts.length;
  showSkip();
  // What had the focus is gone: the next stream that can step has it.
  if (hadFocus || (focused >= 0 && (choiceNodes[focused].hidden || isDead))) {
    const next = !isDead && choiceNodes.find((node) => !node.hidden && node.getAttribute("aria-disabled") !== "true");
    (next || byId("undo")).focus({ preventScroll: true });
  }
}
"#;
