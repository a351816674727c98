//! A text of the page: `page/gallery/levels.js`. Made by `page/embed.py`.

pub(crate) const TEXT: &str =
    r#"// ---------------------------------------------------------------- the levels, and which are done

const levelSteps = (level) => reachedIn(data.cards[level.card].called, level.goal);

function levelOf(level, i, isNext) {
  const card = data.cards[level.card];
  const steps = levelSteps(level);
  const done = steps === null ? "" : `Done in ${steps} ${steps === "1" ? "step" : "steps"}. `;
  return html("li", { class: `${steps === null ? "" : "done"}${isNext ? " next" : ""}`, "data-level": i },
    html("span", { class: "number", "aria-hidden": "true" }, steps === null ? String(i + 1) : "✓"),
    html("a", { href: fileOf(card, "play"), "aria-label": `Level ${i + 1}: ${level.task}` }, level.task),
    html("span", { class: "state" }, `${done}${card.title}`));
}

function showLevels() {
  const done = data.levels.filter((level) => levelSteps(level) !== null).length;
  const next = data.levels.findIndex((level) => levelSteps(level) === null);
  byId("levels").hidden = !data.levels.length;
  byId("done").textContent = done === data.levels.length ? "All levels are done."
    : `${done} of ${data.levels.length} levels are done.`;
  byId("forget").hidden = done === 0;
  byId("level-list").replaceChildren(...data.levels.map((level, i) => levelOf(level, i, i === next)));
}

byId("forget").addEventListener("click", () => {
  for (const level of data.levels) forget(data.cards[level.card].called, level.goal);
  showLevels();
});
// (a page of play may have been open beside this one, or the reader comes back to it)
addEventListener("storage", showLevels);
addEventListener("pageshow", showLevels);
showLevels();
"#;
