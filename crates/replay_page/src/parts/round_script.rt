//! A text of the page: `page/round.js`. Made by `page/embed.py`.

pub(crate) const TEXT: &str =
    r#"// ---------------------------------------------------------------- a round: steps that come back to the same state

const ROUNDS_DRAWN = 50; // of the times that a round is taken

/** The first and the last step of each time that the round is taken; none if no round is marked. */
function roundSpans() {
  if (!run.round) return [];
  const { after, steps: size, times: taken } = run.round;
  const each = Array.from({ length: Math.min(taken, ROUNDS_DRAWN) }, (_, i) => after + i * size);
  return each.map((before) => [before + 1, before + size]);
}

/** An arrow from the end of a round, to the right, back to its beginning. */
const roundArrow = (width) => {
  const head = svg("path", { class: "head", d: "M0 0l6 -3.5v7z" });
  return svg("g", { class: "round" }, svg("path", { d: `M3 0H${width}V-5` }), head);
};

/** The rounds below the steps' numbers, each from its last step back to its first. */
function drawRounds(top, left, viewWidth, width) {
  for (const [from, to] of roundSpans()) {
    const [start, stop] = [columnOf[from] * width - left + 1, (columnOf[to] + 1) * width - left - 2];
    if (stop < 0 || start > viewWidth) continue;
    const arrow = at(start, RULER - 4, roundArrow(stop - start));
    arrow.append(svg("title", {}, `steps ${from} to ${to}: they come back to the same state`));
    top.append(arrow);
  }
}

/** The round in words. */
function roundItems() {
  if (!run.round) return [];
  const { after, steps: size } = run.round;
  const before = after ? ["after ", stepLink(after)] : ["at the start"];
  const again = ` on again and again: ${times(size, "1 step", "steps")}. After `;
  return [["From ", stepLink(after + 1), again, stepLink(steps.length), " the state is the same as ", ...before, "."]];
}
"#;
