//! A text of the page: `page/play/picture.js`. Made by `page/embed.py`.

pub(crate) const TEXT: &str =
    r#"// ---------------------------------------------------------------- the picture of the way

/** The sizes of the picture of the way: how wide a step is, and where each kind of lane begins. */
function wayLayout() {
  const room = Math.max(200, (byId("scroll").clientWidth || 400) / scale());
  const columns = Math.max(drawn.to - drawn.from, 8) + 1;
  const cell = Math.max(LEAST_CELL, Math.min(CELL, Math.floor((room - 20) / columns)));
  const x = (n) => 10 + cell * (n - drawn.from + 0.5);
  const withEnds = isAheadShown() && data.ends.length > 1;
  const ends = withEnds ? data.ends.map((_, e) => e).filter((e) => toGo[e][0] >= 0).slice(0, 8) : [];
  const wordsTop = 24 + names.length * STREAM_LANE;
  const endsTop = wordsTop + drawnWords.length * WORD_LANE + (ends.length ? 6 : 0);
  return { room, cell, x, withEnds, ends, wordsTop, endsTop, height: endsTop + ends.length * END_LANE + 4,
    width: Math.max(room, x(drawn.to) + cell / 2 + 10), isNarrow: byId("heads").clientWidth / scale() < 100 };
}

/** The lanes of streams, words and ends, each with its head. */
function drawLanes({ cell, x, ends, wordsTop, endsTop, width, isNarrow }, parts, heads) {
  const rule = (y) => {
    for (const [list, x2] of [[parts, width], [heads, HEAD]]) {
      list.push(svg("line", { class: "rule", x1: 0, x2, y1: y + 0.5, y2: y + 0.5 }));
    }
  };
  names.forEach((name, k) => {
    heads.push(...laneHead(24 + k * STREAM_LANE, STREAM_LANE, name, isNarrow ? "" : stateNote(k)));
    parts.push(...streamLane(k, 24 + k * STREAM_LANE, x, cell));
  });
  drawnWords.forEach((a, i) => {
    const y = wordsTop + i * WORD_LANE;
    rule(y);
    heads.push(...laneHead(y, 28, wordName(a), isNarrow ? "" : givenName(a) || noteOf(a)));
    parts.push(...wordLane(a, y, { x, cell, width }));
  });
  ends.forEach((e, i) => {
    const y = endsTop + i * END_LANE;
    if (i === 0) rule(y - 3);
    const name = shortLabel(e, isNarrow ? 6 : 17, bareLabel);
    heads.push(...laneHead(y, END_LANE, name, "", drawnSign(e, 21, y + 12)));
    parts.push(...endLane(e, y, x, cell));
  });
}

/** The numbers of the steps, and of each the column that a click goes to. */
function stepNumbers({ cell, x, height }) {
  const parts = [];
  const widest = 6.4 * String(drawn.to).length + 6;
  const gap = Math.ceil(widest / cell); // every how many steps a number stands, so that they stay apart
  for (let n = drawn.from; n <= drawn.to; n++) {
    const isNow = n === view.at;
    const isNumbered = isNow || (n % gap === 0 && Math.abs(n - view.at) >= gap);
    const text = !isNumbered ? "" : n === 0 && cell > 40 ? "start" : String(n);
    const half = Math.max(10, 3.6 * text.length + 4);
    if (isNow) parts.push(svg("rect", { class: "flag", x: x(n) - half, y: 3, width: 2 * half, height: 17, rx: 4 }));
    if (text) parts.push(svg("text", { class: `number${isNow ? " now" : ""}`, x: x(n), y: 15.5 }, text));
    parts.push(svg("rect", { class: "hit", x: x(n) - cell / 2, y: 0, width: cell, height, "data-n": n }));
  }
  const top = 24 + STREAM_LANE / 2 + 4;
  const hint = "Each step you choose comes here.";
  if (!way.length) parts.push(svg("text", { class: "small", x: x(1) - 10, y: top }, hint));
  return parts;
}

/** The steps of the way in words, for those who hear the page. */
function speakWay() {
  byId("spoken").start = drawn.from + 1;
  byId("spoken").replaceChildren(...drawnSteps().filter(([, i]) => i < view.at).map(([k, i]) => {
    const { pc } = content(stateAt(i), k);
    const effect = words(joined(effectParts(stateAt(i), k)));
    return html("li", {}, `${names[k]} at ${placeOf(pc)}, ${cut(statement(pc), 80)}: ${effect}`);
  }));
}

function showWay() {
  setWindow();
  const layout = wayLayout();
  const { room, cell, x, withEnds, width, height } = layout;
  const heads = [svg("text", { class: "small", x: 14, y: 16 }, "step")];
  const parts = [svg("rect", { class: "now-column", x: x(view.at) - cell / 2, y: 0, width: cell, height })];
  drawLanes(layout, parts, heads);
  parts.push(...boxes(24, x, cell), ...stepNumbers(layout));
  const side = (byId("heads").clientWidth || 148) / scale();
  byId("heads").replaceChildren(picture("pic", side, height, ...heads));
  byId("track").replaceChildren(picture("pic column", width, height, ...parts));
  const scroller = byId("scroll");
  const [left, right] = [x(view.at) - cell * 2, x(view.at) + cell * 2];
  const from = scroller.scrollLeft / scale();
  if (left < from || right > from + room) scroller.scrollLeft = (left - room / 2) * scale();
  const tail = withEnds ? "; below, how many steps there are still to each end" : "";
  byId("way-title").textContent = way.length ? `Your way so far${tail}` : "Your way";
  speakWay();
}

function stateNote(k) {
  const state = stateOf(k);
  return state === "running" ? placeOf(content(here(), k).pc) : state;
}
"#;
