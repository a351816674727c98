//! A text of the page: `page/papers.js`. Made by `page/embed.py`.

pub(crate) const TEXT: &str =
    r#"// ---------------------------------------------------------------- paper and the saved picture

const PAPER_WIDTH = 1020;
const PAPER_STRIPS = 80;
const SAVED_COLUMNS = 400;
const TITLE_HEIGHT = 44, LEGEND_ROW = 24, LETTER_WIDTH = 6.6;
const NAME_WIDTH = 8, PAPER_LETTERS = 19; // of an address and a name: a letter's pixels, and how many letters

/** Lanes with their names and the steps' numbers: `count` columns from `first` on. */
function drawStrip(first, count, width, total) {
  const height = RULER + lanes.height;
  const strip = svg("svg", { class: "pic", width: total, height, viewBox: `0 0 ${total} ${height}` });
  for (const lane of lanes) {
    const y = RULER + lane.y + (lane.stream ? LANE / 2 + 4 : 20);
    const name = lane.stream ?? cut(namedWord(lane.word), PAPER_LETTERS);
    const x = Math.max(46, 10 + NAME_WIDTH * name.length);
    const room = Math.round((HEAD - x) / LETTER_WIDTH);
    strip.append(svg("text", { class: "name", x: 2, y }, name));
    if (lane.stream || room < 3) continue;
    strip.append(svg("text", { class: "small muted", x, y }, cut(remark(lane.word), room)));
  }
  const shownWidth = Math.min(total - HEAD, count * width + endRoom);
  const numbers = drawRuler(first * width, shownWidth, width, false);
  const inner = drawLanes(first * width, shownWidth, width, false);
  numbers.setAttribute("x", HEAD);
  inner.setAttribute("x", HEAD);
  inner.setAttribute("y", RULER);
  strip.append(numbers, inner);
  return strip;
}

/** The rules of pictures with the light colours put in, so that other programs can read them. */
function pictureStyle() {
  const rules = [...document.styleSheets[0].cssRules];
  const light = rules.find((rule) => rule.selectorText === ":root").style;
  const own = rules.filter((rule) => rule.selectorText?.startsWith(".pic"));
  // (as page.css has it where the end is as expected)
  const calm = run.expected === true ? { "--lost": "--muted", "--stopped": "--trapped" } : {};
  const colour = (_, name) => light.getPropertyValue(calm[name] ?? name).trim();
  return own.map((rule) => rule.cssText).join("\n").replace(/var\((--[\w-]+)\)/g, colour);
}

/** The legend in rows of a picture of some width, and its height. */
function drawLegend(width) {
  const group = svg("g", {});
  let [x, y] = [12, LEGEND_ROW / 2];
  for (const [node, name] of legendItems()) {
    const room = 36 + LETTER_WIDTH * name.length;
    if (x + room > width && x > 12) [x, y] = [12, y + LEGEND_ROW];
    group.append(at(x + 2, y, svg("g", {}, node)), svg("text", { class: "small", x: x + 18, y: y + 4 }, name));
    x += room;
  }
  return { group, height: y + LEGEND_ROW / 2 + 4 };
}

/** The lanes as a picture of its own: what it is of, the lanes, the legend. */
function savedPicture() {
  const isPart = columns.length > SAVED_COLUMNS;
  const first = isPart ? Math.floor(scroller.scrollLeft / cellWidth) : 0;
  const room = isPart ? Math.ceil(scroller.clientWidth / cellWidth) : SAVED_COLUMNS;
  const count = Math.min(columns.length - first, room);
  const width = Math.max(480, HEAD + count * cellWidth + endRoom);
  const strip = drawStrip(first, count, cellWidth, width);
  const legend = drawLegend(width);
  const legendTop = TITLE_HEIGHT + RULER + lanes.height + 8;
  const height = legendTop + legend.height;
  strip.setAttribute("y", TITLE_HEIGHT);
  const name = `${run.name} by ${run.schedule}`;
  const title = cut(endTitle()[1], Math.floor(width / LETTER_WIDTH));
  const picture = svg("svg", { class: "pic", width, height, viewBox: `0 0 ${width} ${height}`, role: "img" },
    svg("title", {}, `${name}: ${title}`), svg("style", {}, pictureStyle()),
    svg("rect", { class: "sheet", x: 0, y: 0, width, height }),
    svg("text", { class: "small muted", x: 2, y: 14 }, cut(name, Math.floor(width / LETTER_WIDTH))),
    svg("text", { class: "title", x: 2, y: 33 }, title), strip, at(0, legendTop, legend.group));
  return new XMLSerializer().serializeToString(picture);
}

function save() {
  const url = URL.createObjectURL(new Blob([savedPicture()], { type: "image/svg+xml" }));
  html("a", { href: url, download: "lanes.svg" }).click();
  setTimeout(() => URL.revokeObjectURL(url), 1000);
}

/** The lanes of the run in strips, as music is printed; the last one keeps room for how each stream ended. */
function paperStrips() {
  const room = PAPER_WIDTH - HEAD;
  const width = Math.min(60, Math.max(26, Math.floor((room - endRoom) / Math.max(1, columns.length))));
  const strips = [];
  for (let first = 0; first < columns.length && strips.length < PAPER_STRIPS; ) {
    const left = columns.length - first;
    const isLast = left * width + endRoom <= room;
    const count = isLast ? left : Math.max(1, Math.min(left - 1, Math.floor(room / width)));
    strips.push(drawStrip(first, count, width, PAPER_WIDTH));
    first += count;
  }
  const legend = drawLegend(PAPER_WIDTH);
  const sized = { class: "pic", width: PAPER_WIDTH, height: legend.height };
  return [...paperHead(), ...strips, svg("svg", sized, legend.group)];
}

const fillPaper = () => byId("paper").replaceChildren(...perRun(paperStrips).flat());
"#;
