//! A text of the page: `page/play/chips.js`. Made by `page/embed.py`.

pub(crate) const TEXT: &str =
    r#"// ---------------------------------------------------------------- ends that are alike, as one chip

const MANY = 3; // ends of one kind: from so many on they are one chip
const ALIKE = { right: "right ends", plain: "ends", found: "ends with a finding", wrong: "wrong ends",
  broken: "broken claims", deadlock: "deadlocks", stopped: "ends by a trap", spinning: "endless loops" };

/** Some ends in groups: many of one kind together, and each of the others by itself. */
function groupsOf(ends) {
  const byKind = new Map();
  for (const e of ends) byKind.set(kinds[e], [...(byKind.get(kinds[e]) ?? []), e]);
  return [...byKind.values()].flatMap((alike) => (alike.length < MANY ? alike.map((e) => [e]) : [alike]));
}

/** A group in a few words; `nameOf` names an end that is alone. */
const groupText = (group, nameOf = label) => (group.length === 1 ? nameOf(group[0])
  : `${group.length} ${ALIKE[kinds[group[0]]]}`);

/** Some ends in a few words. */
const endsText = (ends, nameOf) => and(groupsOf(ends).map((group) => groupText(group, nameOf)));

const CHIP_LETTERS = 600; // of what a chip of many ends says to a pointer

function chip(group, isGone) {
  if (group.length === 1) return badge(group[0], isGone);
  const all = cut(group.map(label).join("; "), CHIP_LETTERS);
  return html(isGone ? "s" : "span", { class: `badge ${kinds[group[0]]}${isGone ? " gone" : ""}`,
    title: `${isGone ? "no longer: " : ""}${all}` }, signOf(group[0]),
  html("span", { class: "text" }, groupText(group)));
}

/** The chips of some ends. */
const chips = (ends, isGone) => groupsOf(ends).map((group) => chip(group, isGone));
"#;
