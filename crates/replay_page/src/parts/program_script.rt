//! A text of the page: `page/program.js`. Made by `page/embed.py`.

pub(crate) const TEXT: &str =
    r#"// ---------------------------------------------------------------- places of the program and words by name

const placeName = (pc) => head.program[pc]?.[1] ?? String(pc);
const placeOf = (pc) => `${placeName(pc)}${head.program[pc] ? "" : ", past the end"}`;
const lineOf = (pc) => head.program[pc]?.[0];
const statement = (pc) => head.program[pc]?.[2] ?? "no word";
const dataOf = (address) => head.data.find(([first, count]) => address >= first && address < first + 8 * count);
const comment = (address) => dataOf(address)?.[3] ?? "";
const wordName = (address) => `[${address}]`;
const nameOfLine = new Map(head.names.map(([first, , name]) => [first, name]));

/** The name that the program gives a word: total, or ring+1 for a word behind the first of its line; else "". */
function givenName(address) {
  const first = dataOf(address)?.[0];
  const name = nameOfLine.get(first) ?? "";
  return name && address > first ? `${name}+${(address - first) / 8}` : name;
}

/** A word's address with its name: [8] total. */
const namedWord = (address) => `${wordName(address)} ${givenName(address)}`.trim();

/** A word's comment without the name that it begins with. */
function remark(address) {
  const [text, name] = [comment(address), nameOfLine.get(dataOf(address)?.[0])];
  const colon = text.indexOf(":");
  if (text === name) return "";
  return name && text.slice(0, Math.max(0, colon)).trim() === name ? text.slice(colon + 1).trim() : text;
}

/** A word's address and name with its comment, where the comment's line makes this one word alone. */
function fullName(address) {
  const isOwn = remark(address) && dataOf(address)[1] === 1;
  return isOwn ? `${namedWord(address)} (${cut(remark(address), 48)})` : namedWord(address);
}
"#;
