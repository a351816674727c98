//! A text of the page: `page/values.js`. Made by `page/embed.py`.

pub(crate) const TEXT: &str =
    r#"// ---------------------------------------------------------------- numbers, codes, tags and traps as texts

const NO_HANDLER = 4294967295;
const TRAPS = [
  "",
  "PROGRAM: the pc is past the program's end",
  "ILLEGAL: the word is no instruction",
  "CREATE: every reserved stream is in use",
  "POINTER: no reference may use this pointer",
  "ALIGN: the address is no multiple of 8",
  "RANGE: there is no word at the address",
  "TRAP0: the word's trap0 bit is set",
  "TRAP1: the word's trap1 bit is set",
  "FORWARD: forwarded too often",
  "BLOCKED: tried too often",
];
const trapName = (trap) => (TRAPS[trap] ?? `trap ${trap}`).split(":")[0];

/** A number as the reader wants it; one just below 2^64 is shown as the small negative number that is meant. */
function number(value) {
  if (view.hex) return `0x${BigInt(value).toString(16)}`;
  const isNegative = String(value).length === 20 && BigInt(value) >= 0xffffffff00000000n;
  return isNegative ? `−${2n ** 64n - BigInt(value)}` : String(value);
}

/** Four codes, the newest first; those that are all zero at the end are left out. */
function codesText(codes) {
  const names = [0, 4, 8, 12].map((at) => {
    const bits = (codes >> at) & 15;
    return ["zero", "negative", "carry", "overflow"].filter((_, bit) => bits & (1 << bit)).join(" + ") || "none";
  });
  while (names.length > 1 && names.at(-1) === "none") names.pop();
  return names.join(", before it ");
}

const isFull = (tags) => (tags & 1) === 1;
const fullText = (tags) => (isFull(tags) ? "full" : "empty");
const allTags = (tags) => [fullText(tags), ...["forward", "trap0", "trap1"].filter((_, bit) => tags & (2 << bit))]
  .join(" ");
const tagsText = (tags) => ["forwards", "trap0", "trap1"].filter((_, bit) => tags & (2 << bit)).join(", ");
"#;
