//! A text of the page: `page/deciding.js`. Made by `page/embed.py`.

pub(crate) const TEXT: &str =
    r#"// ---------------------------------------------------------------- the step that decides how a run ended

const WRITERS = ["STORE", "FADD", "PURGE"];

/** The address of the word of which the line speaks that the end misses; undefined where it speaks of no word. */
function missedWord() {
  const [, name, more] = /^word \[?(\w+)(?:\+(\d+))?\]?\s/.exec(run.missed ?? "") ?? [];
  if (!name) return undefined;
  const named = head.names.find(([, , one]) => one === name)?.[0];
  return (named ?? Number(name)) + 8 * Number(more ?? 0);
}

/** Whether a claim does not hold in the state where the steps end, though the program could go on: then the search has
  ended them there. */
const endsInClaim = () => run.end.kind === "steps" && /^(always|never) /.test(run.missed ?? "");

/** Of the word that the end misses: the step that left it full or empty, if it should not be so; else the last step of
  a finding about it, else the last step that wrote it; 0 where none did. */
function stepOfMissedWord() {
  const word = missedWord();
  if (word === undefined) return 0;
  const [, wanted] = / (full|empty)$/.exec(run.missed) ?? [];
  if (wanted && fullText(stateAt(word, steps.length)[2]) !== wanted) return turnedIn(word, steps.length);
  const found = run.findings.filter((finding) => wordsOf(finding).includes(word)).map(lastOfFinding);
  const isWrite = (n) => steps[n - 1].o === "done" && WRITERS.includes(steps[n - 1].ref[0]);
  return Math.max(0, ...found) || (stepsAt.get(word) ?? []).findLast(isWrite) || 0;
}

/** The first try of the wait from which on nobody who had begun goes on; 0 where there is none. */
function stepOfLastWait() {
  const stuck = isHeldUp() ? stuckAtEnd().map((id) => atEnd.waiting.get(id)) : [];
  // (one that has not tried would wait since the word was turned)
  return Math.max(0, ...stuck.map(({ since, made }) => since || made));
}

/** The step that decides: the one that broke a claim; the one that made the word what it should not be; the first trap
  that stopped a stream; the last one in which something was found; the one from which on nobody goes on; else the last
  one. */
function stepThatMatters() {
  if (endsInClaim()) return steps.length;
  const trapped = steps.findIndex((step) => sign(step) === "stopped") + 1;
  const found = Math.max(0, ...run.findings.map(lastOfFinding));
  return stepOfMissedWord() || trapped || found || stepOfLastWait() || steps.length;
}
"#;
