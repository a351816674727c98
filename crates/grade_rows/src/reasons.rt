//! Why submissions are what they are said to be, in words.

use crate::lists::put_list;
use crate::rows::{CaseRow, GradeRow, ReportLine};
use judgements::searches::Step;
use judgements::{Known, VerdictKind, Witness};
use plain_text::{TextWriter, plain, plural};
use schedule_turns::{Turn, turns_of};
use std::alloc::{AllocError, Global};

/// What shows that a submission is what it is said to be: by all cases together, or by one.
#[derive(Clone, Copy)]
struct Shown<'a> {
    /// What it is.
    kind: VerdictKind,
    /// What was looked at.
    known: Known,
    /// What shows it.
    witness: &'a Witness,
    /// The line that is missed.
    missed: Option<&'a ReportLine>,
    /// Who waits and so on.
    words: &'a str,
    /// A finding.
    finding: &'a str,
}

/// Why a submission that was judged by so many cases is what it is said to be, in words without control bytes.
pub fn reason_of(alloc: Global, row: &GradeRow, cases: usize) -> Result<String, AllocError> {
    plain(alloc, &why_of(alloc, row, cases)?)
}

/// Why a submission that was judged by so many cases is what it is said to be, in words, which may have control bytes of its
/// comments.
pub fn why_of(alloc: Global, row: &GradeRow, cases: usize) -> Result<String, AllocError> {
    let mut why = TextWriter::new(alloc);
    put_cases(&mut why, row, cases);
    let shown = Shown {
        kind: row.kind,
        known: row.known,
        witness: &row.witness,
        missed: row.missed.as_ref(),
        words: &row.words,
        finding: &row.finding,
    };
    put_reason(&mut why, shown);
    why.take_text()
}

/// Adds the case that decides, and how many cases there are, where each is right.
fn put_cases(why: &mut TextWriter, row: &GradeRow, cases: usize) {
    if let Some(case) = &row.case {
        why.put("case ");
        why.put(case);
        why.put(": ");
    }
    if cases > 0 && row.kind == VerdictKind::Right {
        put_counted(why, cases, " case");
        why.put(", ");
    }
}

/// Adds how many there are of what this word is for, which begins with a blank.
fn put_counted(why: &mut TextWriter, count: usize, word: &str) {
    why.put_number(count as u64);
    why.put(word);
    why.put(plural(count));
}

/// Why a submission is what it is by one case, without control bytes.
pub fn reason_by_case(alloc: Global, row: &CaseRow) -> Result<String, AllocError> {
    let mut why = TextWriter::new(alloc);
    let shown = Shown {
        kind: row.kind,
        known: row.known,
        witness: &row.witness,
        missed: row.missed.as_ref(),
        words: &row.words,
        finding: &row.finding,
    };
    put_reason(&mut why, shown);
    plain(alloc, &why.take_text()?)
}

/// Adds what shows it.
fn put_reason(why: &mut TextWriter, shown: Shown<'_>) {
    match shown.kind {
        VerdictKind::Right | VerdictKind::NotDecided => {
            put_known(why, shown.known);
            put_unshown(why, shown);
        }
        VerdictKind::NotRead | VerdictKind::SourceFault | VerdictKind::NotJudged => {
            why.put(shown.words);
        }
        VerdictKind::Deadlock => put_waiting(why, shown),
        VerdictKind::Trap | VerdictKind::Wrong | VerdictKind::RanOutOfSteps | VerdictKind::Spins =>
            {
                put_shown(why, shown);
            }
    }
}

/// Adds what was looked at: `every schedule, 36 states`, `200 seeds`, or both.
fn put_known(why: &mut TextWriter, known: Known) {
    put_worlds(why, known);
    if let Some(seeds) = known.seeds {
        why.put(if known.worlds.is_some() { ", and " } else { "" });
        put_counted(why, seeds, " seed");
    }
}

/// Adds what a search found, where there was one.
fn put_worlds(why: &mut TextWriter, known: Known) {
    let Some(worlds) = known.worlds else {
        return;
    };
    why.put(if known.is_every {
        "every schedule, "
    } else {
        "some schedules, "
    });
    put_counted(why, worlds, " state");
    if let Some(bound) = known.bound {
        why.put(", ");
        why.put(bound.words());
    }
}

/// Adds who waits at a deadlock, and then the run that leads there, the line that it misses, and a finding.
fn put_waiting(why: &mut TextWriter, shown: Shown<'_>) {
    if !shown.words.is_empty() {
        put_list(why, shown.words);
        why.put("; ");
    }
    put_shown(why, Shown { words: "", ..shown });
}

/// Adds the run that shows what is wrong, the line that it misses, its end, and a finding on the way to it.
fn put_shown(why: &mut TextWriter, shown: Shown<'_>) {
    if let Witness::Seed(_) = shown.witness
        && shown.known.worlds.is_some()
    {
        put_worlds(why, shown.known);
        why.put(", and ");
    }
    let is_run = !matches!(shown.witness, Witness::None);
    if shown.known.is_every && !is_run {
        put_worlds(why, shown.known);
        put_unshown(why, shown);
        return;
    }
    put_witness(why, shown.witness);
    put_after_run(why, shown, is_run);
    if !shown.finding.is_empty() {
        why.put("; ");
        why.put(shown.finding);
    }
}

/// Adds the line that a run misses, and its end; the end alone where there is no run.
fn put_after_run(why: &mut TextWriter, shown: Shown<'_>, is_run: bool) {
    let mut between = if is_run { ": " } else { "" };
    if let Some(missed) = shown.missed
        && is_run
    {
        put_missed(why, between, missed);
        between = ": ";
    }
    if !shown.words.is_empty() {
        why.put(between);
        put_list(why, shown.words);
    }
}

/// Adds the claim that nothing shows which was looked at, where there is one.
fn put_unshown(why: &mut TextWriter, shown: Shown<'_>) {
    let Some(missed) = shown.missed else {
        return;
    };
    put_missed(why, ": ", missed);
    why.put(": ");
    why.put(shown.words);
}

/// Adds the line that is missed.
fn put_missed(why: &mut TextWriter, between: &str, missed: &ReportLine) {
    why.put(between);
    why.put("not ");
    why.put(&missed.text);
}

/// Adds a seed, or the turns of a schedule.
pub fn put_witness(why: &mut TextWriter, witness: &Witness) {
    match witness {
        Witness::None => {}
        Witness::Seed(seed) => {
            why.put("seed ");
            why.put_number(*seed);
        }
        Witness::Schedule(steps) if steps.is_empty() => why.put("at the start"),
        Witness::Schedule(steps) => {
            why.put("schedule ");
            put_turns(why, steps, ", ");
        }
    }
}

/// Adds the turns of a schedule, with this between each two.
pub fn put_turns(out: &mut TextWriter, steps: &[Step], between: &str) {
    match turns_in(out.alloc(), steps) {
        Ok(turns) => {
            for (index, turn) in turns.iter().enumerate() {
                out.put(if index == 0 { "" } else { between });
                put_turn(out, *turn);
            }
        }
        Err(_) => out.lack_piece(),
    }
}

/// The turns of a schedule. It has no clause, so what [`turns_of`] promises burdens no proof above it.
fn turns_in(alloc: Global, steps: &[Step]) -> Result<Vec<Turn>, AllocError> {
    turns_of(alloc, steps)
}

/// Adds a turn as a line of a schedule says it: processor, stream, how often.
fn put_turn(out: &mut TextWriter, turn: Turn) {
    out.put_number(u64::from(turn.stream.p));
    out.put(" ");
    out.put_number(u64::from(turn.stream.s));
    out.put(" ");
    out.put_number(turn.count as u64);
}
