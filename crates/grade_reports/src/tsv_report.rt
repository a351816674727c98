//! Verdicts as fields that are apart by tabs.

use crate::cells::put_cell;
use crate::reports::ReportedRow;
use grade_rows::judges::{VerdictKind, Witness};
use grade_rows::{ReportLine, put_plain_list, put_turns};
use plain_text::TextWriter;

/// Adds the line of a submission: its path, the verdict, the case, how many worlds and how many seeds were looked at, the
/// seed or the schedule that shows it, the number of the line that is missed and that line, and the words. A field that
/// says nothing is empty.
pub(crate) fn put_tsv(out: &mut TextWriter, reported: &ReportedRow<'_>) {
    let row = reported.row;
    put_cell(out, reported.submission);
    out.put("\t");
    out.put(row.kind.word());
    out.put("\t");
    if let Some(case) = &row.case {
        put_cell(out, case);
    }
    put_count(out, row.known.worlds);
    put_count(out, row.known.seeds);
    out.put("\t");
    put_run(out, &row.witness);
    put_missed(out, row.missed.as_ref());
    out.put("\t");
    put_words(out, row.kind, &row.words);
    out.put("\n");
}

/// Adds the seed or the schedule that shows it.
fn put_run(out: &mut TextWriter, witness: &Witness) {
    match witness {
        Witness::None => {}
        Witness::Seed(seed) => out.put_number(*seed),
        Witness::Schedule(steps) => put_turns(out, steps, ", "),
    }
}

/// Adds a field with the number of the line that is missed, and one with that line.
fn put_missed(out: &mut TextWriter, missed: Option<&ReportLine>) {
    out.put("\t");
    match missed {
        Some(missed) => {
            out.put_number(missed.number as u64);
            out.put("\t");
            out.put_plain(&missed.text);
        }
        None => out.put("\t"),
    }
}

/// Adds the words of a verdict of this kind: why nothing ran, or a list of what a run leaves.
fn put_words(out: &mut TextWriter, kind: VerdictKind, words: &str) {
    match kind {
        VerdictKind::NotRead | VerdictKind::SourceFault | VerdictKind::NotJudged => {
            out.put_plain(words);
        }
        VerdictKind::Right
        | VerdictKind::NotDecided
        | VerdictKind::Deadlock
        | VerdictKind::Trap
        | VerdictKind::Wrong
        | VerdictKind::RanOutOfSteps
        | VerdictKind::Spins => put_plain_list(out, words),
    }
}

/// Adds a field with a number, which may be missing.
fn put_count(out: &mut TextWriter, count: Option<usize>) {
    out.put("\t");
    if let Some(count) = count {
        out.put_number(count as u64);
    }
}
