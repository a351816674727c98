//! What a program lacks by the line that decides, in words.

use crate::advice::steps_of;
use crate::listing::put_reason;
use crate::shortfall_words::put_shortfall;
use exercise_advice::judges::{CaseJudgement, MissedLine, Reason, VerdictKind};
use exercise_advice::rules::ProgramRule;
use exercise_advice::searches::endless::answered::RunEnd;
use exercise_advice::{Shortfall, ShownMistake, shortfall_of};
use exercise_files::parts::texts::ProgramNames;
use plain_text::{TextWriter, plural};
use std::alloc::{AllocError, Global};
use submission_rows::reports::{GradeRow, reason_of};
use submission_rows::{DecidedByCase, JudgedAlone};

/// Adds what is said of a program that was judged, after the name of its file: the line that decides in words, and what
/// shows it on a line of its own. Without such words it is what `grade` says; of a deadlock who waits, and no line that
/// its end misses.
pub(crate) fn put_verdict_words(
    alloc: Global,
    out: &mut TextWriter,
    judged: &JudgedAlone,
) -> Result<(), AllocError> {
    let Some(decided) = &judged.decided else {
        return put_reason(alloc, out, judged);
    };
    let Some(case) = decided.judgement.deciding() else {
        return put_reason(alloc, out, judged);
    };
    if case.kind == VerdictKind::Deadlock {
        return put_without_line(alloc, out, &judged.row, true);
    }
    let missed = missed_words(alloc, decided, case, &judged.row)?;
    if missed.is_empty() {
        return put_reason(alloc, out, judged);
    }
    put_missed(alloc, out, &judged.row, &missed)
}

/// Adds the line that decides in these words, after the name of its case, and what shows it on a line of its own.
fn put_missed(
    alloc: Global,
    out: &mut TextWriter,
    row: &GradeRow,
    missed: &str,
) -> Result<(), AllocError> {
    if let Some(name) = &row.case {
        out.put("case ");
        out.put_plain(name);
        out.put(": ");
    }
    out.put(missed);
    out.put("\n");
    put_without_line(alloc, out, row, false)
}

/// Adds what `grade` says of a row, but for the line that is missed, with the name of its case or without.
fn put_without_line(
    alloc: Global,
    out: &mut TextWriter,
    row: &GradeRow,
    has_case: bool,
) -> Result<(), AllocError> {
    let words = words_without_line(alloc, row, has_case)?;
    out.put(&words);
    Ok(())
}

/// What `grade` says so.
fn words_without_line(alloc: Global, row: &GradeRow, has_case: bool) -> Result<String, AllocError> {
    let mut row = row.copy()?;
    row.missed = None;
    if !has_case {
        row.case = None;
    }
    reason_of(alloc, &row, 0)
}

/// The line that decides, in words; empty where it has none.
fn missed_words(
    alloc: Global,
    decided: &DecidedByCase,
    case: &CaseJudgement,
    row: &GradeRow,
) -> Result<String, AllocError> {
    let mut out = TextWriter::new(alloc);
    put_missed_line(alloc, &mut out, decided, case, row)?;
    out.take_text()
}

/// Adds the line that decides, in words; nothing where it has none.
fn put_missed_line(
    alloc: Global,
    out: &mut TextWriter,
    decided: &DecidedByCase,
    case: &CaseJudgement,
    row: &GradeRow,
) -> Result<(), AllocError> {
    match case.missed() {
        Some(MissedLine::End(_)) => return put_end(alloc, out, decided, case, row),
        Some(MissedLine::Claim(place)) => {
            if let Some(line) = decided.required.claim_lines().get(place) {
                put_claim(out, &line.words, &case.reason);
            }
        }
        Some(MissedLine::Busy) => put_busy(out, &case.reason),
        Some(MissedLine::Starved) => put_starved(out, &case.reason),
        Some(MissedLine::Condition(place)) => {
            if let Some(line) = decided.required.condition_lines().get(place) {
                put_condition(out, &line.words, &case.reason);
            }
        }
        Some(MissedLine::Rule(place)) => put_rule_at(out, decided, place),
        Some(MissedLine::Work(_) | MissedLine::Absent { .. }) | None => {}
    }
    Ok(())
}

/// Adds what the end of the run shows in place of what is expected.
fn put_end(
    alloc: Global,
    out: &mut TextWriter,
    decided: &DecidedByCase,
    case: &CaseJudgement,
    row: &GradeRow,
) -> Result<(), AllocError> {
    let steps = steps_of(alloc, &decided.program.image, &row.witness)?;
    let shown = ShownMistake {
        image: &decided.program.image,
        required: &decided.required,
        judgement: case,
        steps: &steps,
    };
    match shortfall_of(alloc, shown)? {
        Some(shortfall) => put_named(alloc, out, &decided.program.text, &shortfall),
        None => Ok(()),
    }
}

/// Adds what is expected and what is found instead, by the names that a source text has.
fn put_named(
    alloc: Global,
    out: &mut TextWriter,
    text: &[u8],
    shortfall: &Shortfall,
) -> Result<(), AllocError> {
    let names = ProgramNames::of(alloc, text)?;
    put_shortfall(out, &names, shortfall);
    Ok(())
}

/// Adds how a claim does not hold, by its line; nothing where runs alone were looked at, and none shows what it asks for.
fn put_claim(out: &mut TextWriter, line: &str, reason: &Reason) {
    let (scope, claim) = line.split_once(' ').unwrap_or(("", line));
    match (scope, reason) {
        ("always", _) => {
            out.put("at some moment this does not hold, and always should: ");
            out.put_plain(claim);
        }
        ("never", _) => {
            out.put("at some moment this holds, and never should: ");
            out.put_plain(claim);
        }
        ("some", Reason::NoSchedule { .. }) => {
            out.put("at some moment this should hold, and by no schedule it does: ");
            out.put_plain(claim);
        }
        _ => {}
    }
}

/// Adds that a stream can loop alone, where a schedule shows it.
fn put_busy(out: &mut TextWriter, reason: &Reason) {
    if let Reason::End(_) = reason {
        out.put("after this run a stream can loop alone, and none ever should: never busy");
    }
}

/// Adds that a stream can wait forever, where a search shows it.
fn put_starved(out: &mut TextWriter, reason: &Reason) {
    if let Reason::Starved(_) = reason {
        out.put("after this run a stream can wait forever, and none ever should: never starved");
    }
}

/// Adds that a stream may never come to where it should, or is overtaken too often, by the line that says so, where a search
/// shows it.
fn put_condition(out: &mut TextWriter, line: &str, reason: &Reason) {
    let Reason::Evaded(shown) = reason else {
        return;
    };
    out.put(match &shown.run.end {
        RunEnd::Repeats(_) | RunEnd::Stops =>
            "after this run this may never come, and always should: ",
        RunEnd::Anything => "after this run a stream may be overtaken more often than it should: ",
    });
    out.put_plain(line);
}

/// Adds how the program breaks the rule at a place.
fn put_rule_at(out: &mut TextWriter, decided: &DecidedByCase, place: usize) {
    let (rules, lines) = (decided.required.rules(), decided.required.rule_lines());
    let (Some(rule), Some(line)) = (rules.get(place), lines.get(place)) else {
        return;
    };
    let (_, operation) = line.words.split_once(' ').unwrap_or(("", ""));
    let image = &decided.program.image;
    match *rule {
        ProgramRule::Entries(count) => {
            put_counts(out, "", (count, image.processors()), ["entry", "entries"]);
        }
        ProgramRule::AtMostWords(most) => {
            let counts = (most, image.program().len());
            put_counts(out, "at most ", counts, ["word", "words"]);
        }
        ProgramRule::Forbid(_) => {
            out.put("the program should have no ");
            out.put_plain(operation);
            out.put(", and has one");
        }
        ProgramRule::Require(_) => {
            out.put("the program should have a word with ");
            out.put_plain(operation);
            out.put(", and has none");
        }
    }
}

/// Adds how many of something the program should have, and how many it has.
fn put_counts(
    out: &mut TextWriter,
    bound: &str,
    (wanted, found): (usize, usize),
    names: [&str; 2],
) {
    let [one, many] = names;
    out.put("the program should have ");
    out.put(bound);
    out.put_number(wanted as u64);
    out.put(" ");
    out.put(if plural(wanted).is_empty() { one } else { many });
    out.put(", and has ");
    out.put_number(found as u64);
}
