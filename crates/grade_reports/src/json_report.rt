//! Verdicts as JSON ("JSON", docs/LAB_REFERENCE.md).

use crate::case_scores::{earned_points, score_of};
use crate::cells::put_made;
use crate::reports::ReportedRow;
use grade_rows::judges::{Known, Witness};
use grade_rows::{CaseRow, CountedEnd, ReportLine, SourcePosition};
use lab_json::{List, Object, digits, line_value, text_value, turns_value};
use lab_requests::Undecided;
use plain_text::TextWriter;
use serde_json::Value;
use std::alloc::{AllocError, Global};

/// Adds the object of a submission.
pub(crate) fn put_json(out: &mut TextWriter, reported: &ReportedRow<'_>) {
    put_object(out, grade_value(out.alloc(), reported));
}

/// Adds an object and the end of its line, unless memory was refused for it.
pub(crate) fn put_object(out: &mut TextWriter, object: Result<Value, AllocError>) {
    match object {
        Ok(object) => put_made(out, object.to_string(out.alloc())),
        Err(_) => out.lack_piece(),
    }
    out.put("\n");
}

/// The object of a submission.
fn grade_value(alloc: Global, reported: &ReportedRow<'_>) -> Result<Value, AllocError> {
    let row = reported.row;
    let mut grade = Object::of_kind(alloc, "grade");
    grade.put_text("submission", reported.submission);
    grade.put_text("verdict", row.kind.word());
    grade.put("case", some_text_value(alloc, row.case.as_ref()));
    put_known(alloc, &mut grade, row.known);
    put_witness(alloc, &mut grade, &row.witness);
    grade.put("missed", missed_value(alloc, row.missed.as_ref()));
    put_points(&mut grade, reported);
    grade.put(
        "cases",
        cases_value(alloc, reported.form.undecided, &row.cases),
    );
    grade.put("place", place_value(alloc, row.place));
    grade.put("ends", ends_value(alloc, &row.ends));
    grade.put("page", some_text_value(alloc, row.page.as_ref()));
    grade.whole()
}

/// Puts the points that a submission has earned, and how many there are.
fn put_points(grade: &mut Object, reported: &ReportedRow<'_>) {
    let earned = earned_points(reported.form.undecided, &reported.row.cases);
    grade.put_number("points", earned);
    grade.put_number("max_points", reported.form.points);
}

/// The rows of cases.
fn cases_value(
    alloc: Global,
    undecided: Undecided,
    cases: &[CaseRow],
) -> Result<Value, AllocError> {
    let mut values = List::new(alloc);
    for case in cases {
        values.put(case_value(alloc, undecided, case));
    }
    values.whole()
}

/// The row of a case.
fn case_value(alloc: Global, undecided: Undecided, case: &CaseRow) -> Result<Value, AllocError> {
    let mut object = Object::new(alloc);
    object.put("case", some_text_value(alloc, case.name.as_ref()));
    object.put("hidden", Ok(Value::Bool(case.is_hidden)));
    object.put_text("verdict", case.kind.word());
    object.put("points", Ok(score_value(undecided, case)));
    object.put_number("max_points", u64::from(case.points));
    put_known(alloc, &mut object, case.known);
    put_witness(alloc, &mut object, &case.witness);
    object.put("missed", missed_value(alloc, case.missed.as_ref()));
    object.whole()
}

/// The score by a case; null where it has none.
fn score_value(undecided: Undecided, case: &CaseRow) -> Value {
    match score_of(undecided, case.kind, case.points) {
        Some(score) => Value::from(u64::from(score)),
        None => Value::Null,
    }
}

/// A text that may be missing.
fn some_text_value(alloc: Global, text: Option<&String>) -> Result<Value, AllocError> {
    match text {
        Some(text) => text_value(alloc, text),
        None => Ok(Value::Null),
    }
}

/// A number that may be missing.
fn some_number_value(number: Option<usize>) -> Value {
    match number {
        Some(number) => Value::from(number),
        None => Value::Null,
    }
}

/// Puts how the verdict is known: `every` schedule, `some` of them, `seeds`, or null; and how many states and seeds.
fn put_known(alloc: Global, grade: &mut Object, known: Known) {
    let word = match word_of(known) {
        Some(word) => text_value(alloc, word),
        None => Ok(Value::Null),
    };
    grade.put("known", word);
    grade.put("worlds", Ok(some_number_value(known.worlds)));
    grade.put("seeds", Ok(some_number_value(known.seeds)));
}

/// The word for how a verdict is known.
fn word_of(known: Known) -> Option<&'static str> {
    match (known.worlds, known.seeds) {
        (Some(_), _) if known.is_every => Some("every"),
        (Some(_), _) => Some("some"),
        (None, Some(_)) => Some("seeds"),
        (None, None) => None,
    }
}

/// Puts the seed, as digits, and the schedule that show it; each is null if it is not by this one.
fn put_witness(alloc: Global, object: &mut Object, witness: &Witness) {
    let seed = match witness {
        Witness::Seed(seed) => digits(alloc, *seed),
        Witness::None | Witness::Schedule(_) => Ok(Value::Null),
    };
    object.put("seed", seed);
    let schedule = match witness {
        Witness::Schedule(steps) => turns_value(alloc, steps),
        Witness::None | Witness::Seed(_) => Ok(Value::Null),
    };
    object.put("schedule", schedule);
}

/// The line that is missed: its number and its words; null if none is.
fn missed_value(alloc: Global, missed: Option<&ReportLine>) -> Result<Value, AllocError> {
    match missed {
        Some(line) => line_value(alloc, line.number, &line.text),
        None => Ok(Value::Null),
    }
}

/// Where a source has its first fault: a list of the line and the column; null where it has none.
fn place_value(alloc: Global, place: Option<SourcePosition>) -> Result<Value, AllocError> {
    let Some(position) = place else {
        return Ok(Value::Null);
    };
    let mut place = List::new(alloc);
    place.put_number(position.line as u64);
    place.put_number(position.column as u64);
    place.whole()
}

/// The ends that are counted.
fn ends_value(alloc: Global, ends: &[CountedEnd]) -> Result<Value, AllocError> {
    let mut values = List::new(alloc);
    for end in ends {
        values.put(end_value(alloc, end));
    }
    values.whole()
}

/// Ends that are counted as one.
fn end_value(alloc: Global, end: &CountedEnd) -> Result<Value, AllocError> {
    let kind = match end.kind {
        Some(kind) => kind.json_name(),
        None => "broken",
    };
    let mut object = Object::new(alloc);
    object.put_text("end", kind);
    object.put_number("count", end.count as u64);
    put_witness(alloc, &mut object, &end.witness);
    object.put("missed", missed_value(alloc, end.missed.as_ref()));
    object.whole()
}
