//! Rows as values of JSON ("Results", docs/FORMATS.md).

use crate::hex::checksum_of;
use class_results::Checksum;
use grade_reports::json_values::{List, Object, text_value};
use grade_reports::judges::{Known, Witness};
use grade_reports::{CaseRow, CountedEnd, GradeRow, ReportLine, SourcePosition};
use processor::Step;
use serde_json::Value;
use std::alloc::{AllocError, Global};

/// The value of a row. Its page is no part of it: each call writes its own.
pub(crate) fn row_value(alloc: Global, row: &GradeRow) -> Result<Value, AllocError> {
    let mut object = Object::new(alloc);
    object.put_text("verdict", row.kind.word());
    object.put("case", some_text_value(alloc, row.case.as_ref()));
    object.put("known", known_value(alloc, row.known));
    object.put("witness", witness_value(alloc, &row.witness));
    object.put("missed", missed_value(alloc, row.missed.as_ref()));
    object.put_text("words", &row.words);
    object.put_text("finding", &row.finding);
    object.put("cases", cases_value(alloc, &row.cases));
    object.put("place", place_value(alloc, row.place));
    object.put("ends", ends_value(alloc, &row.ends));
    object.put_number("status", u64::from(row.status.number()));
    object.whole()
}

/// What is said by each case.
fn cases_value(alloc: Global, cases: &[CaseRow]) -> Result<Value, AllocError> {
    let mut values = List::new(alloc);
    for case in cases {
        values.put(case_value(alloc, case));
    }
    values.whole()
}

/// What is said by a case.
fn case_value(alloc: Global, case: &CaseRow) -> Result<Value, AllocError> {
    let mut object = Object::new(alloc);
    object.put("name", some_text_value(alloc, case.name.as_ref()));
    object.put("hidden", Ok(Value::Bool(case.is_hidden)));
    object.put_number("points", u64::from(case.points));
    object.put_text("verdict", case.kind.word());
    object.put("known", known_value(alloc, case.known));
    object.put("witness", witness_value(alloc, &case.witness));
    object.put("missed", missed_value(alloc, case.missed.as_ref()));
    object.put_text("words", &case.words);
    object.put_text("finding", &case.finding);
    object.put_number("status", u64::from(case.status.number()));
    object.whole()
}

/// The ends that are counted.
fn ends_value(alloc: Global, ends: &[CountedEnd]) -> Result<Value, AllocError> {
    let mut values = List::new(alloc);
    for end in ends {
        values.put(end_value(alloc, end));
    }
    values.whole()
}

/// Ends that are counted as one.
fn end_value(alloc: Global, end: &CountedEnd) -> Result<Value, AllocError> {
    let kind = match end.kind {
        Some(kind) => text_value(alloc, kind.json_name()),
        None => Ok(Value::Null),
    };
    let mut object = Object::new(alloc);
    object.put("end", kind);
    object.put_number("count", end.count as u64);
    object.put("witness", witness_value(alloc, &end.witness));
    object.put_text("text", &end.text);
    object.put("missed", missed_value(alloc, end.missed.as_ref()));
    object.whole()
}

/// What was looked at.
fn known_value(alloc: Global, known: Known) -> Result<Value, AllocError> {
    let bound = match known.bound {
        Some(bound) => text_value(alloc, bound.json_name()),
        None => Ok(Value::Null),
    };
    let mut object = Object::new(alloc);
    object.put("worlds", Ok(some_count_value(known.worlds)));
    object.put("every", Ok(Value::Bool(known.is_every)));
    object.put("bound", bound);
    object.put("seeds", Ok(some_count_value(known.seeds)));
    object.whole()
}

/// What shows a verdict: a seed, or the steps of a schedule; neither where nothing does.
fn witness_value(alloc: Global, witness: &Witness) -> Result<Value, AllocError> {
    let seed = match witness {
        Witness::Seed(seed) => Value::from(*seed),
        Witness::None | Witness::Schedule(_) => Value::Null,
    };
    let steps = match witness {
        Witness::Schedule(steps) => steps_value(alloc, steps),
        Witness::None | Witness::Seed(_) => Ok(Value::Null),
    };
    let mut object = Object::new(alloc);
    object.put("seed", Ok(seed));
    object.put("steps", steps);
    object.whole()
}

/// The processor and the stream of each step.
fn steps_value(alloc: Global, steps: &[Step]) -> Result<Value, AllocError> {
    let mut values = List::new(alloc);
    for step in steps {
        let mut object = Object::new(alloc);
        object.put_number("p", u64::from(step.p));
        object.put_number("s", u64::from(step.s));
        values.put(object.whole());
    }
    values.whole()
}

/// A line that is missed, by its number and its words.
fn missed_value(alloc: Global, missed: Option<&ReportLine>) -> Result<Value, AllocError> {
    let Some(line) = missed else {
        return Ok(Value::Null);
    };
    let mut object = Object::new(alloc);
    object.put_number("line", line.number as u64);
    object.put_text("text", &line.text);
    object.whole()
}

/// A place in a source, by its line and its column.
fn place_value(alloc: Global, place: Option<SourcePosition>) -> Result<Value, AllocError> {
    let Some(place) = place else {
        return Ok(Value::Null);
    };
    let mut object = Object::new(alloc);
    object.put_number("line", place.line as u64);
    object.put_number("column", place.column as u64);
    object.whole()
}

/// A text that may be missing.
pub(crate) fn some_text_value(alloc: Global, text: Option<&String>) -> Result<Value, AllocError> {
    match text {
        Some(text) => text_value(alloc, text),
        None => Ok(Value::Null),
    }
}

/// A count that may be missing.
fn some_count_value(count: Option<usize>) -> Value {
    match count {
        Some(count) => Value::from(count),
        None => Value::Null,
    }
}

/// The checksum of all that is said of a submission.
pub fn row_checksum(alloc: Global, row: &GradeRow) -> Result<Checksum, AllocError> {
    let text = row_value(alloc, row)?.to_string(alloc)?;
    Ok(checksum_of(text.as_bytes()))
}
