//! Verdicts as the results that Gradescope reads.

use crate::case_scores::{earned_points, has_all_scores, score_of};
use crate::cells::put_made;
use crate::json_report::put_object;
use crate::reports::ReportedRow;
use crate::student_rows::row_for_student;
use grade_rows::judges::VerdictKind;
use grade_rows::{CaseRow, ReportForm, reason_by_case, reason_of};
use lab_json::{List, Object, text_value};
use lab_requests::Undecided;
use plain_text::{TextWriter, plain};
use serde_json::Value;
use std::alloc::{AllocError, Global};

/// The results of all submissions: a test for each case of each, in one object. A submission that is no program is one test,
/// with no point of all.
pub(crate) fn gradescope_report(
    alloc: Global,
    form: ReportForm,
    rows: &[ReportedRow<'_>],
) -> Result<String, AllocError> {
    let mut tests = List::new(alloc);
    for reported in rows {
        put_tests(alloc, &mut tests, reported, rows.len() > 1);
    }
    let mut results = Object::new(alloc);
    results.put("tests", tests.whole());
    if !is_complete(form, rows) {
        results.put_number("score", sum_of(form, rows));
    }
    let mut out = TextWriter::new(alloc);
    put_object(&mut out, results.whole());
    out.take_text()
}

/// Whether each submission has a score by each case.
fn is_complete(form: ReportForm, rows: &[ReportedRow<'_>]) -> bool {
    for reported in rows {
        if !has_all_scores(form.undecided, &reported.row.cases) {
            return false;
        }
    }
    true
}

/// The sum of the points of all submissions.
fn sum_of(form: ReportForm, rows: &[ReportedRow<'_>]) -> u64 {
    let mut sum: u64 = 0;
    for reported in rows {
        sum = sum.saturating_add(earned_points(form.undecided, &reported.row.cases));
    }
    sum
}

/// Puts the tests of a submission, with its path in their names where there are several submissions.
fn put_tests(alloc: Global, tests: &mut List, reported: &ReportedRow<'_>, is_named: bool) {
    let path = if is_named { reported.submission } else { "" };
    for case in reported.row.cases.iter() {
        tests.put(test_value(alloc, reported, case, path));
    }
    if reported.row.cases.is_empty() {
        tests.put(no_program_value(alloc, reported));
    }
}

/// The test that a case is of a submission. Students do not see that of a hidden case, and it has no values.
fn test_value(
    alloc: Global,
    reported: &ReportedRow<'_>,
    case: &CaseRow,
    path: &str,
) -> Result<Value, AllocError> {
    let mut test = Object::new(alloc);
    test.put("name", name_value(alloc, reported, case, path));
    put_score(&mut test, reported.form.undecided, case.kind, case.points);
    test.put("output", output_value(alloc, case));
    test.put_text("output_format", "text");
    let visibility = if case.is_hidden { "hidden" } else { "visible" };
    test.put_text("visibility", visibility);
    test.whole()
}

/// Puts the score by a case, and how many points there are; nothing where it has none.
fn put_score(test: &mut Object, undecided: Undecided, kind: VerdictKind, points: u32) {
    if let Some(score) = score_of(undecided, kind, points) {
        test.put_number("score", u64::from(score));
        test.put_number("max_score", u64::from(points));
    }
}

/// What a test is called: by its case, and by its submission where there are several, or where the case has no name.
fn name_value(
    alloc: Global,
    reported: &ReportedRow<'_>,
    case: &CaseRow,
    path: &str,
) -> Result<Value, AllocError> {
    let mut out = TextWriter::new(alloc);
    match &case.name {
        Some(name) => {
            if !path.is_empty() {
                out.put_plain(path);
                out.put(": ");
            }
            out.put_plain(name);
        }
        None => out.put_plain(reported.submission),
    }
    Ok(Value::String(out.take_text()?))
}

/// What a student may read of a case.
fn output_value(alloc: Global, case: &CaseRow) -> Result<Value, AllocError> {
    let student = row_for_student(case);
    match student.shown {
        Some(shown) => words_value(alloc, student.kind, reason_by_case(alloc, shown)),
        None => text_value(alloc, student.kind.word()),
    }
}

/// The word of a verdict, and why it is so, which was made.
fn words_value(
    alloc: Global,
    kind: VerdictKind,
    why: Result<String, AllocError>,
) -> Result<Value, AllocError> {
    let mut out = TextWriter::new(alloc);
    out.put(kind.word());
    out.put(": ");
    put_made(&mut out, why);
    Ok(Value::String(out.take_text()?))
}

/// The test of a submission that is no program.
fn no_program_value(alloc: Global, reported: &ReportedRow<'_>) -> Result<Value, AllocError> {
    let mut test = Object::new(alloc);
    let kind = reported.row.kind;
    test.put("name", submission_value(alloc, reported.submission));
    test.put_number("score", 0);
    test.put_number("max_score", reported.form.points);
    let why = reason_of(alloc, reported.row, 0);
    test.put("output", words_value(alloc, kind, why));
    test.put_text("output_format", "text");
    test.put_text("visibility", "visible");
    test.whole()
}

/// The path of a submission without control bytes.
fn submission_value(alloc: Global, path: &str) -> Result<Value, AllocError> {
    Ok(Value::String(plain(alloc, path)?))
}
