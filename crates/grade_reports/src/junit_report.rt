//! Verdicts as the XML of JUnit's reports.

use crate::report_classes::ReportClass;
use crate::reports::ReportedRow;
use crate::student_rows::row_for_student;
use grade_rows::judges::VerdictKind;
use grade_rows::{CaseRow, GradeRow, reason_by_case, why_of};
use plain_text::{TextWriter, front_of, plain};
use std::alloc::{AllocError, Global};

/// How many characters of a text an attribute has at most. (Readers of XML refuse one of 10 MB.)
const LONGEST_ATTRIBUTE: usize = 100_000;

/// What the only case is called, which has no name.
const ONLY_CASE: &str = "expectations";

/// What is called so of a submission that is no program.
const NO_CASE: &str = "program";

/// The report of all submissions: a test suite for each, with a test case for each case.
pub(crate) fn junit_report(alloc: Global, rows: &[ReportedRow<'_>]) -> Result<String, AllocError> {
    let mut out = TextWriter::new(alloc);
    out.put("<?xml version=\"1.0\" encoding=\"UTF-8\"?>\n<testsuites>\n");
    for reported in rows {
        put_suite(&mut out, reported);
    }
    out.put("</testsuites>\n");
    out.take_text()
}

/// Adds the test suite of a submission. One that is no program has one test case, which is an error.
fn put_suite(out: &mut TextWriter, reported: &ReportedRow<'_>) {
    let row = reported.row;
    out.put("<testsuite name=\"");
    put_xml(out, reported.submission);
    put_counts(out, row);
    put_properties(out, row);
    for case in row.cases.iter() {
        put_case(out, reported.submission, case);
    }
    if row.cases.is_empty() {
        let message = why_of(out.alloc(), row, 0);
        put_test(out, reported.submission, NO_CASE);
        put_outcome(out, row.kind, message);
    }
    out.put("</testsuite>\n");
}

/// Adds how many test cases a submission has, and how many of each class.
fn put_counts(out: &mut TextWriter, row: &GradeRow) {
    put_count(out, "\" tests=\"", row.cases.len().max(1));
    put_count(out, "\" failures=\"", count_of(row, ReportClass::Failed));
    put_count(out, "\" errors=\"", count_of(row, ReportClass::NotRun));
    put_count(out, "\" skipped=\"", count_of(row, ReportClass::Skipped));
    out.put("\">\n");
}

/// Adds the front of an attribute, and its number.
fn put_count(out: &mut TextWriter, front: &str, count: usize) {
    out.put(front);
    out.put_number(count as u64);
}

/// How many test cases of a submission are of a class.
fn count_of(row: &GradeRow, class: ReportClass) -> usize {
    if row.cases.is_empty() {
        return usize::from(ReportClass::of(row.kind) == class);
    }
    row.cases
        .iter()
        .filter(|case: &&CaseRow| ReportClass::of(case.kind) == class)
        .count()
}

/// Adds how many points there are for each case, and which are hidden.
fn put_properties(out: &mut TextWriter, row: &GradeRow) {
    if row.cases.is_empty() {
        return;
    }
    out.put("<properties>\n");
    for case in row.cases.iter() {
        put_properties_of(out, case);
    }
    out.put("</properties>\n");
}

/// Adds how many points there are for a case, and whether it is hidden.
fn put_properties_of(out: &mut TextWriter, case: &CaseRow) {
    out.put("<property name=\"points ");
    put_xml(out, name_of(case));
    put_count(out, "\" value=\"", case.points as usize);
    out.put("\"/>\n");
    if case.is_hidden {
        out.put("<property name=\"hidden ");
        put_xml(out, name_of(case));
        out.put("\" value=\"true\"/>\n");
    }
}

/// What a case is called.
fn name_of(case: &CaseRow) -> &str {
    match &case.name {
        Some(name) => name.as_str(),
        None => ONLY_CASE,
    }
}

/// Adds the test case of a submission that a case is: of a hidden case the verdict alone.
fn put_case(out: &mut TextWriter, submission: &str, case: &CaseRow) {
    let student = row_for_student(case);
    let message = match student.shown {
        Some(shown) => reason_by_case(out.alloc(), shown),
        None => String::from_str(out.alloc(), "a hidden case"),
    };
    put_test(out, submission, name_of(case));
    put_outcome(out, student.kind, message);
}

/// Adds the front of a test case of this name.
fn put_test(out: &mut TextWriter, submission: &str, name: &str) {
    out.put("<testcase classname=\"");
    put_xml(out, submission);
    out.put("\" name=\"");
    put_xml(out, name);
}

/// Adds what came of a test case, with the message that was made for it, and its end.
fn put_outcome(out: &mut TextWriter, kind: VerdictKind, message: Result<String, AllocError>) {
    let Some(element) = element_of(ReportClass::of(kind)) else {
        out.put("\"/>\n");
        return;
    };
    out.put("\"><");
    out.put(element);
    out.put_all(&[" type=\"", kind.word(), "\" message=\""]);
    match message {
        Ok(message) => put_xml(out, &message),
        Err(_) => out.lack_piece(),
    }
    out.put("\"/></testcase>\n");
}

/// The element of a test case of this class; None of one that is passed.
fn element_of(class: ReportClass) -> Option<&'static str> {
    match class {
        ReportClass::Passed => None,
        ReportClass::Failed => Some("failure"),
        ReportClass::NotRun => Some("error"),
        ReportClass::Skipped => Some("skipped"),
    }
}

/// Adds a text as the value of an attribute, cut after 100,000 characters. A control byte, and a character that XML does
/// not have, is written as its escape.
fn put_xml(out: &mut TextWriter, text: &str) {
    let front = front_of(text, LONGEST_ATTRIBUTE);
    match plain(out.alloc(), front) {
        Ok(front) => put_escaped(out, &front),
        Err(_) => out.lack_piece(),
    }
    if front.len() < text.len() {
        out.put("..");
    }
}

/// Adds a text without control bytes as the value of an attribute.
fn put_escaped(out: &mut TextWriter, text: &str) {
    for letter in text.chars() {
        match escape_of(letter) {
            Some(escape) => out.put(escape),
            None => out.put_letter(letter),
        }
    }
}

/// What is written for a character that XML does not have as it is.
fn escape_of(letter: char) -> Option<&'static str> {
    match letter {
        '&' => Some("&amp;"),
        '<' => Some("&lt;"),
        '>' => Some("&gt;"),
        '"' => Some("&quot;"),
        '\u{fffe}' => Some("\\ufffe"),
        '\u{ffff}' => Some("\\uffff"),
        _ => None,
    }
}
