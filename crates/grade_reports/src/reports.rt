//! The verdicts on all submissions, written as is asked for.

use crate::gradescope_report::gradescope_report;
use crate::json_report::put_json;
use crate::junit_report::junit_report;
use crate::moodle_report::{MOODLE_COLUMNS, put_moodle};
use crate::text_report::put_row;
use crate::tsv_report::put_tsv;
use grade_rows::{GradeRow, ReportForm};
use lab_requests::GradeFormat;
use plain_text::TextWriter;
use std::alloc::{AllocError, Global};

/// A submission, what is said of it, and how it is reported.
#[derive(Clone, Copy)]
pub struct ReportedRow<'a> {
    /// Its path.
    pub submission: &'a str,
    /// What is said of it.
    pub row: &'a GradeRow,
    /// How it is reported.
    pub form: ReportForm,
}

/// What is written before the rows: of tables for people and for Moodle the names of the columns.
pub fn head_of(format: GradeFormat) -> &'static str {
    match format {
        GradeFormat::Text => "submission\tverdict\twhy\n",
        GradeFormat::Moodle => MOODLE_COLUMNS,
        GradeFormat::Tsv | GradeFormat::Json | GradeFormat::Junit | GradeFormat::Gradescope => "",
    }
}

/// The lines of one submission; nothing in a format that is written as a whole.
pub fn lines_of(alloc: Global, reported: &ReportedRow<'_>) -> Result<String, AllocError> {
    let mut out = TextWriter::new(alloc);
    match reported.form.format {
        GradeFormat::Text => put_row(&mut out, reported),
        GradeFormat::Tsv => put_tsv(&mut out, reported),
        GradeFormat::Json => put_json(&mut out, reported),
        GradeFormat::Moodle => put_moodle(&mut out, reported),
        GradeFormat::Junit | GradeFormat::Gradescope => {}
    }
    out.take_text()
}

/// What is written of all submissions, in their order, after the lines of each: in a format that is written as a whole
/// the report, and else nothing.
pub fn report_of(
    alloc: Global,
    form: ReportForm,
    reported: &[ReportedRow<'_>],
) -> Result<String, AllocError> {
    match form.format {
        GradeFormat::Junit => junit_report(alloc, reported),
        GradeFormat::Gradescope => gradescope_report(alloc, form, reported),
        GradeFormat::Text | GradeFormat::Tsv | GradeFormat::Json | GradeFormat::Moodle => {
            Ok(String::new(alloc))
        }
    }
}
