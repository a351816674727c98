//! Verdicts as Moodle's grading table.

use crate::case_scores::{earned_points, has_all_scores};
use crate::cells::put_csv_cell;
use crate::feedback::put_verdicts;
use crate::reports::ReportedRow;
use grade_rows::GradeRow;
use lab_requests::Undecided;
use plain_text::{TextWriter, plain};
use std::alloc::{AllocError, Global};

/// The columns of the table, by the names that Moodle looks for. It finds a student by the first one, and takes no table
/// without the date of the grade.
pub(crate) const MOODLE_COLUMNS: &str = "\"Identifier\",\"Full name\",\"Grade\",\"Maximum Grade\",\
    \"Last modified (grade)\",\"Feedback comments\"\r\n";

/// What Moodle writes as the date of a grade that nobody has given yet.
const NO_DATE: &str = "\"-\"";

/// What stands after the name and the number of a student in the name of a folder that Moodle makes.
pub const MOODLE_FOLDER_MARK: &str = "_assignsubmission_";

/// Who handed a submission in.
#[derive(Clone, Copy)]
struct Participant<'a> {
    /// The name.
    name: &'a str,
    /// Moodle's number of the submission; empty where the path has no folder that Moodle made.
    number: &'a str,
}

/// Who handed in the submission of a path, by the folder `NAME_NUMBER_assignsubmission_..` in it; else the path as a name.
fn participant_of(path: &str) -> Participant<'_> {
    for part in path.split('/') {
        if let Some((front, _)) = part.split_once(MOODLE_FOLDER_MARK)
            && let Some((name, number)) = front.rsplit_once('_')
            && is_number(number)
        {
            return Participant { name, number };
        }
    }
    Participant {
        name: path,
        number: "",
    }
}

/// Whether a text is decimal digits, one at least.
fn is_number(text: &str) -> bool {
    !text.is_empty() && text.bytes().all(|byte| byte.is_ascii_digit())
}

/// Adds the line of a submission. Its grade is empty where a case has no score.
pub(crate) fn put_moodle(out: &mut TextWriter, reported: &ReportedRow<'_>) {
    let participant = participant_of(reported.submission);
    put_identifier(out, participant.number);
    out.put(",");
    put_csv_text(out, plain(out.alloc(), participant.name));
    out.put(",");
    put_grade(out, reported.form.undecided, reported.row);
    out.put(",\"");
    out.put_number(reported.form.points);
    out.put_all(&["\",", NO_DATE, ","]);
    let comments = comments_of(out.alloc(), reported);
    put_csv_text(out, comments);
    out.put("\r\n");
}

/// Adds the cell of Moodle's number of a submission, where it has one.
fn put_identifier(out: &mut TextWriter, number: &str) {
    out.put("\"");
    if !number.is_empty() {
        out.put("Participant ");
        out.put(number);
    }
    out.put("\"");
}

/// Adds a text that was made as a cell, unless memory was refused for it.
fn put_csv_text(out: &mut TextWriter, made: Result<String, AllocError>) {
    match made {
        Ok(text) => put_csv_cell(out, &text),
        Err(_) => out.lack_piece(),
    }
}

/// What a student is said of each case, without the end of the last line.
fn comments_of(alloc: Global, reported: &ReportedRow<'_>) -> Result<String, AllocError> {
    let mut comments = TextWriter::new(alloc);
    put_verdicts(&mut comments, reported.form.undecided, reported.row);
    let comments = comments.take_text()?;
    String::from_str(alloc, comments.trim_end())
}

/// Adds the sum of the points of a submission; nothing where a case has no score.
fn put_grade(out: &mut TextWriter, undecided: Undecided, row: &GradeRow) {
    out.put("\"");
    if has_all_scores(undecided, &row.cases) {
        out.put_number(earned_points(undecided, &row.cases));
    }
    out.put("\"");
}
