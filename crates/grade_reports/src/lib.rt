//! The formats in which rows are written, and what a row is worth.
#![tactic(auto)]

mod case_scores;
mod cells;
mod command_words;
mod feedback;
mod gradescope_report;
mod json_report;
mod junit_report;
mod moodle_report;
mod report_classes;
mod reports;
mod row_statuses;
mod student_rows;
mod text_report;
mod tsv_report;

pub use case_scores::{earned_points, score_of};
pub use feedback::{StudentFile, feedback_of};
pub use grade_rows::{
    CaseRow, CountedEnd, GradeRow, ReportForm, ReportLine, SourcePosition, judges, outcomes,
    reason_of, searches,
};
pub use lab_json as json_values;
pub use moodle_report::MOODLE_FOLDER_MARK;
pub use reports::{ReportedRow, head_of, lines_of, report_of};
pub use row_statuses::worst_status;
pub use student_rows::{StudentRow, case_for_student, row_for_student};
