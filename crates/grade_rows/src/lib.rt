//! What `grade` says of submissions, a row each, and why, in words.
#![tactic(auto)]

mod lists;
mod reasons;
mod report_forms;
mod row_copies;
mod rows;

pub use judgements as judges;
pub use judgements::{outcomes, searches};
pub use lists::{put_list, put_plain_list};
pub use reasons::{put_turns, put_witness, reason_by_case, reason_of, why_of};
pub use report_forms::ReportForm;
pub use rows::{CaseRow, CountedEnd, GradeRow, ReportLine, SourcePosition};
