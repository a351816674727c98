//! What is said of one submission that is judged by the cases of a class: its row, and what decides it as values
//! (docs/LAB_REFERENCE.md, "Judging a class").
#![tactic(auto)]

mod absent_words;
mod alone;
mod case_files;
mod case_rows;
mod case_words;
mod evasion_words;
mod given_images;
mod judging;
mod memory_shares;
mod name_words;
mod report_lines;
mod row_ends;
mod rows;
mod submissions;

pub use alone::{DecidedByCase, JudgedAlone, judged_alone};
pub use asked_programs as asked;
pub use case_files::read_cases;
pub use expectation_messages::parts;
pub use grade_rows as reports;
pub use judging::{Grading, given_by, row_on};
pub use memory_shares::most_searches;
pub use search_texts::searches;
pub use submissions::{ReadSubmission, program_or_row, read_submission};
