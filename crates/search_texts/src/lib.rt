//! What several commands say of searches and their ends: columns, the lines of files of expectations, what is not so of the
//! program as a whole, bounds and faults (docs/LAB_REFERENCE.md, "Texts", "JSON").
#![tactic(auto)]

mod bounds;
mod end_columns;
mod expectation_texts;
mod expected_lines;
mod search_faults;
mod starving_texts;
mod unkept;
mod widths;
mod work_lines;

pub use bounds::{bound_value, put_bound};
pub use command_parts as parts;
pub use end_columns::{EndCells, EndColumns, end_line};
pub use expectation_texts::push_expected;
pub use expected_lines::ExpectedLines;
pub use lab_ends as ends_in_words;
pub use program_searches as searches;
pub use search_faults::search_fault;
pub use starving_texts::{put_turns, put_waiting, stop_words};
pub use unkept::{LookedAt, push_unkept, push_unkept_objects};
pub use work_lines::{
    is_another_line, push_undecided_work, push_undecided_work_objects, work_words,
};
