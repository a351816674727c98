//! The lines of a file of kept results: the list of a class, and a result each, which end with checksums of themselves
//! (docs/LAB_REFERENCE.md, "Kept results").
#![tactic(auto)]

mod hex;
mod lines;
mod members;
mod read_rows;
mod row_values;
mod row_words;
mod sealed;

pub use grade_reports as reports;
pub use grade_reports::{judges, outcomes};
pub use hex::{checksum_of, hex_of};
pub use lines::{ClassHead, KeptResult, ResultLine, head_line, read_line, result_line};
pub use row_values::row_checksum;
