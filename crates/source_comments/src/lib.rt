//! The comments of source texts that are not ASCII: taken to ASCII for the assembler, found, and judged whether they can be
//! shown (docs/WRITING_PROGRAMS.md, "Comments").
#![tactic(auto)]

mod ascii;
mod finding;
mod shown;

pub use ascii::ascii_comments;
pub use finding::{ForeignComments, foreign_comments};
pub use shown::is_showable;
