//! Texts as the protocols of editors count them: their lines, places in a line by units of UTF-16, and edits.
#![tactic(auto)]

mod edits;
mod line_ends;
mod positions;
mod whole_edits;

pub use edits::{TextEdit, edited};
pub use line_ends::with_line_feeds;
pub use positions::{byte_at, units_before};
pub use whole_edits::edits_between;
