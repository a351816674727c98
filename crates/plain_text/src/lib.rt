//! Texts of others, as a program's comments and the names of files, in a form that a terminal or a table may have; the last
//! names of paths; words that are counted; and texts that are put together piece by piece.
#![tactic(auto)]

mod escaping;
mod file_names;
mod plurals;
mod text_writer;

pub use escaping::{front_of, is_hidden, plain, push_plain};
pub use file_names::{file_name, stem_of};
pub use plurals::plural;
pub use text_writer::TextWriter;
