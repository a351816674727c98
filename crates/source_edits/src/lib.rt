//! Edits of source texts that leave the image as it is, and the words of a line that they go by: the one layout of a text,
//! and another name for a label (docs/EDITORS.md, "The language").
#![tactic(auto)]

mod label_places;
mod laying_out;
mod renaming;
mod words;

pub use label_places::{NamePlace, declares, name_on, places_of_name};
pub use laying_out::layout_edits;
pub use renaming::{RenameFault, is_name, rename_edits};
pub use words::{LineWord, WordRole, comment_column, words_of};
