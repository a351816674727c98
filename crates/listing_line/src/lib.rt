//! Program words as lines of a listing, and the laws that each line of a listing is read back as what it was printed
//! from (docs/FORMATS.md, "Listing").
#![tactic(auto)]

mod laws;
mod operations;
mod word_lines;

pub use laws::{listed_directives_are_read_back, listed_words_are_read_back};
pub use word_lines::push_word_line;
