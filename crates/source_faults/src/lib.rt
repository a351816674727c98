//! What is wrong with a source text, in words for people (docs/WRITING_PROGRAMS.md).
#![tactic(auto)]

mod comment_notes;
mod count_notes;
mod data_lines;
mod data_words;
mod examples;
mod foreign_names;
mod form;
mod head_notes;
mod label_notes;
mod left_out;
mod lines;
mod nearest;
mod number_words;
mod numbers;
mod operand_notes;
mod operand_words;
mod operations;
mod phrases;
mod pieces;
mod reader;
mod references;
mod sources;
mod statement_notes;
mod text_notes;
mod unreached;
mod warnings;
mod word_notes;

pub use sources::check_source;
