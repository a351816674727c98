//! The command `exercise`: the exercises of a folder, what is done of them, and what is said of a program.
#![tactic(auto)]

mod advice;
mod asked_pages;
mod exercising;
mod failing_programs;
mod hints;
mod judging;
mod listing;
mod missed_words;
mod mistake_runs;
mod originals;
mod reporting;
mod shortfall_words;
mod shown_answers;
mod telling;
mod typed_keys;
mod watching;

pub use asked_pages::ExercisePages;
pub use exercising::exercise;
pub use failing_programs::failing_run;
pub use watching::watch_exercise;
