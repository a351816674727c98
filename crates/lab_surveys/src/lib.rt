//! The command `survey`: many runs of a program by random schedules, and their ends, counted.
#![tactic(auto)]

mod coverage;
mod missed_work;
mod outcome_words;
mod survey_objects;
mod surveying;

pub use surveying::survey;
