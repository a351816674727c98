//! What is wrong with what is read beside source texts, in words for people: schedules and images (docs/FORMATS.md).
#![tactic(auto)]

mod images;
mod schedule_notes;
mod schedules;
mod streams;

pub use images::image_fault_words;
pub use schedules::check_schedule;
