//! The command `gallery`: pages of all exercises and examples, and one page that leads to them (docs/PLAY.md, "A gallery"). Also
//! the page of an exercise whose program is not right.
#![tactic(auto)]

mod cards;
mod example_cards;
mod exercise_cards;
mod failing_pages;
mod folder_lists;
mod galleries;
mod gallery_files;
mod index;
mod levels;
mod parts;
mod sentences;
mod shown_programs;
mod shown_runs;
mod writing;

pub use exercise_files as files;
pub use failing_pages::failing_page;
pub use gallery_files::{GalleryFiles, ShownExercise, WrongProgram, read_gallery};
pub use writing::write_gallery;
