//! The program that a command is asked about: with the words of a case in place of its own, and with what `check` knows of it
//! ("Words of a case" and "Checks", docs/LAB_REFERENCE.md).
#![tactic(auto)]

mod asked_rounds;
mod cells_files;
mod given_words;
mod lacking_names;
mod reading;
mod warnings;

pub use asked_rounds::round_asked;
pub use cells_files::cells_of;
pub use given_words::image_with_words;
pub use lacking_names::lacking_words;
pub use reading::{WarnedProgram, read_asked_program, read_warned_program};
pub use run_rounds::EndRound;
pub use warnings::{WarningChoice, warnings_of};
