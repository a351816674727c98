//! The commands `check`, `fmt`, `schedule`, `asm`, `explain`, `word` and `new`: they judge files, lay source texts out,
//! make schedules and images, say what words mean, and begin programs.
#![tactic(auto)]

mod assembling;
mod checking;
mod first_programs;
mod layouts;
mod mendings;
mod messages;
mod new_programs;
mod scheduling;
mod words;

pub use assembling::assemble_file;
pub use checking::check;
pub use layouts::lay_out;
pub use new_programs::start_program;
pub use scheduling::make_schedule;
pub use words::{explain, show_word};
