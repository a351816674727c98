//! Calls that take memory, of texts, images, machines, records, runs on threads, sessions and engines: each is made, and
//! its answer compared, so that `make refuse` can refuse its allocations in turn.
#![tactic(auto)]

mod appended;
mod calls;
mod endings;
mod machines;
mod programs;
mod records;
mod runs;
mod texts;
mod written;

pub use calls::{make_files, make_machines, make_records, make_texts, print_lines};
pub use endings::Ended;
pub use programs::image_of_program;
pub use runs::{make_engines, make_runs, make_sessions};
