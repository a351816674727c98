//! The command `explore`: every end that schedules of a program come to, judged by what is required.
#![tactic(auto)]

mod asked_waits;
mod end_folders;
mod end_pages;
mod endless;
mod evading_files;
mod evading_objects;
mod evading_text;
mod explored_objects;
mod explored_text;
mod exploring;
mod graphs;
mod polling;
mod waiting_files;
mod waiting_objects;
mod waiting_text;
mod written_files;

pub use exploring::show_every_end;
