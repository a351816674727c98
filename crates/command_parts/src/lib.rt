//! What the commands of the lab have in common: what they read, how they run a program, what they answer.
#![tactic(auto)]

mod answer;
mod inputs;
mod json_lines;
mod lab_fault;
mod links;
mod loose_schedules;
mod names_in_folders;
mod number_styles;
mod outputs;
mod programs;
mod regular_files;
mod runs;
mod star_words;
mod stars;
mod writing_out;

pub use answer::CommandAnswer;
pub use end_kinds::Status;
pub use image_machines::loaded;
pub use inputs::Inputs;
pub use json_lines::push_object;
pub use lab_fault::LabFault;
pub use lab_texts as texts;
pub use links::LinkOut;
pub use loose_schedules::check_loose_schedule;
pub use names_in_folders::{folder_names, slash_after};
pub use number_styles::style_of;
pub use output_files::NewFile;
pub use programs::{Program, ProgramFault, is_image, program_in, program_of, read_program};
pub use regular_files::RegularFile;
pub use runs::{made_by, read_steps, steps_of};
pub use source_checks::SourceText;
pub use writing_out::{write_out, written};
