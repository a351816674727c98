//! The command `grade`: the submissions of a class, judged by the same cases.
#![tactic(auto)]

mod class_flow;
mod class_stages;
mod grade_notes;
mod grading;
mod kept_results;
mod merged_class;
mod option_sums;
mod page_folder;
mod page_names;
mod progress;
mod side_by_side;
mod student_folders;
mod verdict_pages;

pub use grading::grade;
pub use merged_class::merge;
