//! Runs as JSON: the program, the world at the start, each step with its changes, and the end (docs/LAB_REFERENCE.md,
//! "JSON"; share/schema has the schemas). 64-bit values are strings of decimal digits; all other numbers are numbers;
//! no value is a sentence.
#![tactic(auto)]

mod differences;
mod ends;
mod fields;
mod findings;
mod heads;
mod lines;
mod places;
mod runs;
mod steps;
mod streams;
mod turns;
mod values;
mod word_changes;

pub use differences::{difference_value, parting_value};
pub use ends::{end_part, end_value};
pub use fields::{Fields, object_of, put_number, put_text};
pub use findings::findings_value;
pub use heads::{RunTitle, head_value};
pub use lab_texts as texts;
pub use lines::line_value;
pub use places::{content_value, digits, outcome_name, place_name};
pub use runs::put_run;
pub use steps::{reference_value, step_part, step_value};
pub use streams::{put_streams, stream_value};
pub use turns::turns_value;
pub use values::{List, Object, text_value};

/// The version of the objects.
pub const VERSION: u64 = 2;
