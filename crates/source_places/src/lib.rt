//! Where in a source text the words of its program, its labels and its comments stand (docs/WRITING_PROGRAMS.md).
//! Lines count from 0.
#![tactic(auto)]

mod data_names;
mod faulty_lines;
mod laws;
mod lines;
mod name_table;
mod source_places;
mod walks;

pub use data_names::{DataName, MOST_NAMES};
pub use faulty_lines::{LineFault, line_faults};
pub use laws::{data_lines_give_the_cells, program_words_stand_on_their_lines};
pub use lines::{DataLine, ProgramLine, comment_of};
pub use name_table::DataNames;
pub use source_places::{SourceLabel, SourcePlaces};
