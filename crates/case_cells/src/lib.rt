//! The cells of a case, in place of a program's own ("Cases", docs/FORMATS.md).
#![tactic(auto)]

mod given_cells;
mod line_words;
mod named_words;
mod reading;

pub use given_cells::image_with_cells;
pub use line_words::{SpokenRange, SpokenWords, first_other, spoken_words};
pub use named_words::{WordPlaces, name_lacking, places_by_name};
pub use reading::{CellsFault, program_of_cells, read_cells};
