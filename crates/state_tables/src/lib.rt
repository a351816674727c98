//! The states of a space as plain lists of numbers: of each state its row, and where each stream's step leads from it
//! (docs/PLAY.md, "The data").
#![tactic(auto)]

mod depths;
mod laws;
mod number_sets;
mod rows;
mod targets;

pub use depths::depths_of;
pub use laws::rows_and_targets_give_the_space;
pub use number_sets::{NumberSets, sets_of};
pub use rows::{StateRows, rows_of};
pub use targets::targets_of;
