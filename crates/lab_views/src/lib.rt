//! The commands `view` and `compare`: runs in words.
#![tactic(auto)]

mod comparing;
mod folding;
mod reasons;
mod round_marks;
mod run_ends;
mod shown_steps;
mod viewing;

pub use comparing::compare;
pub use viewing::view;
