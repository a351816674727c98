//! Lines for people with colours, for a terminal (docs/LAB_REFERENCE.md, "Colours").
#![tactic(auto)]

mod colours;
mod lines;
mod words;

pub use lines::coloured;
