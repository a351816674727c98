//! The Language Server Protocol over source texts: what a client's requests are answered (docs/EDITORS.md, "The language").
#![tactic(auto)]

mod actions;
mod capabilities;
mod completing;
mod diagnostics;
mod documents;
mod hovering;
mod labels;
mod laying_out;
mod line_starts;
mod numbers;
mod operands;
mod ranges;
mod server;
mod symbols;

pub use server::{LanguageFlow, LanguageServer};
