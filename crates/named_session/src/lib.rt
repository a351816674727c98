//! A session of the debugger with the names of its program's text.
#![tactic(auto)]

mod code_places;
mod last_steps;
mod named_session;
mod named_words;
mod reasons;
mod user_names;

pub use last_steps::{LastStep, fault_words};
pub use named_session::NamedSession;
pub use user_names::{UserName, read_name};
