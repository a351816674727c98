//! The command `debug`: forward and back in a run, by the lines of standard input.
#![tactic(auto)]

mod debug_aliases;
mod debug_ends;
mod debug_lines;
mod debug_points;
mod debug_reasons;
mod debug_registers;
mod debug_repl;
mod debug_shows;
mod debug_stops;
mod debug_tries;
mod debug_words;
mod debugging;
mod sessions;

pub use debugging::{Screen, debug};
pub use sessions::named_of;
