//! Calls of runs on threads, of sessions and of engines.
mod alternating;
mod calls;
mod debugging;
mod engines;
mod gate;
mod kept;
mod one_machine;
mod sessions;
mod threads;
mod turns;

pub use calls::{make_engines, make_runs, make_sessions};
