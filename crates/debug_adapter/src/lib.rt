//! The Debug Adapter Protocol over a session of the debugger: what a client's requests are answered (docs/EDITORS.md).
#![tactic(auto)]

mod adapter;
mod breaking;
mod code;
mod evaluating;
mod launching;
mod memory;
mod moving;
mod refusals;
mod scopes;
mod searching;
mod stop_conditions;
mod stopping;
mod streams;
mod variables;

pub use adapter::{Adapter, Origin};
pub use launching::{LaunchRequest, ScheduleChoice, launch_of};
pub use refusals::Refusal;
