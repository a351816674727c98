//! Sessions of the debugger, which replays a schedule to any position and looks at the world there
//! ("Debugger", docs/FORMATS.md).
#![tactic(auto)]

mod begin_fault;
mod breakpoints;
mod checkpoints;
mod points;
mod replay;
mod session;
mod stop_finder;
mod watched_words;

pub use begin_fault::BeginFault;
pub use points::Point;
pub use session::Session;
