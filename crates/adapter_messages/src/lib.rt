//! Messages of the Debug Adapter Protocol: requests that are read, responses and events that are sent, and what is answered
//! before a program is launched (docs/EDITORS.md).
#![tactic(auto)]

mod commands;
mod connection;
mod greeting;
mod requests;

pub use commands::{DapCommand, MoveCommand, PointCommand, ViewCommand};
pub use connection::{Connection, Events, say_launched};
pub use greeting::{Client, Flow, greet, no_command};
pub use requests::{DapRequest, read_request};
