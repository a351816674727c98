//! Messages of the Language Server Protocol: requests and notifications that are read, responses and notifications that are
//! sent (docs/EDITORS.md, "The language").
#![tactic(auto)]

mod connection;
mod incoming;
mod methods;
mod parameters;
mod refusals;

pub use connection::Connection;
pub use incoming::{Incoming, Notification, Request, incoming_of};
pub use methods::{LanguageNotice, LanguageQuestion, TextQuestion};
pub use parameters::{Parameters, Position};
pub use refusals::{Refusal, RefusalKind};
