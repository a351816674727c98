//! Messages about a text: where it is wrong, what is wrong there, and how it may be mended; how they are printed.
#![tactic(auto)]

mod lines;
mod message;
mod notes;
mod shown;
mod token;

pub use lines::{TextLine, TextLines};
pub use message::{Message, Severity, Spot, push_message};
pub use notes::{MOST_FOUND, Notes, in_order};
pub use shown::put_shown;
pub use token::Token;
