//! What an editor protocol over standard input and output needs: messages cut out of bytes, their JSON, an outbox of what
//! is to be written, and a thread that reads while another one answers.
#![tactic(auto)]

mod framing;
mod inbox;
mod json_text;
mod outbox;
mod quoting;
mod reading;
mod second_thread;
mod values;

pub use framing::MESSAGE_LIMIT;
pub use inbox::{Inbox, InboxFault};
pub use json_text::Json;
pub use outbox::Outbox;
pub use quoting::push_quoted;
pub use reading::{EndMark, MessageSender, bounded_inbox, read_if_first};
pub use second_thread::{has_begun, has_second_thread};
pub use values::VALUE_LIMIT;
