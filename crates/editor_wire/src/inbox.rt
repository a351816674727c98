//! Messages that came in, for who answers them.

use crossbeam_channel::Receiver;
use serde_json::Value;
use std::alloc::{AllocError, Global};
use std::io;
use std::sync::Wait;

/// Why no message comes any more, though the input has not ended.
#[derive(Clone, Copy, Debug)]
pub enum InboxFault {
    /// The input can't be read.
    Input(io::Error),
    /// Memory was refused for a message, or to read one.
    NoMemory,
}

impl From<AllocError> for InboxFault {
    fn from(_error: AllocError) -> InboxFault {
        InboxFault::NoMemory
    }
}

/// What the thread that reads passes on: the value of a message, or why there is no more.
pub(crate) type ReceivedMessage = Result<Value, InboxFault>;

/// The messages that came in, in their order. What is no JSON, or past a limit, is null.
#[derive(Drop)]
pub struct Inbox {
    receiver: Receiver<ReceivedMessage, Global>,
}

impl Inbox {
    /// The messages of a channel.
    pub(crate) fn of(receiver: Receiver<ReceivedMessage, Global>) -> Inbox {
        Inbox { receiver }
    }

    /// Waits for the next message; None at the end of the input.
    pub fn next<X: Wait>(&self, rt: &X) -> Result<Option<Value>, InboxFault> {
        match self.receiver.recv(rt) {
            Ok(received) => Ok(Some(received?)),
            Err(_) => Ok(None),
        }
    }

    /// The next message where one has come already; else None.
    pub fn next_there<X: Wait>(&self, rt: &X) -> Result<Option<Value>, InboxFault> {
        match self.receiver.try_recv(rt) {
            Ok(received) => Ok(Some(received?)),
            Err(_) => Ok(None),
        }
    }
}
