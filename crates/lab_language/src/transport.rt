//! Where messages come from, and where answers go.

use command_parts::{LabFault, write_out};
use editor_wire::{Inbox, InboxFault};
use language_messages::{Connection, Incoming, incoming_of};
use serde_json::Value;
use std::alloc::{AllocError, Global};
use std::io::Write;
use std::sync::Wait;

/// Where messages come from, and where they go.
#[derive(Drop)]
pub(crate) struct Transport<'a, W> {
    alloc: Global,
    inbox: Inbox,
    /// What is sent to the client.
    pub(crate) connection: Connection,
    output: &'a mut W,
}

impl<'a, W: Write> Transport<'a, W> {
    /// A transport by which nothing was sent.
    pub(crate) fn new(alloc: Global, inbox: Inbox, output: &'a mut W) -> Transport<'a, W> {
        Transport {
            alloc,
            inbox,
            connection: Connection::new(alloc),
            output,
        }
    }

    /// Writes what is to be sent.
    pub(crate) fn flush(&mut self) -> Result<(), LabFault> {
        let bytes = self.connection.outbox.take_bytes(self.alloc)?;
        write_out(self.output, bytes.as_bytes())
    }

    /// Writes what is to be sent, and waits for the next message; None at the end of the input.
    pub(crate) fn next<X: Wait>(&mut self, rt: &X) -> Result<Option<Incoming>, LabFault> {
        self.flush()?;
        let heard = self.inbox.next(rt);
        self.incoming_in(heard)
    }

    /// The same where one has come already, and else None.
    pub(crate) fn next_there<X: Wait>(&mut self, rt: &X) -> Result<Option<Incoming>, LabFault> {
        self.flush()?;
        let heard = self.inbox.next_there(rt);
        self.incoming_in(heard)
    }

    /// The message that came, where there is one; or why none comes any more.
    fn incoming_in(
        &self,
        heard: Result<Option<Value>, InboxFault>,
    ) -> Result<Option<Incoming>, LabFault> {
        match heard {
            Ok(Some(message)) => Ok(Some(incoming_of(self.alloc, message)?)),
            Ok(None) => Ok(None),
            Err(fault) => Err(not_heard(self.alloc, fault)?),
        }
    }
}

/// Why no message comes any more, as the command says it.
fn not_heard(alloc: Global, fault: InboxFault) -> Result<LabFault, AllocError> {
    match fault {
        InboxFault::Input(error) => {
            Ok(LabFault::Words(format!(in alloc; "-: read failed: {error}")?))
        }
        InboxFault::NoMemory => Ok(LabFault::NoMemory),
    }
}
