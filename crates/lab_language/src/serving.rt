//! The command `lsp`: messages of an editor from standard input, answers on standard output.

use crate::transport::Transport;
use command_parts::{LabFault, Status};
use editor_wire::{EndMark, Inbox, bounded_inbox, has_begun, has_second_thread, read_if_first};
use language_messages::Incoming;
use language_server::{LanguageFlow, LanguageServer};
use std::alloc::Global;
use std::io::{Read, Write};
use std::marker::Send;
use std::sync::Wait;
use std::sync::atomic::AtomicBool;
use std::thread;
use std::thread::Threads;
use std::time::Clock;

/// Why nothing is answered where the system starts no thread.
const NO_THREAD: &str = "lsp takes a second thread, and the system starts none";

/// By what a message says that the session ends.
const END: EndMark = EndMark {
    members: &[("method", "exit")],
};

/// Answers the messages on standard input. A thread reads them, so that one is seen before a text is checked that has
/// changed again.
pub fn serve_language<X: Threads + Wait + Clock + Sync, R: Read + Send, W: Write>(
    rt: &X,
    alloc: Global,
    input: &mut R,
    output: &mut W,
) -> Result<Status, LabFault> {
    if !has_second_thread(rt) {
        return Err(no_thread(alloc));
    }
    let (sender, inbox) = bounded_inbox(alloc)?;
    let is_begun = AtomicBool::new(false);
    let (_, served) = thread::join(
        rt,
        || read_if_first(rt, alloc, &is_begun, END, input, sender),
        || serve_if_begun(rt, alloc, &is_begun, inbox, output),
    );
    served
}

/// That the system starts no thread.
fn no_thread(alloc: Global) -> LabFault {
    match String::from_str(alloc, NO_THREAD) {
        Ok(words) => LabFault::Words(words),
        Err(_) => LabFault::NoMemory,
    }
}

/// Answers messages, if the thread that reads them begins.
fn serve_if_begun<X: Wait + Clock, W: Write>(
    rt: &X,
    alloc: Global,
    is_begun: &AtomicBool,
    inbox: Inbox,
    output: &mut W,
) -> Result<Status, LabFault> {
    if !has_begun(rt, is_begun) {
        return Err(no_thread(alloc));
    }
    let mut transport = Transport::new(alloc, inbox, output);
    serve(rt, alloc, &mut transport)
}

/// Answers the messages that come, up to the one that says the end, or to the last. A text that has changed is checked when
/// no further message waits. The end is a fault unless the client has asked for it before.
fn serve<X: Wait, W: Write>(
    rt: &X,
    alloc: Global,
    transport: &mut Transport<'_, W>,
) -> Result<Status, LabFault> {
    let mut server = LanguageServer::new(alloc);
    for _ in rt.forever() {
        let incoming = if server.has_due() {
            transport.next_there(rt)?
        } else {
            match transport.next(rt)? {
                Some(incoming) => Some(incoming),
                None => return Ok(status_of(&server)),
            }
        };
        match incoming {
            Some(Incoming::Request(request)) => {
                server.answer(&mut transport.connection, &request)?;
            }
            Some(Incoming::Notification(notification)) => {
                if server.note(&mut transport.connection, &notification)? == LanguageFlow::End {
                    transport.flush()?;
                    return Ok(status_of(&server));
                }
            }
            None => server.check_one(&mut transport.connection)?,
        }
    }
    unreachable!()
}

/// How a session has ended.
fn status_of(server: &LanguageServer) -> Status {
    if server.is_shut_down() {
        Status::Done
    } else {
        Status::Fault
    }
}
