//! The thread that reads messages and passes them on.

use crate::framing::{Frame, Frames};
use crate::inbox::{Inbox, InboxFault, ReceivedMessage};
use crate::values::message_of;
use crossbeam_channel::Sender;
use serde_json::Value;
use std::alloc::{AllocError, Global};
use std::io::Read;
use std::sync::Wait;
use std::sync::atomic::{AtomicBool, Ordering};

/// The bytes that one read asks for.
const CHUNK: usize = 4_096;

/// How many messages wait at most while another is answered.
const WAITING: usize = 4;

/// Where the thread that reads passes messages on.
pub type MessageSender = Sender<ReceivedMessage, Global>;

/// By which texts of which members a message asks for the end, so that none is read after it.
#[derive(Clone, Copy)]
pub struct EndMark {
    /// Names of members, each with its text.
    pub members: &'static [(&'static str, &'static str)],
}

impl EndMark {
    /// Whether a message asks for the end.
    fn is_on(self, message: &Value) -> bool {
        for (name, text) in self.members {
            if message.get(*name).and_then(Value::as_str) != Some(*text) {
                return false;
            }
        }
        true
    }
}

/// The two ends by which messages come from the thread that reads.
pub fn bounded_inbox(alloc: Global) -> Result<(MessageSender, Inbox), AllocError> {
    let (sender, receiver) = crossbeam_channel::bounded(alloc, WAITING)?;
    Ok((sender, Inbox::of(receiver)))
}

/// Reads messages and passes them on, up to one that asks for the end, or to the end of the input; unless who answers has
/// given up already: where the system has no thread for it, this comes last.
pub fn read_if_first<X: Wait, R: Read>(
    rt: &X,
    alloc: Global,
    is_begun: &AtomicBool,
    end: EndMark,
    input: &mut R,
    sender: MessageSender,
) {
    if !is_begun.swap(true, Ordering::SeqCst) {
        read_frames(rt, alloc, end, input, sender);
    }
}

/// Reads messages and passes them on, up to one that asks for the end, or to the end of the input. What keeps it from
/// reading on is passed on too.
fn read_frames<X: Wait, R: Read>(
    rt: &X,
    alloc: Global,
    end: EndMark,
    input: &mut R,
    sender: MessageSender,
) {
    let mut frames = Frames::new(alloc);
    let mut chunk = [0u8; CHUNK];
    for _ in 0..u64::MAX {
        let count = match input.read(&mut chunk) {
            Ok(0) => return,
            Ok(count) => count,
            Err(error) => {
                let _ = sender.send(rt, Err(InboxFault::Input(error)));
                return;
            }
        };
        for byte in chunk.get(..count).unwrap_or(b"") {
            if !pass_on(rt, alloc, end, &mut frames, *byte, &sender) {
                return;
            }
        }
    }
}

/// Takes a byte, and passes on what ends with it. Whether more is to be read.
fn pass_on<X: Wait>(
    rt: &X,
    alloc: Global,
    end: EndMark,
    frames: &mut Frames,
    byte: u8,
    sender: &MessageSender,
) -> bool {
    match frames.take(byte) {
        Ok(None) => true,
        Ok(Some(frame)) => send_on(rt, end, received_of(alloc, &frame), sender),
        Err(AllocError) => send_on(rt, end, Err(InboxFault::NoMemory), sender),
    }
}

/// What is passed on of what came in.
fn received_of(alloc: Global, frame: &Frame) -> ReceivedMessage {
    Ok(message_of(alloc, frame)?)
}

/// Passes on what came in. Whether more is to be read: not after a message that asks for the end, nor after a fault.
fn send_on<X: Wait>(
    rt: &X,
    end: EndMark,
    received: ReceivedMessage,
    sender: &MessageSender,
) -> bool {
    let is_last = match &received {
        Ok(message) => end.is_on(message),
        Err(_) => true,
    };
    sender.send(rt, received).is_ok() && !is_last
}
