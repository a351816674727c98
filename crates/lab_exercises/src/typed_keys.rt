//! What a person types while a program is watched: a letter a line.

use crossbeam_channel::Sender;
use std::alloc::Global;
use std::io;
use std::io::Read;
use std::sync::Wait;
use std::sync::atomic::{AtomicBool, Ordering};

/// The bytes that one read asks for.
const CHUNK: usize = 256;

/// What a line asks for, by its first letter.
#[derive(Clone, Copy, Debug, PartialEq, Eq)]
pub(crate) enum TypedKey {
    /// `h`: the next hint.
    Hint,
    /// `p`: the page of the run that goes wrong.
    Page,
    /// `n`: the next exercise.
    Next,
    /// `q`: the end.
    Quit,
    /// Another letter.
    Other,
}

impl TypedKey {
    /// What a letter asks for.
    fn of(letter: u8) -> TypedKey {
        match letter {
            b'h' => TypedKey::Hint,
            b'p' => TypedKey::Page,
            b'n' => TypedKey::Next,
            b'q' => TypedKey::Quit,
            _ => TypedKey::Other,
        }
    }
}

/// What the thread that reads passes on: what a line asks for, or why no more can be read.
pub(crate) type ReadKey = Result<TypedKey, io::Error>;

/// Where it passes it on.
pub(crate) type KeySender = Sender<ReadKey, Global>;

/// Reads lines and passes on what each asks for, up to one that asks for the end, to the end of the input, or to where
/// it can't be read; unless who answers has given up already: where the system has no thread for it, this comes last.
pub(crate) fn read_keys_if_first<X: Wait, R: Read>(
    rt: &X,
    is_begun: &AtomicBool,
    input: &mut R,
    sender: KeySender,
) {
    if !is_begun.swap(true, Ordering::SeqCst) {
        read_keys(rt, input, &sender);
    }
}

/// The same, by who comes first.
fn read_keys<X: Wait, R: Read>(rt: &X, input: &mut R, sender: &KeySender) {
    let mut chunk = [0u8; CHUNK];
    let mut is_begun = false;
    for _ in 0..u64::MAX {
        let count = match input.read(&mut chunk) {
            Ok(0) => return,
            Ok(count) => count,
            Err(error) => {
                let _ = sender.send(rt, Err(error));
                return;
            }
        };
        for byte in chunk.get(..count).unwrap_or(b"") {
            if *byte == b'\n' {
                is_begun = false;
            } else if !is_begun && !byte.is_ascii_whitespace() {
                is_begun = true;
                if !pass_on(rt, TypedKey::of(*byte), sender) {
                    return;
                }
            }
        }
    }
}

/// Passes on what a line asks for. Whether more is to be read.
fn pass_on<X: Wait>(rt: &X, key: TypedKey, sender: &KeySender) -> bool {
    sender.send(rt, Ok(key)).is_ok() && key != TypedKey::Quit
}
