//! What is wrong with a label.

ghost use Rattle.std.specs.Prelude.{◌≡◌};
ghost use Rattle.asm_line.specs.Text.{is_further};

use crate::operations::directive_named;
use crate::pieces::trimmed;
use crate::reader::Reader;
use asm_line::Fault;
use fault_messages::{Notes, Token, put_shown};
use std::alloc::AllocError;

/// How many characters a label has at most.
const LONGEST_LABEL: usize = 32;

/// Notes what is wrong with the label of a line, and answers whether its statement can be judged.
pub(crate) fn note_label(notes: &mut Notes, reader: &Reader) -> Result<bool, AllocError> {
    let Some(label) = reader.line().label() else {
        return Ok(true);
    };
    if let (second, Some(_)) = reader.line().statement().cut(b':') {
        let help = "take the second label to a line of its own";
        notes.number(Fault::Unknown.number());
        notes.say(reader.spot(second), "a line has at most one label", help)?;
        Ok(false)
    } else if directive_named(trimmed(label).bytes).is_some() {
        let help = "take the colon away";
        notes.number(Fault::Unknown.number());
        notes.say(reader.spot(label), "a directive has no colon", help)?;
        Ok(false)
    } else {
        note_name(notes, reader, label)?;
        Ok(true)
    }
}

/// Notes that a label is no name, or stands on an earlier line.
fn note_name(notes: &mut Notes, reader: &Reader, label: Token) -> Result<(), AllocError> {
    match reader.item(Some(label.bytes), b"") {
        Ok(_) => Ok(()),
        Err(Fault::LabelTwice) => note_twice(notes, reader, label),
        Err(
            Fault::NotAscii
            | Fault::Unknown
            | Fault::Operand
            | Fault::Range
            | Fault::TwoWriters
            | Fault::LabelMissing
            | Fault::Directive
            | Fault::Limit
            | Fault::NoMemory,
        ) => note_malformed(notes, reader, label),
    }
}

/// The label stands on an earlier line.
fn note_twice(notes: &mut Notes, reader: &Reader, label: Token) -> Result<(), AllocError> {
    let first = match reader.place_of(label.bytes) {
        Some(place) => place.line.saturating_add(1),
        None => reader.line().text.number + 1,
    };
    notes.words.put("the label ");
    put_shown(&mut notes.words, label.bytes);
    notes.words.put(" stands on line ");
    notes.words.put_number(first as u64);
    notes.number(Fault::LabelTwice.number());
    notes.say(reader.spot(label), " already", "rename one of them")
}

/// The label is no name.
fn note_malformed(notes: &mut Notes, reader: &Reader, label: Token) -> Result<(), AllocError> {
    let (words, help) = malformed_words(label);
    notes.number(Fault::Unknown.number());
    notes.say(reader.spot(label), words, help)
}

/// Why a label is no name, and how it may be mended.
fn malformed_words(label: Token) -> (&'static str, &'static str) {
    let name = trimmed(label).bytes;
    if name.is_empty() {
        ("a label has a name", "it stands right before the colon")
    } else if !is_of_names(name) {
        let help = "letters, digits and _ alone, and no blank";
        ("a label has characters that none may have", help)
    } else if name.len() < label.bytes.len() {
        let words = "the colon of a label comes directly after its name";
        (words, "take the blank away")
    } else if name.len() > LONGEST_LABEL {
        ("the label is too long", "it may have 32 characters")
    } else {
        ("a label begins with a letter or _", "digits may follow")
    }
}

/// Whether labels may have each byte of a text.
fn is_of_names(text: &[u8]) -> bool {
    for byte in text {
        if !is_of_name(*byte) {
            return false;
        }
    }
    true
}

/// Whether a label may have this byte.
fn is_of_name(byte: u8) -> bool
    ensures { result ≡ is_further byte }
{
    byte.is_ascii_alphanumeric() || byte == b'_'
}
