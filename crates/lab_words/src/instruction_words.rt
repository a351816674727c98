//! What an instruction word says.

use crate::status_words::status_description;
use crate::word_fields::push_fields;
use asm_line::Fault;
use asm_text::assemble;
use insn_word::{Profile, decode_as};
use listing_line::push_word_line;
use std::alloc::{AllocError, Global};

/// What makes a program of a line. It is of Profile 2, which has all instructions.
const FRAME: &str = "\n.profile 2\n.entry 0\n.data 0\n";

/// What an instruction word says, by its hexadecimal digits or by its text: the other form, and its fields; and what a status
/// word says, by `ssw` and its digits. None where the text is no instruction; then `source_of` is a program with it, whose
/// faults say why.
pub fn instruction_description(alloc: Global, text: &str) -> Result<Option<String>, AllocError> {
    if let Some(digits) = text.strip_prefix("ssw ") {
        return status_description(alloc, digits.trim());
    }
    let word = match number_of(text) {
        Some(word) => Some(word),
        None => word_of(alloc, text)?,
    };
    let Some(word) = word else {
        return Ok(None);
    };
    let mut out = String::new(alloc);
    push_word(alloc, &mut out, word)?;
    Ok(Some(out))
}

/// A source text whose first line is this one, and whose program is right where the line is.
pub fn source_of(alloc: Global, line: &str) -> Result<String, AllocError> {
    format!(in alloc; "{line}{FRAME}")
}

/// The word of these hexadecimal digits: with `0x` before them, or sixteen.
fn number_of(text: &str) -> Option<u64> {
    match text.strip_prefix("0x") {
        Some(digits) => u64::from_str_radix(digits, 16).ok(),
        None if text.len() == 16 => u64::from_str_radix(text, 16).ok(),
        None => None,
    }
}

/// The word of an instruction's text, if it is one.
fn word_of(alloc: Global, text: &str) -> Result<Option<u64>, AllocError> {
    let source = source_of(alloc, text)?;
    match assemble(alloc, source.as_bytes()) {
        Ok(image) => Ok(image.program().first().copied()),
        Err(fault) if fault.kind == Fault::NoMemory => Err(AllocError),
        Err(_) => Ok(None),
    }
}

/// A line of a listing without its comment.
fn without_comment(line: &str) -> &str {
    match line.find(';') {
        Some(place) => line.get(..place).unwrap_or(line).trim_end(),
        None => line,
    }
}

/// Adds a word as text, in hexadecimal, and by its fields.
fn push_word(alloc: Global, out: &mut String, word: u64) -> Result<(), AllocError> {
    let mut listed = String::new(alloc);
    push_word_line(&mut listed, Profile::Two, 0, word)?;
    out.push_str(without_comment(listed.as_str()))?;
    let line = format!(in alloc; "\nword        {word:016X}\n")?;
    out.push_str(line.as_str())?;
    match decode_as(Profile::Two, word) {
        Some(insn) => {
            push_fields(alloc, out, &insn)?;
            if decode_as(Profile::One, word).is_none() {
                out.push_str("Only Profile 2 has it.\n")?;
            }
            Ok(())
        }
        None => out.push_str("It spells no instruction: a stream traps there (trap 2, ILLEGAL).\n"),
    }
}
