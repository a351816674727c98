//! Other places of a text that a message is about.

use crate::fixes::Related;
use crate::marked::Marked;
use crate::pieces::{is_blank, operands_of, trimmed};
use crate::source_lines::SourceLine;
use crate::warned::tested_on;
use asm_line::Fault;
use fault_messages::{Message, Severity, Token};
use std::alloc::{AllocError, Global};

/// A condition asks a code that nothing made.
const NO_CODE: u8 = 107;

/// A reference waits for a word that nothing fills or empties.
const ENDLESS_WAIT: u8 = 112;

/// A name of two lines.
const NAME_TWICE: u8 = 114;

/// The other place that a message is about.
pub(crate) fn related_place(
    alloc: Global,
    marked: &Marked,
    message: &Message,
) -> Result<Option<Related>, AllocError> {
    match (message.severity, message.number) {
        (Severity::Error, number) if number == Some(Fault::LabelTwice.number()) => {
            first_label(alloc, marked)
        }
        (Severity::Error, number) if number == Some(Fault::Operand.number()) => {
            named_data(alloc, marked)
        }
        (Severity::Warning, Some(NO_CODE)) => comparing_operation(alloc, marked),
        (Severity::Warning, Some(ENDLESS_WAIT)) => first_tags(alloc, marked),
        (Severity::Warning, Some(NAME_TWICE)) => other_name(alloc, marked),
        (Severity::Error | Severity::Warning, _) => Ok(None),
    }
}

/// A place on the line of a number.
fn place_on(
    alloc: Global,
    number: usize,
    piece: Token,
    words: &str,
) -> Result<Option<Related>, AllocError> {
    Ok(Some(Related {
        line: number,
        column: piece.start.saturating_add(1),
        width: piece.bytes.len(),
        words: String::from_str(alloc, words)?,
    }))
}

/// The number of a line that stands in a sentence between some words.
fn line_between(text: &str, before: &str, after: &str) -> Option<usize> {
    let (_, rest) = text.split_once(before)?;
    let number = match rest.split_once(after) {
        Some((number, _)) => number,
        None => rest,
    };
    number.parse::<usize>().ok()
}

/// Where the label of a message stands first.
fn first_label(alloc: Global, marked: &Marked) -> Result<Option<Related>, AllocError> {
    let Some(number) = line_between(marked.words, " stands on line ", " already") else {
        return Ok(None);
    };
    match marked.lines.line(number) {
        Some(line) => match line.label() {
            Some(label) => place_on(alloc, number, trimmed(label), "the label stands here first"),
            None => Ok(None),
        },
        None => Ok(None),
    }
}

/// The other line of a name of a message.
fn other_name(alloc: Global, marked: &Marked) -> Result<Option<Related>, AllocError> {
    let Some(number) = line_between(marked.words, ": line ", " has this name too") else {
        return Ok(None);
    };
    match marked.lines.line(number) {
        Some(line) => match name_on(&line, marked.mark.bytes) {
            Some(piece) => place_on(alloc, number, piece, "the name stands here too"),
            None => Ok(None),
        },
        None => Ok(None),
    }
}

/// Where a name stands on a line, as its label or after its semicolon.
fn name_on<'t>(line: &SourceLine<'t>, name: &[u8]) -> Option<Token<'t>> {
    match line.label() {
        Some(label) if trimmed(label).bytes == name => Some(trimmed(label)),
        _ => {
            let comment = line.comment()?;
            let after = comment.after(name.len());
            let is_whole = match after.bytes.first() {
                Some(byte) => *byte == b':' || is_blank(*byte),
                None => true,
            };
            if is_whole && !name.is_empty() && comment.bytes.starts_with(name) {
                Some(comment.before(name.len()))
            } else {
                None
            }
        }
    }
}

/// The operation that may be meant to make a code.
fn comparing_operation(alloc: Global, marked: &Marked) -> Result<Option<Related>, AllocError> {
    let Some(number) = line_between(marked.help, " on line ", "?") else {
        return Ok(None);
    };
    let Some((front, _)) = marked.help.split_once(" on line ") else {
        return Ok(None);
    };
    let Some(name) = front.strip_prefix("did you mean ") else {
        return Ok(None);
    };
    match marked.lines.line(number) {
        Some(line) => match tested_on(&line, name) {
            Some(head) => place_on(alloc, number, head, "without .T it makes no code"),
            None => Ok(None),
        },
        None => Ok(None),
    }
}

/// The line that says how the word of a wait begins.
fn first_tags(alloc: Global, marked: &Marked) -> Result<Option<Related>, AllocError> {
    let Some(number) = line_between(marked.help, " on line ", ";") else {
        return Ok(None);
    };
    match marked.lines.line(number) {
        Some(line) => place_on(alloc, number, line.statement(), "the word begins so"),
        None => Ok(None),
    }
}

/// The line of the data that an operand of a message names.
fn named_data(alloc: Global, marked: &Marked) -> Result<Option<Related>, AllocError> {
    if !marked.help.starts_with("this data is [") {
        return Ok(None);
    }
    for operand in operands_of(alloc, marked.operation())? {
        let name = without_brackets(operand);
        if let Some(number) = marked.lines.number_named(name)
            && let Some(line) = marked.lines.line(number)
            && let Some(piece) = name_on(&line, name)
        {
            return place_on(alloc, number, piece, "the data is here");
        }
    }
    Ok(None)
}

/// An operand without brackets around it.
fn without_brackets(operand: Token<'_>) -> &'_ [u8] {
    match operand.bytes {
        [b'[', inner @ .., b']'] => inner,
        _ => operand.bytes,
    }
}
