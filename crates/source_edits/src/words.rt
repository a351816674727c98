//! The words of a line, as the assembler reads it: its label, the heads of its operations or its directive, and their
//! operands.

use fault_messages::Token;
use std::alloc::{AllocError, Global};

/// What a word of a line is.
#[derive(Clone, Copy, Debug, PartialEq, Eq)]
pub enum WordRole<'t> {
    /// What stands before the colon.
    Label,
    /// The lookahead, with its sign.
    Lookahead,
    /// An operation with its suffix, or a directive.
    Head,
    /// An operand of a head, by its place from 0.
    Operand {
        /// The head.
        head: &'t [u8],
        /// Its place.
        place: usize,
    },
}

/// A word of a line.
#[derive(Clone, Copy, Debug, PartialEq, Eq)]
pub struct LineWord<'t> {
    /// How many bytes of the line stand before it.
    pub column: usize,
    /// Its bytes; an operand that is not yet written has none.
    pub bytes: &'t [u8],
    /// What it is.
    pub role: WordRole<'t>,
}

impl LineWord<'_> {
    /// How many bytes of the line stand before its end.
    pub fn end(&self) -> usize {
        self.column.saturating_add(self.bytes.len())
    }

    /// Whether a place of the line is in the word, or at one of its ends.
    pub fn is_at(&self, column: usize) -> bool {
        self.column <= column && column <= self.end()
    }
}

/// How many bytes of a line stand before its comment; None where it has none.
pub fn comment_column(line: &[u8]) -> Option<usize> {
    line.iter().position(|byte| *byte == b';')
}

/// The words of a line, from left to right.
pub fn words_of(alloc: Global, line: &[u8]) -> Result<Vec<LineWord<'_>>, AllocError> {
    let mut words = Vec::new(alloc);
    let (code, _) = Token::of_line(line).cut(b';');
    let statement = match code.cut(b':') {
        (label, Some(statement)) => {
            let label = trimmed(label);
            words.push(LineWord {
                column: label.start,
                bytes: label.bytes,
                role: WordRole::Label,
            })?;
            statement
        }
        (whole, None) => whole,
    };
    push_statement(&mut words, trimmed(statement))?;
    Ok(words)
}

/// Adds the words of a statement.
fn push_statement<'t>(
    words: &mut Vec<LineWord<'t>>,
    statement: Token<'t>,
) -> Result<(), AllocError> {
    if statement.begins(b'.') {
        return push_part(words, statement);
    }
    let mut rest = Some(past_lookahead(words, statement)?);
    for _ in 0..4 {
        let Some(parts) = rest else {
            return Ok(());
        };
        let (part, following) = parts.cut(b'|');
        push_part(words, trimmed(part))?;
        rest = following;
    }
    Ok(())
}

/// What follows the lookahead of a statement, which is added where there is one.
fn past_lookahead<'t>(
    words: &mut Vec<LineWord<'t>>,
    statement: Token<'t>,
) -> Result<Token<'t>, AllocError> {
    if !statement.begins(b'@') {
        return Ok(statement);
    }
    let end = blank_in(statement.bytes);
    let look = statement.before(end);
    words.push(LineWord {
        column: look.start,
        bytes: look.bytes,
        role: WordRole::Lookahead,
    })?;
    Ok(trimmed(statement.after(end)))
}

/// Adds the head of an operation or a directive, and its operands.
fn push_part<'t>(words: &mut Vec<LineWord<'t>>, part: Token<'t>) -> Result<(), AllocError> {
    let end = blank_in(part.bytes);
    let head = part.before(end);
    words.push(LineWord {
        column: head.start,
        bytes: head.bytes,
        role: WordRole::Head,
    })?;
    let mut rest = if end < part.bytes.len() {
        Some(part.after(end))
    } else {
        None
    };
    for place in 0..4 {
        let Some(operands) = rest else {
            return Ok(());
        };
        let (operand, following) = operands.cut(b',');
        let operand = trimmed(operand);
        words.push(LineWord {
            column: operand.start,
            bytes: operand.bytes,
            role: WordRole::Operand {
                head: head.bytes,
                place,
            },
        })?;
        rest = following;
    }
    Ok(())
}

/// A piece without the blanks at its ends. Where it has nothing else, it is at its own end.
fn trimmed(piece: Token<'_>) -> Token<'_> {
    let front = match piece.bytes.iter().position(|byte| !is_blank(*byte)) {
        Some(front) => front,
        None => piece.bytes.len(),
    };
    let rest = piece.after(front);
    let mut end: usize = 0;
    for (place, byte) in rest.bytes.iter().enumerate() {
        if !is_blank(*byte) {
            end = place.saturating_add(1);
        }
    }
    rest.before(end)
}

/// Where the first blank stands, or the end.
fn blank_in(bytes: &[u8]) -> usize {
    bytes
        .iter()
        .position(|byte| is_blank(*byte))
        .unwrap_or(bytes.len())
}

/// A space, a tab or a carriage return.
fn is_blank(byte: u8) -> bool {
    matches!(byte, b' ' | b'\t' | b'\r')
}
