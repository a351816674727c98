//! The columns of a line. Columns count from 0.

use crate::comments::comment_of;
use crate::statements::push_statement;
use asm_line::cut_line;
use std::alloc::{AllocError, Global};

/// The column of statements; after a longer label one blank stands.
const STATEMENT: usize = 8;

/// The column of comments.
const COMMENT: usize = 32;

/// The next column of comments, after a longer statement.
const SECOND_COMMENT: usize = 48;

/// How far the columns after it are apart.
const FURTHER: usize = 8;

/// A comment that stands alone on its line is one of the statements' column up to here.
const LAST_OF_STATEMENTS: usize = 20;

/// The text with each of its lines laid out. Each line stays where it is and keeps its label, what stands between the
/// blanks of its statement, and its comment. The text ends with a line end.
pub(crate) fn in_columns(alloc: Global, text: &[u8]) -> Result<Vec<u8>, AllocError> {
    let mut out = Vec::with_capacity(alloc, text.len())?;
    let mut is_first = true;
    let mut start = 0;
    for line in text.split(|byte| *byte == b'\n') {
        if !is_first {
            out.push(b'\n')?;
        }
        is_first = false;
        start = out.len();
        push_line(&mut out, line)?;
    }
    if width_from(&out, start) > 0 {
        out.push(b'\n')?;
    }
    Ok(out)
}

/// Adds a line, without a line end.
fn push_line(out: &mut Vec<u8>, line: &[u8]) -> Result<(), AllocError> {
    let start = out.len();
    let parts = cut_line(line);
    if let Some(label) = parts.label {
        out.extend_from_slice(label)?;
        out.push(b':')?;
    }
    if !parts.statement.is_empty() {
        if parts.label.is_some() && width_from(out, start) >= STATEMENT {
            out.push(b' ')?;
        }
        push_blanks(out, start, STATEMENT)?;
        push_statement(out, parts.statement)?;
    }
    match comment_of(line) {
        Some(comment) => push_comment(out, start, line, comment),
        None => Ok(()),
    }
}

/// Adds the comment of a line that begins at this place of the output.
fn push_comment(
    out: &mut Vec<u8>,
    start: usize,
    line: &[u8],
    comment: &[u8],
) -> Result<(), AllocError> {
    let width = width_from(out, start);
    let column = if width == 0 {
        column_alone(line)
    } else {
        column_after(width)
    };
    push_blanks(out, start, column)?;
    out.push(b';')?;
    Ok(out.extend_from_slice(comment)?)
}

/// The column of a comment after so many bytes.
fn column_after(width: usize) -> usize {
    if width < COMMENT {
        COMMENT
    } else if width < SECOND_COMMENT {
        SECOND_COMMENT
    } else {
        (width / FURTHER).saturating_add(1).saturating_mul(FURTHER)
    }
}

/// The column of a comment that stands alone on its line: the nearest of those of labels, statements and comments.
fn column_alone(line: &[u8]) -> usize {
    let mut column: usize = 0;
    for byte in line {
        match *byte {
            b' ' => column = column.saturating_add(1),
            b'\t' => column = (column / FURTHER).saturating_add(1).saturating_mul(FURTHER),
            b'\r' => {}
            _ => break,
        }
    }
    if column == 0 {
        0
    } else if column <= LAST_OF_STATEMENTS {
        STATEMENT
    } else {
        COMMENT
    }
}

/// Adds blanks up to a column of the line that begins at this place of the output.
fn push_blanks(out: &mut Vec<u8>, start: usize, column: usize) -> Result<(), AllocError> {
    for _ in width_from(out, start)..column {
        out.push(b' ')?;
    }
    Ok(())
}

/// How many bytes the line has that begins at this place of the output.
fn width_from(out: &Vec<u8>, start: usize) -> usize {
    out.len().saturating_sub(start)
}
