//! Statements that stand in comments.

use crate::numbers::STATEMENT_IN_COMMENT;
use crate::pieces::trimmed;
use crate::reader::Reader;
use asm_line::{Fault, Item};
use fault_messages::{Notes, Token};
use std::alloc::AllocError;

/// Warns of a statement that stands after the semicolon of a line with another statement, which may be meant to end there.
pub(crate) fn note_comment(notes: &mut Notes, reader: &Reader) -> Result<(), AllocError> {
    let line = Token::of_line(reader.line().text.bytes);
    let (_, Some(comment)) = line.cut(b';') else {
        return Ok(());
    };
    let written = trimmed(comment.cut(b';').0);
    if !is_statement(reader, written) {
        return Ok(());
    }
    let name = if unlabelled(reader, written).begins(b'.') {
        "directive"
    } else {
        "instruction"
    };
    notes
        .words
        .put_all(&["a comment begins with ;, so this ", name]);
    notes.number(STATEMENT_IN_COMMENT);
    notes.say(
        reader.spot(written),
        " is no part of the program",
        "write it on a line of its own",
    )
}

/// Whether a piece of a comment would be a statement on a line of its own, perhaps with a label.
fn is_statement(reader: &Reader, written: Token) -> bool {
    match reader.item(None, unlabelled(reader, written).bytes) {
        Ok(Item::Nothing) => false,
        Ok(_) | Err(Fault::LabelMissing) => true,
        Err(_) => false,
    }
}

/// A piece of a comment without the label that it may begin with.
fn unlabelled<'t>(reader: &Reader, written: Token<'t>) -> Token<'t> {
    match written.cut(b':') {
        (label, Some(statement)) if reader.may_be_label(label.bytes) => trimmed(statement),
        _ => written,
    }
}
