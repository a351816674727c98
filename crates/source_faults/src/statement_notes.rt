//! What is wrong with a statement.

use crate::form::OperandForm;
use crate::head_notes::{note_unknown_directive, note_unknown_operation};
use crate::operand_notes::{Taking, note_operands};
use crate::operations::{Named, directive_named, directive_operands, operation_named};
use crate::pieces::{pieces, split_head};
use crate::reader::Reader;
use crate::word_notes::{WrittenOperation, note_word};
use asm_line::{Directive, Fault, names};
use fault_messages::{Notes, Token};
use std::alloc::AllocError;

/// Notes what is wrong with the statement of a line.
pub(crate) fn note_statement(notes: &mut Notes, reader: &Reader) -> Result<(), AllocError> {
    let statement = reader.line().statement();
    if statement.bytes.is_empty() {
        Ok(())
    } else if statement.begins(b'.') {
        note_directive(notes, reader, statement)
    } else {
        note_instruction(notes, reader, statement)
    }
}

fn note_directive(notes: &mut Notes, reader: &Reader, statement: Token) -> Result<(), AllocError> {
    let (head, operands) = split_head(statement);
    match directive_named(head.bytes) {
        Some(directive) if reader.knows(head.bytes) => {
            note_operands(notes, reader, taking(directive), head, operands)
        }
        _ => note_unknown_directive(notes, reader, head),
    }
}

/// What a directive takes. The tags of `.data` may be absent.
fn taking(directive: Directive) -> Taking<'static> {
    let forms = directive_operands(directive);
    Taking {
        name: names::directive(directive),
        forms,
        least: match directive {
            Directive::Data => 1,
            Directive::Profile
            | Directive::Slim
            | Directive::Chain
            | Directive::Retry
            | Directive::Trap
            | Directive::Entry
            | Directive::Word
            | Directive::Fill => forms.len(),
        },
    }
}

fn note_instruction(
    notes: &mut Notes,
    reader: &Reader,
    statement: Token,
) -> Result<(), AllocError> {
    let before = notes.len();
    let text = note_lookahead(notes, reader, statement)?;
    let pieces = pieces(notes.alloc(), text, b'|')?;
    note_pieces(notes, reader, &pieces, before)
}

/// Notes what is wrong with the operations of a word, where so much was found before it.
fn note_pieces(
    notes: &mut Notes,
    reader: &Reader,
    pieces: &[Token],
    before: usize,
) -> Result<(), AllocError> {
    let mut operations = Vec::new(notes.alloc());
    for piece in pieces {
        if let Some(named) = note_operation(notes, reader, *piece)? {
            let piece = *piece;
            operations.push(WrittenOperation { named, piece })?;
        }
    }
    if operations.len() < pieces.len() {
        return Ok(());
    }
    note_word(notes, reader, &operations, notes.len() == before)
}

/// Notes what is wrong with the lookahead of an instruction, if it has one, and answers what stands after it.
fn note_lookahead<'t>(
    notes: &mut Notes,
    reader: &Reader,
    statement: Token<'t>,
) -> Result<Token<'t>, AllocError> {
    if !statement.begins(b'@') {
        return Ok(statement);
    }
    let (head, behind) = split_head(statement);
    let number = head.after(1).bytes;
    if let Some(fault) = reader.operand_fault(notes.alloc(), OperandForm::Lookahead, number)? {
        let help = "a blank comes after it";
        let kind = if behind.bytes.is_empty() {
            Fault::Unknown
        } else {
            fault
        };
        notes.number(kind.number());
        notes.say(
            reader.spot(head),
            "a lookahead is @ and a number 0 to 7",
            help,
        )?;
    }
    Ok(behind)
}

/// Notes what is wrong with one of the operations of a word, and answers which it is.
fn note_operation(
    notes: &mut Notes,
    reader: &Reader,
    piece: Token,
) -> Result<Option<Named>, AllocError> {
    if piece.bytes.is_empty() {
        let help = "a bar stands between two operations";
        notes.number(Fault::Unknown.number());
        notes.say(reader.spot(piece), "an operation is missing here", help)?;
        return Ok(None);
    }
    let (head, operands) = split_head(piece);
    let name = head.cut(b'.').0;
    match operation_named(name.bytes) {
        Some(named) if reader.knows(head.bytes) => {
            let forms = named.operands();
            let taking = Taking {
                name: named.name(),
                forms,
                least: forms.len(),
            };
            note_operands(notes, reader, taking, head, operands)?;
            Ok(Some(named))
        }
        _ => {
            note_unknown_operation(notes, reader, head, operands)?;
            Ok(None)
        }
    }
}
