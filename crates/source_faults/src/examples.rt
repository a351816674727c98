//! Statements of the right form.

use crate::form::OperandForm;
use crate::reader::Reader;
use fault_messages::{Token, put_shown};
use plain_text::TextWriter;
use std::alloc::{AllocError, Global};

/// Adds operands of these forms after a head: of some words those that fit, in their order, and usual ones where none
/// does; for a head that takes none, that it stands alone.
pub(crate) fn put_example(
    out: &mut TextWriter,
    reader: &Reader,
    forms: &[OperandForm],
    words: &[Token],
) -> Result<(), AllocError> {
    if forms.is_empty() {
        out.put(" alone");
    }
    let alloc = out.alloc();
    let mut next = 0usize;
    for (place, form) in forms.iter().enumerate() {
        out.put(if place == 0 { " " } else { ", " });
        match fitting(alloc, reader, *form, words.get(next).copied())? {
            Some(word) => {
                next = next.saturating_add(1);
                put_shown(out, word.bytes);
            }
            None => {
                let follows_target = place > 0
                    && matches!(forms.get(place - 1), Some(OperandForm::Target));
                put_shown(out, usual(reader, *form, follows_target));
            }
        }
    }
    Ok(())
}

/// Whether all words, or as many as there are forms, stand in the example that is made of them.
pub(crate) fn shows_all(
    alloc: Global,
    reader: &Reader,
    forms: &[OperandForm],
    words: &[Token],
) -> Result<bool, AllocError> {
    let mut next = 0usize;
    for form in forms {
        if fitting(alloc, reader, *form, words.get(next).copied())?.is_some() {
            next = next.saturating_add(1);
        }
    }
    Ok(next == words.len().min(forms.len()))
}

/// The word, where it may stand as an operand of this form.
fn fitting<'t>(
    alloc: Global,
    reader: &Reader,
    form: OperandForm,
    word: Option<Token<'t>>,
) -> Result<Option<Token<'t>>, AllocError> {
    let Some(word) = word else {
        return Ok(None);
    };
    match reader.operand_fault(alloc, form, word.bytes)? {
        None => Ok(Some(word)),
        Some(_) => Ok(None),
    }
}

/// An operand of this form. CALL returns by another target register than the one before it, to which it goes.
fn usual<'t>(reader: &Reader<'_, 't>, form: OperandForm, follows_target: bool) -> &'t [u8] {
    match form {
        OperandForm::Register => b"r1",
        OperandForm::Base => b"r0",
        OperandForm::Target if follows_target => b"t2",
        OperandForm::Target => b"t1",
        OperandForm::Condition => b"ALWAYS",
        OperandForm::Pc | OperandForm::Distance | OperandForm::Entry => {
            reader.names().first().copied().unwrap_or(b"0")
        }
        OperandForm::Source | OperandForm::Value | OperandForm::Tags | OperandForm::Profile => b"1",
        OperandForm::Slim => b"8",
        OperandForm::Count => b"10",
        OperandForm::Displacement
        | OperandForm::Code
        | OperandForm::Mask
        | OperandForm::Chain
        | OperandForm::Retry
        | OperandForm::Word
        | OperandForm::Lookahead => b"0",
    }
}
