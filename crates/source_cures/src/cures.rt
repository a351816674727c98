//! What the sentence of a message describes.

use crate::added_lines::{propose_line, propose_lines};
use crate::fixes::{Fix, Related};
use crate::foreign::propose_foreign;
use crate::letters::propose_letters;
use crate::marked::Marked;
use crate::numbers::propose_number;
use crate::operands::propose_operands;
use crate::proposals::Proposals;
use crate::related::related_place;
use crate::rewriting::propose_statement;
use crate::source_lines::LineStarts;
use crate::warned::propose_warned;
use fault_messages::Message;
use std::alloc::{AllocError, Global};

/// Finds what the sentences of messages about one text describe.
#[derive(Drop)]
pub struct CureFinder<'t> {
    alloc: Global,
    lines: LineStarts<'t>,
}

impl<'t> CureFinder<'t> {
    /// Of a text in ASCII, as the assembler reads it. Only memory can be missing.
    pub fn of(alloc: Global, text: &'t [u8]) -> Result<CureFinder<'t>, AllocError> {
        let lines = LineStarts::of(alloc, text)?;
        Ok(CureFinder { alloc, lines })
    }

    /// The edits that the sentence of a message of `check` about the text describes, the likeliest first, at most four. None
    /// is tried. Only memory can be missing.
    pub fn proposed(&self, message: &Message) -> Result<Vec<Fix>, AllocError> {
        let marked = Marked::of(&self.lines, message);
        let mut proposals = Proposals::new(self.alloc);
        propose(&mut proposals, &marked)?;
        Ok(proposals.into_fixes())
    }

    /// The other place that a message of `check` about the text is about: where a label stands first, the other line of a
    /// name, the operation whose code a condition may ask, how a word begins, or the data that an operand names. Only memory
    /// can be missing.
    pub fn related(&self, message: &Message) -> Result<Option<Related>, AllocError> {
        related_place(self.alloc, &Marked::of(&self.lines, message), message)
    }
}

/// Proposes the edits that a message's sentence describes, the likeliest first.
fn propose(out: &mut Proposals, marked: &Marked) -> Result<(), AllocError> {
    propose_letters(out, marked)?;
    propose_line(out, marked)?;
    propose_lines(out, marked)?;
    propose_statement(out, marked)?;
    propose_operands(out, marked)?;
    propose_number(out, marked)?;
    propose_foreign(out, marked)?;
    propose_warned(out, marked)
}
