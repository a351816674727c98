//! Where the name of a label stands in a text.

ghost use Rattle.std.specs.Prelude.{◌≡◌};
ghost use Rattle.std.specs.List.{list_any};

use crate::words::{LineWord, WordRole, words_of};
use asm_line::{Directive, names};
use insn_word::{ControlOp, WideOp};
use std::alloc::{AllocError, Global};

/// A place where the name of a label stands.
#[derive(Clone, Copy, Debug)]
pub struct NamePlace {
    /// Its line, from 0.
    pub line: usize,
    /// How many bytes of the text stand before it.
    pub start: usize,
    /// How many bytes of its line stand before it.
    pub column: usize,
    /// How many bytes it has.
    pub width: usize,
    /// Whether the label stands there, before its colon; else it is used.
    pub is_label: bool,
}

/// The word of a line that is the name of a label, or stands where one may, at a place of the line.
pub fn name_on(
    alloc: Global,
    line: &[u8],
    column: usize,
) -> Result<Option<LineWord<'_>>, AllocError> {
    for word in words_of(alloc, line)? {
        if word.is_at(column) && !word.bytes.is_empty() && is_name_place(&word) {
            return Ok(Some(word));
        }
    }
    Ok(None)
}

/// Whether a word is a label, or an operand that may be the name of one.
fn is_name_place(word: &LineWord) -> bool {
    match word.role {
        WordRole::Label => true,
        WordRole::Operand { head, place } => takes_label(head, place),
        WordRole::Lookahead | WordRole::Head => false,
    }
}

/// Whether the operand of a head at this place may be a label: how far SKIP goes, the number of a wide operation, and what
/// `.entry` and `.trap` say.
pub(crate) fn takes_label(head: &[u8], place: usize) -> bool {
    match place {
        0 => is_directive(head, Directive::Entry) || is_directive(head, Directive::Trap),
        1 => is_wide(head),
        2 => head == names::control(ControlOp::Skip).as_bytes(),
        _ => false,
    }
}

/// Whether a head names a directive.
fn is_directive(head: &[u8], directive: Directive) -> bool {
    head == names::directive(directive).as_bytes()
}

/// Whether a head names a wide operation.
fn is_wide(head: &[u8]) -> bool {
    WideOp::ALL
        .iter()
        .any(|op| names::wide(*op).as_bytes() == head)
}

/// All places where a name stands as a label's, in their order.
pub fn places_of_name(
    alloc: Global,
    text: &[u8],
    name: &[u8],
) -> Result<Vec<NamePlace>, AllocError> {
    let mut places = Vec::new(alloc);
    let mut start: usize = 0;
    for (number, line) in text.split(|byte| *byte == b'\n').enumerate() {
        if has_name(line, name) {
            push_places(alloc, &mut places, line, number, start, name)?;
        }
        start = start.saturating_add(line.len()).saturating_add(1);
    }
    Ok(places)
}

/// Whether the bytes of a name stand somewhere on a line.
fn has_name(line: &[u8], name: &[u8]) -> bool {
    if name.is_empty() {
        return false;
    }
    line.windows(name.len()).any(|piece| piece == name)
}

/// Adds the places of a line where a name stands as a label's.
fn push_places(
    alloc: Global,
    places: &mut Vec<NamePlace>,
    line: &[u8],
    number: usize,
    start: usize,
    name: &[u8],
) -> Result<(), AllocError> {
    for word in words_of(alloc, line)? {
        if word.bytes == name && is_name_place(&word) {
            places.push(NamePlace {
                line: number,
                start: start.saturating_add(word.column),
                column: word.column,
                width: word.bytes.len(),
                is_label: word.role == WordRole::Label,
            })?;
        }
    }
    Ok(())
}

/// Whether a label stands at one of these places.
pub fn declares(places: &[NamePlace]) -> bool
    ensures { result ≡ list_any (λ p. p.is_label) places.now }
{
    places.iter().any(
        |place: &NamePlace| -> bool
            ensures { result ≡ place.now.is_label }
        { place.is_label },
    )
}
