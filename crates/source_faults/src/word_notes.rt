//! What is wrong with the operations of a word together.

use crate::operations::{Named, Part};
use crate::pieces::{split_head, trimmed};
use crate::reader::Reader;
use asm_line::{Fault, Item};
use fault_messages::{Notes, Token};
use insn_word::Insn;
use std::alloc::AllocError;

/// An operation of a word, and what says it.
#[derive(Clone, Copy)]
pub(crate) struct WrittenOperation<'t> {
    pub(crate) named: Named,
    pub(crate) piece: Token<'t>,
}

/// Notes what is wrong with the order of operations, or if each by itself is right, with the registers that they write.
pub(crate) fn note_word(
    notes: &mut Notes,
    reader: &Reader,
    operations: &[WrittenOperation],
    are_right: bool,
) -> Result<(), AllocError> {
    if operations.len() < 2 {
        return Ok(());
    }
    let is_ordered = note_order(notes, reader, operations)?;
    if is_ordered && are_right {
        note_writers(notes, reader, operations)?;
    }
    Ok(())
}

/// Notes what is wrong with the order of two operations or more, and answers whether it is right.
fn note_order(
    notes: &mut Notes,
    reader: &Reader,
    operations: &[WrittenOperation],
) -> Result<bool, AllocError> {
    let mut earlier: Option<(WrittenOperation, Part)> = None;
    for operation in operations {
        let Some(part) = operation.named.part() else {
            note_alone(notes, reader, *operation)?;
            return Ok(false);
        };
        match earlier {
            Some((before, of)) if of.place() >= part.place() => {
                note_pair(notes, reader, before.named, *operation, part)?;
                return Ok(false);
            }
            _ => {}
        }
        earlier = Some((*operation, part));
    }
    Ok(true)
}

/// Notes that an operation stands in a word of its own.
fn note_alone(
    notes: &mut Notes,
    reader: &Reader,
    operation: WrittenOperation,
) -> Result<(), AllocError> {
    notes.words.put(operation.named.name());
    notes.number(Fault::Operand.number());
    notes.say(
        reader.spot(operation.piece),
        " stands alone in its word",
        "write it on a line of its own",
    )
}

/// Notes that an operation of this part does not stand after another.
fn note_pair(
    notes: &mut Notes,
    reader: &Reader,
    before: Named,
    operation: WrittenOperation,
    part: Part,
) -> Result<(), AllocError> {
    let (first, second) = (before.name(), operation.named.name());
    if before.part() == Some(part) {
        let name = part.name();
        notes.words.put_all(&[first, " and ", second, " are both ", name, " operations"]);
        notes
            .help
            .put("a word has one operation of each part: use two words");
    } else {
        notes
            .words
            .put("the order in a word is memory, arithmetic, control");
        notes.help.put_all(&["write ", second, " before ", first]);
    }
    notes.number(Fault::Operand.number());
    notes.add(reader.spot(operation.piece))
}

/// Notes which two operations write one register.
fn note_writers(
    notes: &mut Notes,
    reader: &Reader,
    operations: &[WrittenOperation],
) -> Result<(), AllocError> {
    for (place, operation) in operations.iter().enumerate() {
        let register = destination(reader, *operation);
        if let Some(before) = first_writer(reader, operations, place, register) {
            note_both(notes, reader, before, *operation, register)?;
        }
    }
    Ok(())
}

/// The first of so many operations that writes a register; none writes r0.
fn first_writer<'t>(
    reader: &Reader,
    operations: &[WrittenOperation<'t>],
    count: usize,
    register: u8,
) -> Option<WrittenOperation<'t>> {
    if register == 0 {
        return None;
    }
    for operation in operations.iter().take(count) {
        if destination(reader, *operation) == register {
            return Some(*operation);
        }
    }
    None
}

/// The register that an operation writes; 0 for none.
fn destination(reader: &Reader, operation: WrittenOperation) -> u8 {
    let item = reader.item(None, operation.piece.bytes);
    let Ok(Item::Instruction(Insn::Normal { m, a, c, .. })) = item else {
        return 0;
    };
    m.destination().max(a.destination()).max(c.destination())
}

/// Notes that two operations write one register.
fn note_both(
    notes: &mut Notes,
    reader: &Reader,
    before: WrittenOperation,
    operation: WrittenOperation,
    register: u8,
) -> Result<(), AllocError> {
    let (first, second) = (before.named.name(), operation.named.name());
    notes
        .words
        .put_all(&[first, " and ", second, " both write r"]);
    notes.words.put_number(u64::from(register));
    let operands = split_head(operation.piece).1;
    let written = trimmed(operands.cut(b',').0);
    notes.number(Fault::TwoWriters.number());
    notes.add_with(reader.spot(written), "use two words, or another register")
}
