//! What is legal in a text and likely not what is meant.

use crate::comment_notes::note_comment;
use crate::data_lines::DataLines;
use crate::lines::CountedLines;
use crate::numbers::{DATA_LABEL, EARLIER_CODE};
use crate::pieces::pieces;
use crate::reader::{Reader, SourceFacts};
use crate::unreached::note_unreached;
use asm_line::Item;
use fault_messages::{Notes, Spot, put_shown};
use image_file::Image;
use insn_word::{Condition, ControlOp, Insn};
use std::alloc::{AllocError, Global};

/// What stands on the lines without a fault and is likely not meant; and where the text means an image, the words of its
/// program that no way reaches.
pub(crate) fn warnings_of<'t>(
    alloc: Global,
    source: &SourceFacts<'t>,
    text: &'t [u8],
    image: Option<&Image>,
) -> Result<Notes, AllocError> {
    let data_lines = DataLines::of(alloc, source, text)?;
    let mut notes = Notes::new(alloc);
    let mut spots = Vec::new(alloc);
    note_lines(&mut notes, &mut spots, source, &data_lines, text)?;
    if let Some(image) = image {
        note_unreached(&mut notes, image, text, &spots)?;
    }
    Ok(notes)
}

/// Warns of what stands on the lines without a fault, and adds the spots of the program's words.
fn note_lines<'t>(
    notes: &mut Notes,
    spots: &mut Vec<Spot>,
    source: &SourceFacts<'t>,
    data_lines: &DataLines,
    text: &'t [u8],
) -> Result<(), AllocError> {
    for line in CountedLines::of(text) {
        let reader = Reader::at(source, line);
        if let Ok(item) = reader.own_item() {
            note_item(notes, spots, &reader, data_lines, item)?;
        }
    }
    Ok(())
}

/// Warns of what a line adds, and adds the spot of a program word.
fn note_item(
    notes: &mut Notes,
    spots: &mut Vec<Spot>,
    reader: &Reader,
    data_lines: &DataLines,
    item: Item,
) -> Result<(), AllocError> {
    match item {
        Item::Nothing => return Ok(()),
        Item::Instruction(insn) => {
            note_code(notes, reader, insn)?;
            spots.push(reader.spot(reader.line().statement()))?;
        }
        Item::Word(_) => spots.push(reader.spot(reader.line().statement()))?,
        Item::Cells { .. } => note_data_label(notes, reader, data_lines)?,
        Item::Entry(_)
        | Item::Trap(_)
        | Item::Profile(_)
        | Item::Slim(_)
        | Item::Chain(_)
        | Item::Retry(_) => {}
    }
    note_comment(notes, reader)
}

/// Warns of a label on a line of data.
fn note_data_label(
    notes: &mut Notes,
    reader: &Reader,
    data_lines: &DataLines,
) -> Result<(), AllocError> {
    let Some(label) = reader.line().label() else {
        return Ok(());
    };
    if let Some(address) = data_lines.address(reader.line().text.number) {
        notes.help.put("this data is at address ");
        notes.help.put_number(address as u64);
    }
    notes.words.put("the label ");
    put_shown(&mut notes.words, label.bytes);
    notes
        .words
        .put(" is the number of the next instruction line, ");
    notes.words.put_number(reader.here() as u64);
    notes.words.put(", and no address");
    notes.number(DATA_LABEL);
    notes.add(reader.spot(label))
}

/// Warns of a condition in the word of the operation whose code it seems to ask.
fn note_code(notes: &mut Notes, reader: &Reader, insn: Insn) -> Result<(), AllocError> {
    let Insn::Normal { a, c, .. } = insn else {
        return Ok(());
    };
    let is_asked = matches!(c.op, ControlOp::Skip | ControlOp::Jump)
        && c.cond != Condition::Always
        && c.code == 0;
    if a.test && is_asked {
        let words = "the condition asks the code from before this word";
        let help = "the code that .T makes here counts from the next word on";
        let operations = pieces(notes.alloc(), reader.instruction(), b'|')?;
        let last = operations
            .last()
            .copied()
            .unwrap_or(reader.line().statement());
        notes.number(EARLIER_CODE);
        return notes.say(reader.spot(last), words, help);
    }
    Ok(())
}
