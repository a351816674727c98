//! What is wrong with operands.

use crate::count_notes::note_count;
use crate::data_words::{is_data, put_data_help};
use crate::form::OperandForm;
use crate::operand_words::{
    put_form_help, put_missing_label_help, put_range_help, put_range_words,
};
use crate::pieces::pieces;
use crate::reader::Reader;
use asm_line::Fault;
use fault_messages::{Notes, Token, put_shown};
use plain_text::TextWriter;
use std::alloc::{AllocError, Global};

/// What takes operands: its name, and their forms, of which so many have to stand there.
#[derive(Clone, Copy)]
pub(crate) struct Taking<'a> {
    pub(crate) name: &'a str,
    pub(crate) forms: &'static [OperandForm],
    pub(crate) least: usize,
}

/// An operand that is taken: of what, with its head and all operands, at which place from 0 on, and what it has to be.
#[derive(Clone, Copy)]
pub(crate) struct Taken<'a> {
    pub(crate) taking: Taking<'a>,
    pub(crate) head: Token<'a>,
    pub(crate) operands: &'a [Token<'a>],
    pub(crate) place: usize,
    pub(crate) form: OperandForm,
}

impl Taken<'_> {
    /// Adds how the operand is named.
    pub(crate) fn put_name(&self, out: &mut TextWriter) {
        if self.taking.forms.len() == 1 {
            out.put("the operand of ");
        } else {
            out.put("operand ");
            out.put_number(self.place.saturating_add(1) as u64);
            out.put(" of ");
        }
        out.put(self.taking.name);
    }
}

/// Notes what is wrong with the operands that stand after a head.
pub(crate) fn note_operands(
    notes: &mut Notes,
    reader: &Reader,
    taking: Taking,
    head: Token,
    operands: Token,
) -> Result<(), AllocError> {
    let pieces = operand_pieces(notes.alloc(), operands)?;
    if pieces.len() < taking.least || pieces.len() > taking.forms.len() {
        note_count(notes, reader, taking, head, operands, &pieces)
    } else if !note_turned(notes, reader, taking, head, &pieces)? {
        note_each(notes, reader, taking, head, &pieces)
    } else {
        Ok(())
    }
}

/// The operands that commas separate.
fn operand_pieces<'t>(alloc: Global, operands: Token<'t>) -> Result<Vec<Token<'t>>, AllocError> {
    if operands.bytes.is_empty() {
        Ok(Vec::new(alloc))
    } else {
        pieces(alloc, operands, b',')
    }
}

/// Notes that two operands stand in the other order, and answers whether they do.
fn note_turned<'a>(
    notes: &mut Notes,
    reader: &Reader,
    taking: Taking<'a>,
    head: Token<'a>,
    pieces: &'a [Token<'a>],
) -> Result<bool, AllocError> {
    let [first, second] = pieces else {
        return Ok(false);
    };
    if !are_turned(notes, reader, taking, *first, *second)? {
        return Ok(false);
    }
    notes.help.put("write ");
    put_shown(&mut notes.help, head.bytes);
    notes.help.put(" ");
    put_shown(&mut notes.help, second.bytes);
    notes.help.put(", ");
    put_shown(&mut notes.help, first.bytes);
    put_form_words(&mut notes.words, taken_first(taking, head, pieces), *first);
    notes.number(Fault::Operand.number());
    notes.add(reader.spot(*first))?;
    Ok(true)
}

/// The first operand of two that stand in the other order.
fn taken_first<'a>(taking: Taking<'a>, head: Token<'a>, operands: &'a [Token<'a>]) -> Taken<'a> {
    Taken {
        taking,
        head,
        operands,
        place: 0,
        form: taking
            .forms
            .first()
            .copied()
            .unwrap_or(OperandForm::Register),
    }
}

/// Whether two operands are right in the other order alone. Those of TSET are right for TGET too, and the label of data
/// that LIT takes is no address.
fn are_turned(
    notes: &mut Notes,
    reader: &Reader,
    taking: Taking,
    first: Token,
    second: Token,
) -> Result<bool, AllocError> {
    let [front, back] = taking.forms else {
        return Ok(false);
    };
    if taking.name == "TSET" || taking.name == "TGET" {
        return Ok(false);
    }
    let alloc = notes.alloc();
    if reader.operand_fault(alloc, *front, first.bytes)?.is_none()
        || reader.operand_fault(alloc, *front, second.bytes)?.is_some()
        || reader.operand_fault(alloc, *back, first.bytes)?.is_some()
    {
        return Ok(false);
    }
    Ok(!matches!(back, OperandForm::Value) || !is_data(notes, reader, first.bytes)?)
}

/// Notes what is wrong with each of as many operands as may stand there.
fn note_each<'a>(
    notes: &mut Notes,
    reader: &Reader,
    taking: Taking<'a>,
    head: Token<'a>,
    pieces: &'a [Token<'a>],
) -> Result<(), AllocError> {
    for (place, (piece, form)) in pieces.iter().zip(taking.forms).enumerate() {
        let taken = Taken {
            taking,
            head,
            operands: pieces,
            place,
            form: *form,
        };
        note_operand(notes, reader, taken, *piece)?;
    }
    Ok(())
}

/// Notes what is wrong with one operand.
fn note_operand(
    notes: &mut Notes,
    reader: &Reader,
    taken: Taken,
    operand: Token,
) -> Result<(), AllocError> {
    let Some(fault) = reader.operand_fault(notes.alloc(), taken.form, operand.bytes)? else {
        return Ok(());
    };
    match fault {
        Fault::LabelMissing => note_missing_label(notes, reader, taken, operand),
        Fault::Range => note_range(notes, reader, taken, operand),
        Fault::NotAscii
        | Fault::Unknown
        | Fault::Operand
        | Fault::TwoWriters
        | Fault::LabelTwice
        | Fault::Directive
        | Fault::Limit
        | Fault::NoMemory => note_malformed(notes, reader, taken, operand),
    }
}

/// Notes that no line has a label.
fn note_missing_label(
    notes: &mut Notes,
    reader: &Reader,
    taken: Taken,
    operand: Token,
) -> Result<(), AllocError> {
    if !put_data_help(notes, reader, OperandForm::Value, operand.bytes)? {
        put_missing_label_help(notes, reader, taken, operand.bytes)?;
    }
    notes.words.put("no line has the label ");
    put_shown(&mut notes.words, operand.bytes);
    notes.number(Fault::LabelMissing.number());
    notes.add(reader.spot(operand))
}

/// Notes that an operand is out of its limits.
fn note_range(
    notes: &mut Notes,
    reader: &Reader,
    taken: Taken,
    operand: Token,
) -> Result<(), AllocError> {
    put_range_words(&mut notes.words, reader, taken, operand.bytes);
    put_range_help(&mut notes.help, reader, taken, operand.bytes);
    notes.number(Fault::Range.number());
    notes.add(reader.spot(operand))
}

/// Notes that an operand is missing, or none of its form.
fn note_malformed(
    notes: &mut Notes,
    reader: &Reader,
    taken: Taken,
    operand: Token,
) -> Result<(), AllocError> {
    if operand.bytes.is_empty() {
        note_missing_operand(notes, reader, taken, operand)
    } else {
        note_form(notes, reader, taken, operand)
    }
}

/// Notes that an operand is missing.
fn note_missing_operand(
    notes: &mut Notes,
    reader: &Reader,
    taken: Taken,
    operand: Token,
) -> Result<(), AllocError> {
    taken.put_name(&mut notes.words);
    notes.words.put(" is missing");
    notes.help.put("it is ");
    notes.number(Fault::Operand.number());
    notes.add_with(reader.spot(operand), taken.form.noun())
}

/// Notes that an operand is none of its form.
fn note_form(
    notes: &mut Notes,
    reader: &Reader,
    taken: Taken,
    operand: Token,
) -> Result<(), AllocError> {
    if !put_data_help(notes, reader, taken.form, operand.bytes)? {
        put_form_help(&mut notes.help, reader, taken, operand)?;
    }
    put_form_words(&mut notes.words, taken, operand);
    notes.number(Fault::Operand.number());
    notes.add(reader.spot(operand))
}

/// Adds that an operand is none of its form.
fn put_form_words(words: &mut TextWriter, taken: Taken, operand: Token) {
    taken.put_name(words);
    words.put_all(&[" is ", taken.form.noun(), ", and "]);
    put_shown(words, operand.bytes);
    words.put(" is none");
}
