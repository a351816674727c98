//! Source texts.

ghost use Rattle.std.specs.Prelude.{◌≡◌, ◌<◌, ◌||◌, is_err, vec_len, IfOk, OnOk};
ghost use Rattle.asm_text.specs.Sources.{meaning_of, Means};
ghost use Rattle.fault_messages.specs.Messages.{has_error};

use crate::label_notes::note_label;
use crate::lines::CountedLines;
use crate::reader::{Reader, SourceFacts};
use crate::statement_notes::note_statement;
use crate::text_notes::{Totals, last_line, note_foreign};
use crate::warnings::warnings_of;
use asm_line::Fault;
use asm_text::{AsmFault, assemble};
use fault_messages::{Message, Notes, Severity, Spot, in_order};
use image_file::Image;
use std::alloc::{AllocError, Global};

/// Where the kinds of faults are explained.
const KINDS: &str = "see the faults of a text in WRITING_PROGRAMS.md";

/// All faults of a source text as errors, and as warnings what is legal in it and likely not what is meant, where that can
/// be judged; in the order of lines and columns, and of each at most 10,000. There is an error exactly where the text
/// means no image. Only memory can be missing.
pub fn check_source(alloc: Global, text: &[u8]) -> Result<Vec<Message>, AllocError>
    ensures { IfOk result (λ messages. has_error messages.items ≡ is_err (meaning_of text.now)) }
{
    let source = SourceFacts::of(alloc, text)?;
    let meaning = image_of(alloc, text)?;
    let mut messages = Vec::new(alloc);
    report_faults(alloc, &source, text, &meaning, &mut messages)?;
    let warnings = warnings_of(alloc, &source, text, meaning.as_ref().ok())?;
    warnings.report(Severity::Warning, &mut messages)?;
    in_order(messages)
}

/// The image that a text means; else why it means none.
fn image_of(alloc: Global, text: &[u8]) -> Result<Result<Image, AsmFault>, AllocError>
    ensures refused { IfOk result (λ meaning. is_err meaning ≡ is_err (meaning_of text.now)) }
    ensures means { IfOk result (λ meaning. IfOk meaning (Means text.now)) }
{
    match assemble(alloc, text) {
        Ok(image) => Ok(Ok(image)),
        Err(
            AsmFault {
                kind: Fault::NoMemory,
                ..
            },
        ) => Err(AllocError),
        Err(fault) => Ok(Err(fault)),
    }
}

/// Reports the faults of a text that is refused for one.
fn report_faults<'t>(
    alloc: Global,
    source: &SourceFacts<'t>,
    text: &'t [u8],
    meaning: &Result<Image, AsmFault>,
    messages: &mut Vec<Message>,
) -> Result<(), AllocError>
    ensures { OnOk result (has_error messages.new.items ≡ (has_error messages.old.items || is_err meaning.now)) }
{
    let Err(fault) = meaning else {
        return Ok(());
    };
    let faults = faults_of(alloc, source, text, *fault)?;
    faults.report(Severity::Error, messages)
}

/// The faults of a text of which this is one.
fn faults_of<'t>(
    alloc: Global,
    source: &SourceFacts<'t>,
    text: &'t [u8],
    fault: AsmFault,
) -> Result<Notes, AllocError>
    ensures { IfOk result (λ notes. 0 < vec_len notes.found) }
{
    let mut notes = Notes::new(alloc);
    note_faults(&mut notes, source, text)?;
    if notes.len() == 0 {
        let spot = Spot {
            line: fault.line.max(1),
            ..Spot::FIRST
        };
        notes.number(fault.kind.number());
        notes.say(spot, kind_words(fault.kind), KINDS)?;
    }
    Ok(notes)
}

/// Notes the faults of all lines, and then those of the text as a whole, until there are as many as are reported.
fn note_faults<'t>(
    notes: &mut Notes,
    source: &SourceFacts<'t>,
    text: &'t [u8],
) -> Result<(), AllocError> {
    let mut totals = Totals::NONE;
    for line in CountedLines::of(text) {
        if notes.is_full() {
            return Ok(());
        }
        note_foreign(notes, &line)?;
        totals.see(&line);
        let reader = Reader::at(source, line);
        match reader.own_item() {
            Ok(item) => totals.take(notes, reader.line(), item)?,
            Err(kind) => note_line(notes, &reader, kind)?,
        }
    }
    totals.note_missing(notes, source, last_line(text))
}

/// Notes what is wrong with a line whose least fault is of this kind.
fn note_line(notes: &mut Notes, reader: &Reader, kind: Fault) -> Result<(), AllocError> {
    let before = notes.len();
    if note_label(notes, reader)? {
        note_statement(notes, reader)?;
    }
    if notes.len() == before {
        let spot = reader.spot(reader.line().statement());
        notes.number(kind.number());
        notes.say(spot, kind_words(kind), KINDS)?;
    }
    Ok(())
}

/// What a fault of this kind is.
fn kind_words(kind: Fault) -> &'static str {
    match kind {
        Fault::NotAscii => "a byte is above 7F",
        Fault::Unknown => "the head of the statement or its suffix is unknown",
        Fault::Operand => "the operands are not those that the operation takes",
        Fault::Range => "a number is out of range",
        Fault::TwoWriters => "two operations write one register",
        Fault::LabelTwice => "the label stands on an earlier line already",
        Fault::LabelMissing => "a label stands on no line",
        Fault::Directive => "a directive stands twice, or is missing",
        Fault::Limit => "there are too many words or entries",
        Fault::NoMemory => "there is no memory",
    }
}
