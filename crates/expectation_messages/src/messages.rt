//! Faults of files of expectations as messages.

use crate::fault_texts::words_of;
use command_parts::Program;
use command_parts::texts::ProgramNames;
use expectation_files::{
    FileFault, KnownNames, LineFault, file_faults, form_faults, line_of, widest_image, word_of,
    word_span,
};
use fault_messages::{MOST_FOUND, Message, Severity, Spot};
use image_file::Image;
use source_places::SourcePlaces;
use std::alloc::{AllocError, Global};

/// Why a file that says nothing is refused.
pub(crate) const EMPTY: &str = "nothing is expected here, so nothing can be judged";

/// In how many messages about a file it is said which name may be meant: each compares a name with all that there are.
const MOST_COMPARED: usize = 100;

/// What is wrong with a file of expectations, a message for each line with a fault, [`MOST_FOUND`] at most. Without a program a
/// name is no fault.
pub fn check_expectations(
    alloc: Global,
    text: &[u8],
    program: Option<&Program>,
) -> Result<Vec<Message>, AllocError> {
    match program {
        Some(program) => {
            let places = SourcePlaces::of(alloc, &program.text)?;
            let known = KnownNames {
                words: places.data_names(),
                labels: places.labels(),
            };
            let faults = file_faults(alloc, known, &program.image, text)?;
            let names = ProgramNames::of(alloc, &program.text)?;
            messages_of(alloc, text, &faults, &program.image, &names)
        }
        None => {
            let faults = form_faults(alloc, text)?;
            let image = widest_image(alloc)?;
            let names = ProgramNames::of(alloc, &[])?;
            messages_of(alloc, text, &faults, &image, &names)
        }
    }
}

/// The messages of the faults of a text, for a program with this image and these names.
fn messages_of(
    alloc: Global,
    text: &[u8],
    faults: &[FileFault],
    image: &Image,
    names: &ProgramNames<'_>,
) -> Result<Vec<Message>, AllocError> {
    let mut messages = Vec::new(alloc);
    let mut begin = LineBegin::FIRST;
    for (index, fault) in faults.iter().take(MOST_FOUND).enumerate() {
        match *fault {
            FileFault::Line { line, fault } => {
                begin = begin.of_line(text, line);
                let names = if index < MOST_COMPARED {
                    Some(names)
                } else {
                    None
                };
                messages.push(message_on(alloc, text, begin, fault, image, names)?)?;
            }
            FileFault::Empty => messages.push(empty_message(alloc)?)?,
            FileFault::NoMemory => return Err(AllocError),
        }
    }
    Ok(messages)
}

/// The message of a fault on a line, which marks the word that is wrong. Without names it does not say which one may be meant.
pub(crate) fn message_on(
    alloc: Global,
    text: &[u8],
    begin: LineBegin,
    fault: LineFault,
    image: &Image,
    names: Option<&ProgramNames<'_>>,
) -> Result<Message, AllocError> {
    let bytes = line_of(text.get(begin.start..).unwrap_or(b""), 1);
    let span = word_span(bytes, fault.word);
    let word = word_of(bytes, fault.word);
    let spot = Spot {
        line: begin.line,
        start: begin.start,
        column: span.column,
        width: span.width.max(1),
    };
    Ok(error_at(spot, words_of(alloc, fault.kind, word, image, names)?))
}

/// The message that a file says nothing.
fn empty_message(alloc: Global) -> Result<Message, AllocError> {
    Ok(error_at(Spot::FIRST, String::from_str(alloc, EMPTY)?))
}

/// An error in these words at a place.
fn error_at(spot: Spot, words: String) -> Message {
    Message {
        severity: Severity::Error,
        number: None,
        line: spot.line,
        column: spot.column,
        width: spot.width,
        words,
        help: None,
        start: spot.start,
    }
}

/// Where a line begins in a text.
#[derive(Clone, Copy)]
pub(crate) struct LineBegin {
    /// The line, counted from 1.
    line: usize,
    /// How many bytes of the text stand before it.
    start: usize,
}

impl LineBegin {
    /// The first line's.
    pub(crate) const FIRST: LineBegin = LineBegin { line: 1, start: 0 };

    /// That of a later line of a text.
    pub(crate) fn of_line(self, text: &[u8], line: usize) -> LineBegin {
        let rest = text.get(self.start..).unwrap_or(b"");
        let mut start = self.start;
        for before in rest
            .split(|byte| *byte == b'\n')
            .take(line.saturating_sub(self.line))
        {
            start = start.saturating_add(before.len()).saturating_add(1);
        }
        LineBegin {
            line,
            start: start.min(text.len()),
        }
    }
}
