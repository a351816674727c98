//! Calls that make texts, and those that keep labels and words.
use crate::appended::{HISTORY_LINE, TRACE_LINE};
use crate::endings::Ended;
use crate::machines::ended_machine;
use crate::programs::{END, FIRST, first_entry};
use asm_line::{Labels, Place};
use debug_commands::WordList;
use image_file::Image;
use machine::Machine;
use std::alloc::{AllocError, Global};
use stream_core::{Outcome, Stream, stream_text};
use tag_memory::{Tags, Word};
use trace_text::{history_line, trace_line, world_text};

/// After `LIT r1, 3`, with no trap entry.
pub(crate) const STREAM_TEXT: &str =
    "Running ssw 0000000000000001 xr 0000000000000000 retries 0\nr01 0000000000000003\nt0 00000000FFFFFFFF\n";

/// How a call ended that makes a text.
fn made(text: Result<String, AllocError>, wanted: &str) -> Ended {
    match text {
        Ok(text) => Ended::answered(text.as_str() == wanted),
        Err(AllocError) => Ended::Refused,
    }
}

pub(crate) fn of_trace_line(alloc: Global) -> Ended {
    made(
        trace_line(alloc, 1, FIRST, 0, Outcome::Done),
        TRACE_LINE[0].1,
    )
}

pub(crate) fn of_history_line(alloc: Global) -> Ended {
    made(history_line(alloc, 1, &first_entry()), HISTORY_LINE[0].1)
}

/// Where the label of two lines stands first.
const PLACE: Place = Place { line: 2, value: 1 };

fn is_noted(labels: &mut Labels<'static>, line: usize, value: usize) -> bool {
    labels.note(Some(b"loop"), Place { line, value }).is_ok()
}

fn is_found(labels: &Labels) -> bool {
    labels.find(b"loop") == Some(PLACE)
}

/// Two lines with one label, which keeps its first place.
pub(crate) fn of_labels(alloc: Global) -> Ended {
    let mut labels = Labels::new(alloc);
    if !is_noted(&mut labels, 2, 1) {
        return Ended::refused(labels.find(b"loop").is_none());
    }
    if is_noted(&mut labels, 5, 4) {
        Ended::answered(is_found(&labels))
    } else {
        Ended::refused(is_found(&labels))
    }
}

pub(crate) fn of_word_list(alloc: Global) -> Ended {
    let word = Word::new(5, Tags::FULL);
    let mut list = WordList::new(alloc);
    match list.push(8, word) {
        Ok(()) => Ended::answered(list.words() == [(8, word)].as_slice()),
        Err(AllocError) => Ended::refused(list.words().is_empty()),
    }
}

/// The stream that takes the first step.
fn stepped_stream(alloc: Global, image: &Image) -> Option<Stream> {
    let Ok(mut machine) = Machine::<2>::load(alloc, image) else {
        return None;
    };
    machine.step(0, 0);
    machine.stream(0, 0).copied()
}

pub(crate) fn of_stream_text(alloc: Global, image: &Image) -> Ended {
    match stepped_stream(alloc, image) {
        Some(stream) => made(stream_text(alloc, &stream), STREAM_TEXT),
        None => Ended::NotMade,
    }
}

/// The text of a machine.
fn text_of(alloc: Global, machine: &Machine<2>) -> Result<String, AllocError> {
    world_text(alloc, machine, machine.image())
}

/// Whether a machine has this text; none where there is no memory for it.
pub(crate) fn has_text(alloc: Global, machine: &Machine<2>, wanted: &str) -> Option<bool> {
    match text_of(alloc, machine) {
        Ok(text) => Some(text.as_str() == wanted),
        Err(AllocError) => None,
    }
}

pub(crate) fn of_world_text(alloc: Global, image: &Image) -> Ended {
    let Some(machine) = ended_machine(alloc, image) else {
        return Ended::NotMade;
    };
    match has_text(alloc, &machine, END) {
        Some(is_right) => Ended::answered(is_right),
        None => Ended::Refused,
    }
}
