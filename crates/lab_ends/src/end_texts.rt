//! What an end shows, in words.

use changed_words::ChangedWord;
use image_file::Image;
use image_machines::{by_room, loaded};
use lab_texts::{
    Notation, ProgramNames, RunPieces, TextWriter, full_word, push_changed_words, put_part_of,
};
use processor::Step;
use space_ends::states::{EndState, TrapStop};
use std::alloc::{AllocError, Global};
use tag_memory::Word;

/// What an end of an image shows, in words: who was stopped, who waits, and the words that changed.
pub fn state_text(
    alloc: Global,
    notation: Notation<'_, '_>,
    image: &Image,
    state: &EndState,
) -> Result<String, AllocError> {
    let mut text = String::new(alloc);
    let mut out = TextWriter::take(&mut text);
    put_stopped(&mut out, &state.stopped);
    out.give_back(&mut text)?;
    push_left(&mut text, notation, image, state)?;
    Ok(text)
}

/// What the end of a run of these steps shows, in words: the same, and where in the program each stream was stopped.
pub fn state_text_of_run(
    alloc: Global,
    notation: Notation<'_, '_>,
    image: &Image,
    steps: &[Step],
    state: &EndState,
) -> Result<String, AllocError> {
    let mut text = String::new(alloc);
    if !state.stopped.is_empty() {
        by_room!(
            image,
            push_stopped_at(
                alloc,
                &mut text,
                notation.names,
                image,
                steps,
                &state.stopped
            )
        )?;
    }
    push_left(&mut text, notation, image, state)?;
    Ok(text)
}

/// Adds who waits at an end of an image, and the words that changed.
fn push_left(
    text: &mut String,
    notation: Notation<'_, '_>,
    image: &Image,
    state: &EndState,
) -> Result<(), AllocError> {
    let mut out = TextWriter::take(text);
    put_waiting(&mut out, notation.names, image, state);
    out.give_back(text)?;
    push_changed_words(text, notation.names, notation.style, &state.changed)
}

/// Adds who was stopped by which trap.
pub(crate) fn put_stopped(out: &mut TextWriter, stopped: &[TrapStop]) {
    for stop in stopped {
        put_stop(out, stop);
    }
}

/// Adds that a stream was stopped by a trap.
fn put_stop(out: &mut TextWriter, stop: &TrapStop) {
    put_part_of(out, 0, "");
    out.put_stream(stop.stream.p, stop.stream.s);
    out.put(" by ");
    out.put_trap(stop.trap);
}

/// Adds who was stopped in a run of these steps by which trap, and where, on machines with room for `S` streams a processor.
fn push_stopped_at<const S: usize>(
    alloc: Global,
    text: &mut String,
    names: &ProgramNames<'_>,
    image: &Image,
    steps: &[Step],
    stopped: &[TrapStop],
) -> Result<(), AllocError> {
    let mut machine = loaded::<S>(alloc, image)?;
    machine.run(steps);
    let mut out = TextWriter::take(text);
    for stop in stopped {
        put_stop(&mut out, stop);
        if let Some(stream) = machine.stream(stop.stream.p, stop.stream.s) {
            out.put(", at ");
            names.put_place(&mut out, stream.ssw().pc);
        }
    }
    out.give_back(text)
}

/// Adds which streams wait for which word, and for which state of it.
fn put_waiting(out: &mut TextWriter, names: &ProgramNames<'_>, image: &Image, state: &EndState) {
    for stream in &state.waiting {
        put_part_of(out, 0, "");
        out.put_stream(stream.stream.p, stream.stream.s);
        put_wait(out, names, image, &state.changed, stream.address);
    }
}

/// Adds that a stream waits for a word of an image, by its byte address, and for which state of it: the one that the word has
/// not, where these words have changed.
pub(crate) fn put_wait(
    out: &mut TextWriter,
    names: &ProgramNames<'_>,
    image: &Image,
    changed: &[ChangedWord],
    address: u64,
) {
    out.put(" waits for ");
    names.put_address(out, address);
    if let Some(word) = word_at(image, changed, address) {
        out.put(" to be ");
        out.put(full_word(!word.is_full()));
    }
}

/// The word of an image at a byte address, where these words have changed.
fn word_at(image: &Image, changed: &[ChangedWord], address: u64) -> Option<Word> {
    for word in changed {
        if word.address == address {
            return Some(word.after);
        }
    }
    image.cells().get((address / 8) as usize).copied()
}
