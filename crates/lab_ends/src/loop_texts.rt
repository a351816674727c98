//! Endless loops in words: how the streams go on in them, and the steps of a cycle.

use crate::end_texts::{put_stopped, put_wait};
use image_file::Image;
use image_machines::{by_room, loaded};
use lab_texts::{Notation, ProgramNames, RunPieces, TextWriter, push_changed_words, put_part_of};
use machine::Machine;
use processor::Step;
use space_ends::{Going, GoingStream, SpaceEnd};
use std::alloc::{AllocError, Global};

/// The most steps of a cycle that are shown one by one.
const MOST_SHOWN: usize = 12;

/// A set of worlds of an image that spins, in words: who was stopped, who runs in it and who waits in each of its worlds, the
/// words that differ from the image in its first one, and those that change in it.
pub(crate) fn loop_text(
    alloc: Global,
    notation: Notation<'_, '_>,
    image: &Image,
    end: &SpaceEnd,
) -> Result<String, AllocError> {
    let names = notation.names;
    let mut text = String::new(alloc);
    let mut out = TextWriter::take(&mut text);
    put_stopped(&mut out, &end.state.stopped);
    put_streams(&mut out, names, image, end);
    out.give_back(&mut text)?;
    push_changed_words(&mut text, names, notation.style, &end.state.changed)?;
    push_changing(&mut text, names, &end.changing)?;
    Ok(text)
}

/// Adds the streams of a set of worlds of an image, and how they go on.
fn put_streams(out: &mut TextWriter, names: &ProgramNames<'_>, image: &Image, end: &SpaceEnd) {
    for GoingStream { stream, going } in &end.going {
        put_part_of(out, 0, "");
        out.put_stream(stream.p, stream.s);
        match *going {
            Going::Runs => out.put(" runs"),
            // (it is stuck there in each of them, so the first one shows what it waits for)
            Going::WaitsFor(address) => put_wait(out, names, image, &end.state.changed, address),
            Going::Waits => out.put(" waits"),
        }
    }
}

/// Adds the words at these byte addresses, as ones that change.
fn push_changing(
    text: &mut String,
    names: &ProgramNames<'_>,
    changing: &[u64],
) -> Result<(), AllocError> {
    let mut out = TextWriter::take(text);
    for address in changing {
        put_part_of(&mut out, 0, "");
        names.put_address(&mut out, *address);
        out.put(" keeps changing");
    }
    out.give_back(text)
}

/// The cycle of an end of an image in words, each step by its stream and the place in the program where it stands; empty
/// where there is none.
pub fn cycle_text(
    alloc: Global,
    names: &ProgramNames<'_>,
    image: &Image,
    end: &SpaceEnd,
) -> Result<String, AllocError> {
    let mut words = String::new(alloc);
    if !end.cycle.is_empty() {
        by_room!(image, push_cycle(alloc, &mut words, names, image, end))?;
    }
    Ok(words)
}

/// Adds the steps of a cycle, on machines with room for `S` streams a processor.
fn push_cycle<const S: usize>(
    alloc: Global,
    words: &mut String,
    names: &ProgramNames<'_>,
    image: &Image,
    end: &SpaceEnd,
) -> Result<(), AllocError> {
    let mut machine = loaded::<S>(alloc, image)?;
    machine.run(&end.schedule);
    let mut out = TextWriter::take(words);
    put_length(&mut out, end.cycle.len());
    for (number, step) in end.cycle.iter().take(MOST_SHOWN).enumerate() {
        out.put(if number == 0 { "" } else { ", " });
        put_place_of(&mut out, names, &machine, *step);
        machine.step(step.p, step.s);
    }
    let is_cut = end.cycle.len() > MOST_SHOWN;
    out.put(if is_cut { ", .." } else { "" });
    out.give_back(words)
}

/// Adds in how many steps it is.
fn put_length(out: &mut TextWriter, count: usize) {
    out.put("loops in ");
    out.put_number(count as u64);
    out.put(if count == 1 { " step: " } else { " steps: " });
}

/// Adds a stream and the place where it stands.
fn put_place_of<const S: usize>(
    out: &mut TextWriter,
    names: &ProgramNames<'_>,
    machine: &Machine<'_, S>,
    step: Step,
) {
    out.put_stream(step.p, step.s);
    out.put(" ");
    if let Some(stream) = machine.stream(step.p, step.s) {
        names.put_place(out, stream.ssw().pc);
    }
}
