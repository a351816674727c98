//! Where the streams of a run that did not end go on, in words.

use image_file::Image;
use image_machines::{by_room, loaded};
use lab_texts::{Notation, ProgramNames, RunPieces, TextWriter, put_part_of};
use machine::Machine;
use processor::Step;
use std::alloc::{AllocError, Global};
use waiting::{running_streams, wait_of};

/// Of how many of the last steps of a run it is said where they were taken.
const LAST_STEPS: usize = 1000;

/// The places at which a stream took steps.
#[derive(Clone, Copy)]
struct GoingOn {
    /// The stream.
    stream: Step,
    /// The first of the places in the program.
    first: u32,
    /// The last of them.
    last: u32,
}

/// Where each stream that still runs, and waits for no word, took its steps among the last 1,000 of a run: from which place of
/// the program to which. A stream that took none of them is left out.
pub fn going_text(
    alloc: Global,
    notation: Notation<'_, '_>,
    image: &Image,
    steps: &[Step],
) -> Result<String, AllocError> {
    let mut text = String::new(alloc);
    by_room!(
        image,
        push_going(alloc, &mut text, notation.names, image, steps)
    )?;
    Ok(text)
}

/// Adds that, on machines with room for `S` streams a processor.
fn push_going<const S: usize>(
    alloc: Global,
    text: &mut String,
    names: &ProgramNames<'_>,
    image: &Image,
    steps: &[Step],
) -> Result<(), AllocError> {
    let mut machine = loaded::<S>(alloc, image)?;
    let (before, last) = steps.split_at(steps.len().saturating_sub(LAST_STEPS));
    machine.run(before);
    let mut going = Vec::new(alloc);
    for step in last {
        note_place(&mut going, &machine, *step)?;
        machine.step(step.p, step.s);
    }
    let running = running_streams(alloc, &machine)?;
    let mut out = TextWriter::take(text);
    for stream in &running {
        if wait_of(&machine, stream.p, stream.s).is_none() {
            put_going(&mut out, names, &going, *stream);
        }
    }
    out.give_back(text)
}

/// Notes the place at which a stream takes a step.
fn note_place<const S: usize>(
    going: &mut Vec<GoingOn>,
    machine: &Machine<'_, S>,
    step: Step,
) -> Result<(), AllocError> {
    let Some(stream) = machine.stream(step.p, step.s) else {
        return Ok(());
    };
    let place = stream.ssw().pc;
    for known in going.iter_mut() {
        if known.stream == step {
            known.first = known.first.min(place);
            known.last = known.last.max(place);
            return Ok(());
        }
    }
    going.push(GoingOn {
        stream: step,
        first: place,
        last: place,
    })?;
    Ok(())
}

/// Adds where a stream goes on, if it took a step that was noted.
fn put_going(out: &mut TextWriter, names: &ProgramNames<'_>, going: &[GoingOn], stream: Step) {
    for known in going {
        if known.stream == stream {
            put_part_of(out, 0, "");
            out.put_stream(stream.p, stream.s);
            out.put(" goes on at ");
            names.put_place(out, known.first);
            if known.last > known.first {
                out.put(" to ");
                names.put_place(out, known.last);
            }
        }
    }
}
