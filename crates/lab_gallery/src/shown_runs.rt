//! The run that a card shows, as its small picture needs it.

use image_file::Image;
use image_machines::{by_room, loaded};
use processor::Step;
use replay_page::json_values::{List, outcome_name, stream_value};
use serde_json::Value;
use std::alloc::{AllocError, Global};
use stream_core::Outcome;

/// The most steps of a run that a card draws.
const MOST_DRAWN: usize = 100;

/// The last steps of a run: of each the stream, and how it came out.
pub(crate) fn drawn_steps(
    alloc: Global,
    image: &Image,
    steps: &[Step],
) -> Result<Value, AllocError> {
    by_room!(image, drawn_on(alloc, image, steps))
}

/// The same on a machine with room for `S` streams a processor.
fn drawn_on<const S: usize>(
    alloc: Global,
    image: &Image,
    steps: &[Step],
) -> Result<Value, AllocError> {
    let mut machine = loaded::<S>(alloc, image)?;
    let first = steps.len().saturating_sub(MOST_DRAWN);
    let mut drawn = List::new(alloc);
    for (place, step) in steps.iter().enumerate() {
        let outcome = machine.step(step.p, step.s);
        if place >= first {
            drawn.put(step_pair(alloc, *step, outcome));
        }
    }
    drawn.whole()
}

/// A step as its stream and how it came out.
fn step_pair(alloc: Global, step: Step, outcome: Outcome) -> Result<Value, AllocError> {
    let mut pair = List::new(alloc);
    pair.put(stream_value(alloc, step));
    pair.put(outcome_value(alloc, outcome));
    pair.whole()
}

/// How a step came out, as a text.
fn outcome_value(alloc: Global, outcome: Outcome) -> Result<Value, AllocError> {
    Ok(Value::String(outcome_name(alloc, outcome)?))
}
