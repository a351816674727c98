//! Where two runs part, and in what their worlds differ.

use crate::steps::changes_value;
use crate::streams::stream_value;
use crate::values::Object;
use lab_texts::ProgramNames;
use serde_json::Value;
use std::alloc::{AllocError, Global};
use step_views::{Change, StepView};
use stream_core::Outcome;

/// The first step at which two runs differ, by its number, and what each of them takes there.
pub fn parting_value(
    alloc: Global,
    names: &ProgramNames,
    number: usize,
    one: Option<&StepView>,
    other: Option<&StepView>,
) -> Result<Value, AllocError> {
    let mut parting = Object::of_kind(alloc, "parting");
    parting.put_number("step", number as u64);
    parting.put("one", taken_value(alloc, names, one));
    parting.put("other", taken_value(alloc, names, other));
    parting.whole()
}

/// The stream of a step, and the place of the program and the statement where it stands, which are null of a stream that does
/// not run; null where the run has no such step.
fn taken_value(
    alloc: Global,
    names: &ProgramNames,
    step: Option<&StepView>,
) -> Result<Value, AllocError> {
    let Some(view) = step else {
        return Ok(Value::Null);
    };
    let mut taken = Object::new(alloc);
    taken.put("stream", stream_value(alloc, view.step));
    taken.put_number("pc", u64::from(view.pc));
    match view.outcome {
        Outcome::Skipped => {
            taken.put("place", Ok(Value::Null));
            taken.put("statement", Ok(Value::Null));
        }
        Outcome::Done | Outcome::Blocked | Outcome::Trapped(_) | Outcome::Stopped(_) => {
            taken.put("place", place_value(alloc, names, view.pc));
            taken.put_text("statement", names.statement(view.pc));
        }
    }
    taken.whole()
}

/// The place of a program word, as a label and an offset.
fn place_value(alloc: Global, names: &ProgramNames, word: u32) -> Result<Value, AllocError> {
    let mut place = String::new(alloc);
    names.push_place(&mut place, word)?;
    Ok(Value::String(place))
}

/// The first position at which the worlds of two runs differ, and the places in which they do: each with what stands there
/// in the one and in the other.
pub fn difference_value(
    alloc: Global,
    position: usize,
    places: &[Change],
) -> Result<Value, AllocError> {
    let mut difference = Object::of_kind(alloc, "difference");
    difference.put_number("position", position as u64);
    difference.put("differ", changes_value(alloc, places));
    difference.whole()
}
