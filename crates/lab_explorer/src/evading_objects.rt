//! Runs that evade a condition, as objects (docs/LAB_REFERENCE.md, "JSON").

use crate::evading_text::{EvadingProgram, ShownEvasion};
use lab_json::{Object, line_value, turns_value};
use search_texts::parts::push_object;
use search_texts::searches::endless::answered::RunEnd;
use serde_json::Value;
use std::alloc::{AllocError, Global};

/// Adds the object of each condition that not all runs keep.
pub(crate) fn push_evading_objects(
    alloc: Global,
    out: &mut String,
    program: EvadingProgram<'_>,
) -> Result<(), AllocError> {
    for place in 0..program.count() {
        if let Some(shown) = program.evasion_at(place) {
            push_object(alloc, out, &evading_value(alloc, shown)?)?;
        }
    }
    Ok(())
}

/// A condition that not all runs keep: its line, and the parts of a run that evades it.
fn evading_value(alloc: Global, shown: ShownEvasion<'_>) -> Result<Value, AllocError> {
    let mut object = Object::of_kind(alloc, "evading");
    object.put(
        "claim",
        line_value(alloc, shown.line.number, &shown.line.words),
    );
    object.put_number("steps", shown.run.stem.len() as u64);
    object.put("schedule", turns_value(alloc, &shown.run.stem));
    object.put("way", turns_value(alloc, &shown.run.way));
    object.put(
        "round",
        match &shown.run.end {
            RunEnd::Repeats(round) => turns_value(alloc, round),
            RunEnd::Stops | RunEnd::Anything => Ok(Value::Null),
        },
    );
    object.put_text(
        "follows",
        match &shown.run.end {
            RunEnd::Repeats(_) => "round",
            RunEnd::Stops => "nothing",
            RunEnd::Anything => "anything",
        },
    );
    object.whole()
}
