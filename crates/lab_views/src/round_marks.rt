//! The marks of a round at the end of a run.

use asked_programs::EndRound;
use lab_json::Object;
use plain_text::plural;
use serde_json::Value;
use std::alloc::{AllocError, Global};

/// Steps that stand side by side in a run: those after so many, up to so many.
#[derive(Clone, Copy, Debug)]
pub(crate) struct RunPart {
    /// How many steps stand before it.
    pub from: usize,
    /// How many there are up to its end.
    pub to: usize,
}

/// The parts of a run of so many steps: what is before its round, the round as it is taken first, and all that follows. Without
/// a round the first part is the whole run.
pub(crate) fn parts_of(round: Option<EndRound>, count: usize) -> [RunPart; 3] {
    let (begin, next) = match round {
        Some(round) => (round.begin, round.begin.saturating_add(round.steps)),
        None => (count, count),
    };
    [
        RunPart { from: 0, to: begin },
        RunPart {
            from: begin,
            to: next,
        },
        RunPart {
            from: next,
            to: count,
        },
    ]
}

/// Adds the mark above the part of a run after so many steps: where a round begins, or begins again.
pub(crate) fn push_mark(
    out: &mut String,
    round: EndRound,
    position: usize,
) -> Result<(), AllocError> {
    if position != round.begin {
        return push_return(out, round, position);
    }
    let steps = round.steps;
    let some_steps = plural(steps);
    let first = round.begin.saturating_add(1);
    write!(
        out,
        "from step {first} on again and again: {steps} step{some_steps}\n"
    )
}

/// Adds that a run has come back after so many steps.
pub(crate) fn push_return(
    out: &mut String,
    round: EndRound,
    position: usize,
) -> Result<(), AllocError> {
    write!(out, "after step {position} the state is the same as ")?;
    match round.begin {
        0 => out.push_str("at the start\n"),
        begin => write!(out, "after step {begin}\n"),
    }
}

/// A round as an object (docs/LAB_REFERENCE.md, "JSON").
pub(crate) fn round_value(alloc: Global, round: EndRound) -> Result<Value, AllocError> {
    let mut object = Object::of_kind(alloc, "round");
    object.put_number("after", round.begin as u64);
    object.put_number("steps", round.steps as u64);
    object.put_number("times", round.times as u64);
    object.whole()
}
