//! Streams that wait for one another in a circle.

ghost use Rattle.std.specs.Prelude.{◌≡◌, ◌≢◌, List, [], IfOk};
ghost use Rattle.processor.specs.declared.steps.Step.{Step};
ghost use Rattle.waiting.specs.Stuck.{IsStandstill};
ghost use Rattle.stream_waits.specs.Circles.{next_of, IsCircle, IsWayBack};

use crate::waits::StreamWait;
use machine::Machine;
use processor::Step;
use std::alloc::{AllocError, Global};
use waiting::is_standstill;

/// A circle of a standstill: two or more different streams, each of which waits for a word that the next one turned
/// last, and the last one for a word that the first one did. Empty exactly where the machine is at no standstill, or
/// these waits have no circle.
pub fn circle_of<const S: usize>(
    alloc: Global,
    machine: &Machine<'_, S>,
    waits: &[StreamWait],
) -> Result<Vec<Step>, AllocError>
    ensures sound { IfOk result (λ v. v.items ≢ []
        → IsStandstill machine.now.image machine.now.world × IsCircle waits.now v.items) }
    ensures complete { IfOk result (λ v. v.items ≡ []
        → IsStandstill machine.now.image machine.now.world → (c : List Step) → ¬ (IsCircle waits.now c)) }
{
    if is_standstill(machine) {
        circle_among(alloc, waits)
    } else {
        Ok(Vec::new(alloc))
    }
}

/// A circle among waits; empty exactly where there is none.
fn circle_among(alloc: Global, waits: &[StreamWait]) -> Result<Vec<Step>, AllocError>
    ensures sound { IfOk result (λ v. v.items ≢ [] → IsCircle waits.now v.items) }
    ensures complete { IfOk result (λ v. v.items ≡ [] → (c : List Step) → ¬ (IsCircle waits.now c)) }
{
    for wait in waits {
        let way = way_back(alloc, waits, wait.stream)?;
        if way.len() >= 2 {
            return Ok(way);
        }
    }
    Ok(Vec::new(alloc))
}

/// The streams from this one on, each followed by the one that it waits for, until that is this one again; empty where
/// it is not within as many as wait.
fn way_back(alloc: Global, waits: &[StreamWait], first: Step) -> Result<Vec<Step>, AllocError>
    ensures { IfOk result (λ v. IsWayBack waits.now first v.items) }
{
    let mut way = Vec::new(alloc);
    let mut at = first;
    for _taken in 0..waits.len() {
        way.push(at)?;
        let Some(next) = next_of(waits, at) else {
            return Ok(Vec::new(alloc));
        };
        if next == first {
            return Ok(way);
        }
        at = next;
    }
    Ok(Vec::new(alloc))
}

/// The stream that last turned the word for which a stream waits; None where it does not wait, or nobody turned it.
fn next_of(waits: &[StreamWait], stream: Step) -> Option<Step>
    ensures { result ≡ next_of waits.now stream }
{
    for wait in waits {
        if wait.stream == stream {
            return match wait.turn {
                Some(turn) => Some(turn.step),
                None => None,
            };
        }
    }
    None
}
