//! The turns of a schedule.

ghost use Rattle.std.specs.Prelude.{◌≡◌, ◌≤◌, All, IfOk, map};
ghost use Rattle.std.specs.List.{flat_map};
ghost use Rattle.text_parts.specs.Runs.{run_things, NeighboursDiffer};
ghost use Rattle.trace_text.specs.Runs.{step_runs};
ghost use Rattle.schedule_turns.specs.Turns.{run_of_turn, turn_steps};

use processor::Step;
use std::alloc::{AllocError, Global};
use std::fmt;
use text_parts::run_length;

/// Steps of one stream, one after the other.
#[derive(Clone, Copy, Debug, PartialEq, Eq)]
pub struct Turn {
    /// The step that is taken.
    pub stream: Step,
    /// How many times it is taken, at least 1 in a turn of a schedule.
    pub count: usize,
}

/// The turn as a line of a schedule says it: processor, stream, how often ("Schedules", docs/FORMATS.md).
impl fmt::Display for Turn {
    ghost use Rattle.std.specs.Prelude.{Some};
    ghost use Rattle.schedule_turns.specs.Turns.{turn_text};

    ghost output = { λ turn. Some (turn_text turn) };

    fn fmt<W: fmt::Write>(&self, f: &mut fmt::Formatter<W>) -> fmt::Result {
        let p = self.stream.p;
        let s = self.stream.s;
        let count = self.count;
        write!(f, "{p} {s} {count}")
    }
}

/// The turns of a schedule: its runs of equal steps, each as long as it can be. Only memory can be missing.
pub fn turns_of(alloc: Global, steps: &[Step]) -> Result<Vec<Turn>, AllocError>
    ensures runs { IfOk result (λ turns. map run_of_turn turns.items ≡ step_runs steps.now) }
    ensures steps { IfOk result (λ turns. flat_map turn_steps turns.items ≡ steps.now) }
    ensures some { IfOk result (λ turns. All (λ turn. 1 ≤ turn.count) turns.items) }
    ensures apart { IfOk result (λ turns. NeighboursDiffer (map run_of_turn turns.items)) }
{
    let mut turns = Vec::new(alloc);
    let mut rest = steps;
    while let Some(first) = rest.first() {
        let count = run_length(rest, first);
        turns.push(Turn {
            stream: *first,
            count,
        })?;
        let (_, after) = rest.split_at(count);
        rest = after;
    }
    Ok(turns)
}
