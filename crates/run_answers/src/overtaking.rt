//! How often a stream is overtaken while it waits.

ghost use Rattle.std.specs.Prelude.{◌≡◌, ◌<◌, Err, List, IfOk};
ghost use Rattle.starving_streams.specs.ClaimsTypes.Rest.{Rest};
ghost use Rattle.std.specs.List.{list_any};
ghost use Rattle.starving_streams.specs.Reports.{HasAllStates};
ghost use Rattle.starving_streams.specs.Graphs.{IsGraph};
ghost use Rattle.run_answers.specs.Answers.{IsOvertakingAnswer};
ghost use Rattle.run_answers.specs.Waiting.{steps_elsewhere};

use crate::answers::RunAnswer;
use crate::overtaking_runs::overtaking_run;
use crate::waiting_marks::waiting_marks;
use fair_rounds::{Edge, EntriesAnswer, SoughtWays, find_entries, is_inside, is_step};
use machine::LoadFault;
use processor::Step;
use starving_streams::Graph;
use starving_streams::claims::Overtaking;
use starving_streams::space::Space;
use std::alloc::{AllocError, Global};

/// Whether a stream is overtaken at most as often as it may be, by a space that has all worlds and all steps between them,
/// and its graph. Ways are sought that begin after a step of the stream.
pub(crate) fn overtaken<const S: usize>(
    alloc: Global,
    space: &Space<'_>,
    graph: &Graph,
    asked: &Overtaking,
) -> Result<RunAnswer, LoadFault>
    ensures is { IfOk result (λ a. HasAllStates space.now → (rests : List Rest) → IsGraph space.now rests graph.now
        → IsOvertakingAnswer space.now.image space.now.begin rests asked.now a) }
    ensures streams { result ≡ Err LoadFault.Streams → S < space.now.image.slim }
{
    let marks = waiting_marks::<S>(alloc, space, asked)?;
    let begins = step_targets(alloc, &graph.edges, &marks.waits, asked.who)?;
    if has_step_elsewhere(&graph.edges, &marks.waits, &begins, asked.who) {
        return Ok(RunAnswer::Undecided);
    }
    let ways = SoughtWays {
        edges: &graph.edges,
        within: &marks.waits,
        begins: &begins,
    };
    match find_entries(alloc, ways, &marks.inside, asked.most)? {
        EntriesAnswer::Found(way) => Ok(overtaking_run(
            alloc,
            space,
            &graph.edges,
            &marks.waits,
            asked.who,
            &way,
        )?),
        EntriesAnswer::Absent => Ok(RunAnswer::Kept),
        EntriesAnswer::Undecided => Ok(RunAnswer::Undecided),
    }
}

/// For each place whether a step of the stream within the set leads there. `has_step_elsewhere` asks whether it is so.
fn step_targets(
    alloc: Global,
    edges: &[Edge],
    set: &[bool],
    who: Step,
) -> Result<Vec<bool>, AllocError> {
    let mut targets = vec![in alloc; false; set.len()]?;
    for number in 0..edges.len() {
        let edge = edges[number];
        let place = edge.to as usize;
        if is_inside(edge, set) && is_step(who, edge.step) && place < targets.len() {
            targets[place] = true;
        }
    }
    Ok(targets)
}

/// Whether a step of the stream within the set leads to no place from which ways begin.
fn has_step_elsewhere(edges: &[Edge], set: &[bool], begins: &[bool], who: Step) -> bool
    ensures { result ≡ list_any (steps_elsewhere set.now begins.now who) edges.now }
{
    edges.iter().any(
        |edge: &Edge| -> bool
            ensures { result ≡ steps_elsewhere set.entry.now begins.entry.now who edge.now }
        {
            let place = edge.to as usize;
            is_inside(*edge, set)
                && is_step(who, edge.step)
                && !(place < begins.len() && begins[place])
        },
    )
}
