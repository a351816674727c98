//! Sets of steps that are apart from those of all others, found by adding who may meet one of them.

ghost use Rattle.std.specs.Prelude.{IsTrue, IfOk, IfSome};
ghost use Rattle.std.specs.List.{Contains};
ghost use Rattle.tag_memory.specs.Unforwarded.{IsUnforwarded};
ghost use Rattle.processor.specs.declared.steps.Step.{Step};
ghost use Rattle.waiting.specs.Running.{runs_in};
ghost use Rattle.first_sets.specs.ApartSets.{IsApartSet};

use crate::deciding::{is_apart_set, request_of};
use machine::Machine;
use processor::Step;
use std::alloc::{AllocError, Global};
use stream_core::Stream;
use tag_memory::Request;
use touched_words::TouchTable;

/// A set of steps that is apart from those of all others in a machine's world, by the tables of its processors: the least of
/// those that are found from each of the steps `firsts` on, and with it. None where there is none but the set of all. That
/// one is found where there is one is not promised. `running` has the steps of all streams that run. An error where memory
/// is refused.
pub fn apart_set<const S: usize>(
    alloc: Global,
    machine: &Machine<'_, S>,
    tables: &[TouchTable],
    running: &[Step],
    firsts: &[Step],
) -> Result<Option<Vec<Step>>, AllocError>
    requires unforwarded { IsUnforwarded machine.now.world.memory }
    requires running { (t : Step) → IsTrue (runs_in machine.now.world t) → Contains running.now t }
    ensures { IfOk result (λ o. IfSome o (λ set. IsApartSet machine.now.image tables.now machine.now.world set.items)) }
{
    let runners = runners_of(alloc, machine, tables, running)?;
    let mut members = Vec::new(alloc);
    let mut most = running.len();
    let mut least: Option<Vec<Step>> = None;
    for first in 0..running.len() {
        if !is_among(&runners, first, firsts)
            || !is_grown_below(tables, &runners, first, most, &mut members)?
        {
            continue;
        }
        let set = steps_of(alloc, &runners, &members)?;
        if is_apart_set(machine, tables, running, &set) {
            most = set.len();
            least = Some(set);
        }
    }
    Ok(least)
}

/// A stream that runs, as the requests of others may meet those that it comes to.
#[derive(Clone, Copy)]
struct Runner {
    step: Step,
    /// What its step asks for, where it executes an instruction that makes a request and asks for no stream.
    request: Option<Request>,
    /// Where it is in its program.
    place: u32,
    /// Whether nobody reads what its instruction loads.
    is_unread: bool,
    /// Whether it stands there by its processor's table.
    is_standing: bool,
}

/// Whether the step of a runner is one of these.
fn is_among(runners: &[Runner], runner: usize, steps: &[Step]) -> bool {
    match runners.get(runner) {
        None => false,
        Some(found) => steps.contains(&found.step),
    }
}

/// The streams of these steps.
fn runners_of<const S: usize>(
    alloc: Global,
    machine: &Machine<'_, S>,
    tables: &[TouchTable],
    running: &[Step],
) -> Result<Vec<Runner>, AllocError> {
    let mut runners = Vec::new(alloc);
    for step in running {
        if let Some(stream) = machine.stream(step.p, step.s) {
            runners.push(Runner {
                step: *step,
                request: request_of(machine, *step),
                place: stream.ssw().pc,
                is_unread: loads_unread(tables, *step, stream),
                is_standing: stands(tables, *step, stream),
            })?;
        }
    }
    Ok(runners)
}

/// Whether nobody reads what the instruction of a stream loads, by the table of its processor.
fn loads_unread(tables: &[TouchTable], step: Step, stream: &Stream) -> bool {
    match tables.get(usize::from(step.p)) {
        None => false,
        Some(table) => table.is_unread(stream.ssw().pc),
    }
}

/// Whether the stream of a step stands by the table of its processor.
fn stands(tables: &[TouchTable], step: Step, stream: &Stream) -> bool {
    match tables.get(usize::from(step.p)) {
        None => false,
        Some(table) => table.is_standing(stream),
    }
}

/// Makes the members those of the set of one stream and of all that may meet the request of one of it, and says whether they
/// are fewer than `most` and all make a request. Else they are some of them.
fn is_grown_below(
    tables: &[TouchTable],
    runners: &[Runner],
    first: usize,
    most: usize,
    members: &mut Vec<usize>,
) -> Result<bool, AllocError> {
    members.clear();
    members.push(first)?;
    for at in 0..runners.len() {
        if members.len() >= most {
            return Ok(false);
        }
        let Some(member) = members.get(at).copied() else {
            return Ok(true);
        };
        let Some(
            Runner {
                request: Some(request),
                is_unread,
                ..
            },
        ) = runners.get(member)
        else {
            return Ok(false);
        };
        let is_quiet = *is_unread && request.is_add();
        add_who_meets(tables, runners, request, is_quiet, members)?;
    }
    Ok(false)
}

/// Adds the streams that may meet a request.
fn add_who_meets(
    tables: &[TouchTable],
    runners: &[Runner],
    request: &Request,
    is_quiet: bool,
    members: &mut Vec<usize>,
) -> Result<(), AllocError> {
    for (place, runner) in runners.iter().enumerate() {
        if may_meet(tables, runner, request, is_quiet) && !members.contains(&place) {
            members.push(place)?;
        }
    }
    Ok(())
}

/// Whether a stream may come to meet a request.
fn may_meet(tables: &[TouchTable], runner: &Runner, request: &Request, is_quiet: bool) -> bool {
    if !runner.is_standing {
        return true;
    }
    match tables.get(usize::from(runner.step.p)) {
        None => true,
        Some(table) => !table.is_passed(runner.place, request, is_quiet),
    }
}

/// The steps of the members.
fn steps_of(alloc: Global, runners: &[Runner], members: &[usize]) -> Result<Vec<Step>, AllocError> {
    let mut steps = Vec::new(alloc);
    for member in members {
        if let Some(runner) = runners.get(*member) {
            steps.push(runner.step)?;
        }
    }
    Ok(steps)
}
