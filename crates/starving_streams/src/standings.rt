//! Which streams run at the places of a space, which of them may not rest there, and whether their next steps would complete.

ghost use Rattle.std.specs.Prelude.{◌≡◌, ◌<◌, ◌++◌, Err, map, filter, IsTrue, Contains, IfOk, OnOk};
ghost use Rattle.waiting.specs.Running.{running_steps, AreRunning};
ghost use Rattle.schedule_space.specs.Spaces.{count};
ghost use Rattle.starving_streams.specs.Starving.{is_completed, can_complete};
ghost use Rattle.fair_rounds.specs.Classes.{is_step};
ghost use Rattle.starving_streams.specs.Graphs.{AreStandings, AreDues, HaveStreams, HasAdded, standing_of, may_not_rest, due_of};

use crate::rests::may_rest;
use claims::Rest;
use fair_rounds::Standing;
use machine::{LoadFault, Machine};
use processor::Step;
use schedule_space::Space;
use std::alloc::{AllocError, Global};
use stream_core::Outcome;
use waiting::running_streams;

/// The streams that run at the places of a space.
#[derive(Drop)]
pub(crate) struct Standings {
    /// All of them.
    pub(crate) all: Vec<Standing>,
    /// Those that may not rest there.
    pub(crate) due: Vec<Standing>,
}

/// The streams that run at each place of a space.
pub(crate) fn standings_of<const S: usize>(
    alloc: Global,
    space: &Space<'_>,
    rests: &[Rest],
) -> Result<Standings, LoadFault>
    ensures is { IfOk result (λ s. AreStandings space.now (count space.now) s.all.items) }
    ensures dues { IfOk result (λ s. AreDues space.now rests.now (count space.now) s.due.items) }
    ensures streams { result ≡ Err LoadFault.Streams → S < space.now.image.slim }
{
    let mut standings = Standings {
        all: Vec::new(alloc),
        due: Vec::new(alloc),
    };
    for place in 0..space.len() {
        let Ok(number) = u32::try_from(place) else {
            return Err(LoadFault::NoMemory);
        };
        let machine = space.machine::<S>(alloc, place)?;
        push_standings(alloc, &machine, rests, number, &mut standings)?;
    }
    Ok(standings)
}

/// Adds those of the world of a machine, which is at this place.
fn push_standings<const S: usize>(
    alloc: Global,
    machine: &Machine<'_, S>,
    rests: &[Rest],
    place: u32,
    standings: &mut Standings,
) -> Result<(), AllocError>
    ensures is { OnOk result (standings.new.all.items ≡ standings.old.all.items
        ++ map (standing_of machine.now.image machine.now.world place) (running_steps machine.now.world)) }
    ensures dues { OnOk result (standings.new.due.items ≡ standings.old.due.items
        ++ map (standing_of machine.now.image machine.now.world place)
        (filter (may_not_rest rests.now machine.now.world) (running_steps machine.now.world))) }
    ensures all { OnOk result (AreRunning machine.now.world (running_steps machine.now.world)) }
{
    let running = running_streams(alloc, machine)?;
    for number in 0..running.len() {
        let step = running[number];
        let can_complete = can_complete(machine, step)?;
        let standing = Standing {
            place,
            step,
            can_complete,
        };
        standings.all.push(standing)?;
        push_due(&mut standings.due, standing, may_rest(machine, rests, step))?;
    }
    Ok(())
}

/// Adds a standing, unless its stream may rest.
fn push_due(dues: &mut Vec<Standing>, standing: Standing, rests: bool) -> Result<(), AllocError>
    ensures { OnOk result (dues.new.items ≡ dues.old.items ++ due_of rests standing) }
{
    if rests {
        return Ok(());
    }
    Ok(dues.push(standing)?)
}

/// Whether the next step of a stream would complete.
fn can_complete<const S: usize>(machine: &Machine<'_, S>, step: Step) -> Result<bool, AllocError>
    ensures { IfOk result (λ b. b ≡ can_complete machine.now.image machine.now.world step) }
{
    let mut next = machine.try_clone()?;
    Ok(is_completed(next.step(step.p, step.s)))
}

/// Whether a step that comes out so completes.
fn is_completed(outcome: Outcome) -> bool
    ensures { result ≡ is_completed outcome }
{
    match outcome {
        Outcome::Blocked => false,
        Outcome::Skipped | Outcome::Done | Outcome::Trapped(_) | Outcome::Stopped(_) => true,
    }
}

/// The streams that stand somewhere, each once.
pub(crate) fn streams_of(alloc: Global, standings: &[Standing]) -> Result<Vec<Step>, AllocError>
    ensures { IfOk result (λ v. HaveStreams standings.now v.items) }
{
    let mut streams: Vec<Step> = Vec::new(alloc);
    for number in 0..standings.len() {
        push_new(&mut streams, standings[number].step)?;
    }
    Ok(streams)
}

/// Adds a stream that is not there yet.
#[tactic(auto, using(crate::proofs::PlaceStreams::added))]
fn push_new(streams: &mut Vec<Step>, who: Step) -> Result<(), AllocError>
    ensures { OnOk result (HasAdded streams.old.items who streams.new.items) }
{
    if has_stream(streams, who) {
        return Ok(());
    }
    streams.push(who)?;
    Ok(())
}

/// Whether a stream is one of these.
fn has_stream(streams: &[Step], who: Step) -> bool
    ensures { IsTrue result → Contains streams.now who }
{
    for number in 0..streams.len() {
        if is_step(who, streams[number]) {
            return true;
        }
    }
    false
}

/// Whether it is this stream.
pub(crate) fn is_step(who: Step, step: Step) -> bool
    ensures { result ≡ is_step who step }
{
    step.p == who.p && step.s == who.s
}
