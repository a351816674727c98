//! The first world of a space from which a stream loops alone.

ghost use Rattle.std.specs.Prelude.{◌≡◌, ◌<◌, ◌↔◌, IfOk, MatchOption, None, Err};
ghost use Rattle.processor.specs.declared.steps.Step.{Step};
ghost use Rattle.schedule_space.specs.Spaces.{count, world_of};
ghost use Rattle.busy_streams.specs.Busy.{IsShortestCycle, IsNeverBusy};
ghost use Rattle.busy_streams.specs.BusySpaces.{HasAllWorlds, HasNoneBusy, IsFirstBusy};
ghost use Rattle.busy_streams.specs.OwnCycles.{ComesBack, HasOwnCycles, IsFreeCycle, IsFirstCycle};

use crate::stream_cycles::{OwnCycles, comes_back, own_cycles, own_links};
use machine::LoadFault;
use processor::Step;
use schedule_space::Space;
use std::alloc::{AllocError, Global};
use terminal_components::shortest_cycle;
use waiting::{is_stuck, running_streams};

/// A stream that loops alone.
#[derive(Clone, Copy, Debug, PartialEq, Eq)]
pub struct Busy {
    /// The place of the world from which it does.
    pub place: usize,
    /// The stream.
    pub stream: Step,
    /// In how many steps.
    pub steps: usize,
}

/// The first world of a space from which a stream loops alone: steps of this stream lead back to the very same world,
/// and they are not all tried in vain. Of several such streams there the first in the order of processor and stream. None
/// exactly where no stream does from any world. That is so of a space that has all worlds and all steps between them.
///
/// `Streams` only where the image's slim is above `S`.
pub fn first_busy<const S: usize>(
    alloc: Global,
    space: &Space<'_>,
) -> Result<Option<Busy>, LoadFault>
    ensures first { IfOk result (λ o. HasAllWorlds space.now
        → MatchOption o (HasNoneBusy space.now) (λ b. IsFirstBusy space.now b)) }
    ensures streams { result ≡ Err LoadFault.Streams → S < space.now.image.slim }
    ensures never { IfOk result (λ o. HasAllWorlds space.now
        → (o ≡ None) ↔ IsNeverBusy space.now.image space.now.begin) }
{
    let cycles = own_cycles(alloc, space)?;
    for place in 0..space.len() {
        if let Some(stream) = first_cycle_at::<S>(alloc, space, &cycles, place)? {
            let steps = cycle_length(alloc, space, stream, place)?;
            return Ok(Some(Busy {
                place,
                stream,
                steps,
            }));
        }
    }
    Ok(None)
}

/// The first stream that runs in the world at a place, is not stuck there, and comes back.
fn first_cycle_at<const S: usize>(
    alloc: Global,
    space: &Space<'_>,
    cycles: &[OwnCycles],
    place: usize,
) -> Result<Option<Step>, LoadFault>
    requires cycles { HasOwnCycles space.now cycles.now }
    requires within { place < count space.now }
    ensures first { IfOk result (λ o. MatchOption o ((t : Step) → ¬ (IsFreeCycle space.now place t))
        (λ t. IsFirstCycle space.now place t)) }
    ensures streams { result ≡ Err LoadFault.Streams → S < space.now.image.slim }
{
    let machine = space.machine::<S>(alloc, place)?;
    let running = running_streams(alloc, &machine)?;
    for number in 0..running.len() {
        let stream = running[number];
        let is_free = !is_stuck(&machine, stream.p, stream.s);
        if is_free && comes_back(space, cycles, stream, place) {
            return Ok(Some(stream));
        }
    }
    Ok(None)
}

/// In how many steps a stream loops alone from the world at a place from which it does: as many as a shortest cycle along its
/// edges has, and 1 if there is none.
fn cycle_length(
    alloc: Global,
    space: &Space<'_>,
    stream: Step,
    place: usize,
) -> Result<usize, AllocError>
    requires { place < count space.now }
    ensures { IfOk result (λ n. HasAllWorlds space.now → ComesBack space.now place stream
        → IsShortestCycle space.now.image (world_of space.now place) stream n) }
{
    let links = own_links(alloc, space.edges(), stream)?;
    match shortest_cycle(alloc, space.len(), &links, place)? {
        Some(numbers) => Ok(numbers.len()),
        None => Ok(1),
    }
}
