//! A run of an image's processors at once, and the schedule that does the same.

ghost use Rattle.std.specs.Prelude.{◌≡◌, ◌≢◌, ◌<◌, ◌≤◌, ◌*◌, ◌↔◌, ℕ, length, IfOk, Err};
ghost use Rattle.processor.specs.World.{most_steps};
ghost use Rattle.shared_history.specs.Parts.{PartsValue};
ghost use Rattle.shared_history.specs.Gathering.{Refuses};
ghost use Rattle.memory_lock.specs.Runs.{AreRunParts, IsThreaded};

use crate::gates::Gate;
use crate::turns::run_threads;
use image_file::Image;
use shared_history::{GatherFault, Parts, PartsFault, Woven, gather};
use std::alloc::Global;
use std::sync::Wait;
use std::thread::Threads;

/// Why a run of threads returns no schedule.
#[derive(Drop)]
pub enum ThreadsFault<'i, const S: usize> {
    /// There were no parts for the run.
    Build(PartsFault),
    /// What the run left was not gathered: its parts, and why.
    Gather(Parts<'i, S>, GatherFault),
}

/// Runs the image's processors at once, each for `fuel` steps or until no stream of it runs, and returns a schedule
/// that does the same: it holds each processor's steps in order, makes just the history that the memory kept, and
/// ends in the processors' states and the memory's words. Two processors go through the turn memory, others through
/// a lock.
///
/// It is refused as `Parts::new` and `gather` refuse; two processors are never refused as `Torn`.
pub fn threaded<'i, R: Threads + Wait + Sync, G: Gate + Sync, const S: usize>(
    rt: &R,
    alloc: Global,
    image: &'i Image,
    fuel: usize,
    gate: &G,
) -> Result<Woven<'i, S>, ThreadsFault<'i, S>>
    ensures ok { IfOk result (λ w. IsThreaded image.entry.now fuel w) }
    ensures streams { (result ≡ Err (ThreadsFault.Build PartsFault.Streams)) ↔ (S < image.entry.now.slim) }
    ensures too_long { (result ≡ Err (ThreadsFault.Build PartsFault.TooLong))
        ↔ ((image.entry.now.slim ≤ S) × (most_steps < length image.entry.now.entries * fuel)) }
    ensures gather { (parts : PartsValue) (fault : GatherFault) → result ≡ Err (ThreadsFault.Gather parts fault)
        → AreRunParts image.entry.now fuel parts × Refuses parts fault }
    ensures two { length image.entry.now.entries ≡ 2 → (parts : PartsValue) (p : ℕ)
        → result ≢ Err (ThreadsFault.Gather parts (GatherFault.Torn p)) }
{
    let parts = match Parts::new(alloc, image, fuel) {
        Ok(parts) => parts,
        Err(fault) => return Err(ThreadsFault::Build(fault)),
    };
    match gather(alloc, run_threads(rt, parts, gate)) {
        Ok(woven) => Ok(woven),
        Err((parts, fault)) => Err(ThreadsFault::Gather(parts, fault)),
    }
}
