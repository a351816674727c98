//! What a run to a stop looks at after each step.

ghost use Rattle.std.specs.Prelude.{◌≡◌, List, Option, IfOk};
ghost use Rattle.tag_memory.specs.Storage.{TaggedMemory};
ghost use Rattle.processor.specs.World.{World};
ghost use Rattle.replay_debugger.specs.Stops.{any_stops};
ghost use Rattle.replay_debugger.specs.StopFinders.{IsFinderOf};
ghost use Rattle.replay_debugger.specs.declared.points.Point.{Point};

use crate::breakpoints::Breakpoints;
use crate::points::Points;
use crate::watched_words::{WatchedWord, look_again, watched_words};
use machine::Machine;
use processor::Step;
use std::alloc::{AllocError, Global};

/// The breakpoints of points, and the watched words as they were last seen.
#[derive(Drop)]
pub(crate) struct StopFinder {
    breakpoints: Breakpoints,
    words: Vec<WatchedWord>,
}

impl StopFinder {
    /// What stops by these points, with the watched words as a machine shows them.
    pub(crate) fn of<const S: usize>(
        alloc: Global,
        points: &Points,
        machine: &Machine<S>,
    ) -> Result<StopFinder, AllocError>
        ensures { IfOk result (λ s. IsFinderOf points.now machine.now.world.memory s) }
    {
        Ok(StopFinder {
            breakpoints: Breakpoints::of(alloc, points)?,
            words: watched_words(alloc, points, machine)?,
        })
    }

    /// Sees the watched words as a machine shows them.
    pub(crate) fn look<const S: usize>(&mut self, machine: &Machine<S>)
        ensures { (points : List (Option Point)) (m : TaggedMemory)
            → IsFinderOf points m self.old → IsFinderOf points machine.now.world.memory self.new }
    {
        look_again(&mut self.words, machine);
    }

    /// Looks at the machine after a step, and says whether its position is a stop. `next` is the step that follows.
    #[inline(always)]
    pub(crate) fn meet<const S: usize>(&mut self, machine: &Machine<S>, next: Option<Step>) -> bool
        ensures stop { (points : List (Option Point)) (before : World)
            → IsFinderOf points before.memory self.old
            → result ≡ any_stops before machine.now.world next points }
        ensures looks { (points : List (Option Point)) (m : TaggedMemory)
            → IsFinderOf points m self.old → IsFinderOf points machine.now.world.memory self.new }
    {
        let changed = look_again(&mut self.words, machine);
        changed || self.breakpoints.are_met(machine, next)
    }
}
