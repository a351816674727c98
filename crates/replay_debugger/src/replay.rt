//! A machine at a position of a schedule.

ghost use Rattle.std.specs.Prelude.{◌≡◌, ◌+◌, ◌-◌, ◌<◌, ◌≤◌, ◌↔◌, List, Option, length, slice_get, IfOk};
ghost use Rattle.tag_memory.specs.Storage.{TaggedMemory};
ghost use Rattle.processor.specs.World.{start};
ghost use Rattle.replay_debugger.specs.Stops.{is_stop};
ghost use Rattle.replay_debugger.specs.Places.{StandsAt, IsOn};
ghost use Rattle.replay_debugger.specs.StopFinders.{IsFinderOf, IsRunToStop, IsLastInRun};
ghost use Rattle.replay_debugger.specs.declared.points.Point.{Point};

use crate::checkpoints::Checkpoints;
use crate::stop_finder::StopFinder;
use image_file::Image;
use machine::{LoadFault, Machine};
use processor::Step;
use std::alloc::{AllocError, Global};

/// A machine, and how many steps of a schedule it has taken.
#[derive(Drop)]
pub(crate) struct Replay<'i, const S: usize> {
    pub(crate) machine: Machine<'i, S>,
    pub(crate) position: usize,
}

impl<'i, const S: usize> Replay<'i, S> {
    /// A new machine, before any step.
    pub(crate) fn start(alloc: Global, image: &'i Image) -> Result<Replay<'i, S>, LoadFault>
        ensures position { IfOk result (λ r. r.position ≡ 0) }
        ensures machine { IfOk result
            (λ r. r.machine ≡ record { image = image.entry.now; world = start image.entry.now }) }
        ensures streams { (result ≡ Err LoadFault.Streams) ↔ (S < image.entry.now.slim) }
    {
        let machine = Machine::load(alloc, image)?;
        Ok(Replay {
            machine,
            position: 0,
        })
    }

    /// The same machine at the same position.
    pub(crate) fn try_clone(&self) -> Result<Replay<'i, S>, AllocError>
        ensures { IfOk result (λ r. r ≡ self.now) }
    {
        Ok(Replay {
            machine: self.machine.try_clone()?,
            position: self.position,
        })
    }

    /// Goes on to a position.
    pub(crate) fn run_to(&mut self, checkpoints: &mut Checkpoints<'i, S>, goal: usize)
        requires on { IsOn checkpoints.old self.old }
        requires forward { self.old.position ≤ goal }
        requires within { goal ≤ length checkpoints.old.schedule }
        ensures position { self.new.position ≡ goal }
        ensures on { IsOn checkpoints.old self.new }
        ensures kept { checkpoints.new ≡ checkpoints.old }
    {
        while self.position < goal {
            let pause = checkpoints.pause_after(self.position, goal);
            self.machine
                .run(&checkpoints.schedule()[self.position..pause]);
            self.position = pause;
            checkpoints.keep(self);
        }
    }

    /// Takes the next step, and says whether the position after it is a stop.
    #[inline(always)]
    fn advance(&mut self, schedule: &[Step], stops: &mut StopFinder) -> bool
        requires within { self.old.position < length schedule.now }
        requires stands { StandsAt schedule.now self.old.machine self.old.position }
        ensures position { self.new.position ≡ self.old.position + 1 }
        ensures image { self.new.machine.image ≡ self.old.machine.image }
        ensures stands { StandsAt schedule.now self.new.machine self.new.position }
        ensures stop { (points : List (Option Point)) → IsFinderOf points self.old.machine.world.memory stops.old
            → result ≡ is_stop self.old.machine.image schedule.now points (self.old.position + 1) }
        ensures looks { (points : List (Option Point)) → IsFinderOf points self.old.machine.world.memory stops.old
            → IsFinderOf points self.new.machine.world.memory stops.new }
    {
        let step = schedule[self.position];
        self.machine.step(step.p, step.s);
        self.position += 1;
        stops.meet(&self.machine, self.next(schedule))
    }

    /// The step that follows.
    fn next(&self, schedule: &[Step]) -> Option<Step>
        ensures { result ≡ slice_get schedule.now self.now.position }
    {
        schedule.get(self.position).copied()
    }

    /// Goes on to the next stop, or to a limit, and says whether it is a stop.
    fn step_to_stop(&mut self, schedule: &[Step], stops: &mut StopFinder, limit: usize) -> bool
        requires forward { self.old.position ≤ limit }
        requires within { limit ≤ length schedule.now }
        requires stands { StandsAt schedule.now self.old.machine self.old.position }
        ensures later { self.old.position < limit → self.old.position < self.new.position }
        ensures within { self.new.position ≤ limit }
        ensures image { self.new.machine.image ≡ self.old.machine.image }
        ensures stands { StandsAt schedule.now self.new.machine self.new.position }
        ensures goes { (points : List (Option Point)) → IsFinderOf points self.old.machine.world.memory stops.old
            → IsRunToStop (is_stop self.old.machine.image schedule.now points) self.old.position limit
            self.new.position result }
        ensures looks { (points : List (Option Point)) → IsFinderOf points self.old.machine.world.memory stops.old
            → IsFinderOf points self.new.machine.world.memory stops.new }
    {
        while self.position < limit {
            if self.advance(schedule, stops) {
                return true;
            }
        }
        false
    }

    /// The same, with clones kept on the way.
    pub(crate) fn run_to_stop(
        &mut self,
        checkpoints: &mut Checkpoints<'i, S>,
        stops: &mut StopFinder,
        limit: usize,
    ) -> bool
        requires on { IsOn checkpoints.old self.old }
        requires forward { self.old.position ≤ limit }
        requires within { limit ≤ length checkpoints.old.schedule }
        ensures later { self.old.position < limit → self.old.position < self.new.position }
        ensures within { self.new.position ≤ limit }
        ensures on { IsOn checkpoints.old self.new }
        ensures kept { checkpoints.new ≡ checkpoints.old }
        ensures goes { (points : List (Option Point)) → IsFinderOf points self.old.machine.world.memory stops.old
            → IsRunToStop (is_stop checkpoints.old.image checkpoints.old.schedule points) self.old.position limit
            self.new.position result }
        ensures looks { (points : List (Option Point)) → IsFinderOf points self.old.machine.world.memory stops.old
            → IsFinderOf points self.new.machine.world.memory stops.new }
    {
        while self.position < limit {
            let pause = checkpoints.pause_after(self.position, limit);
            let found = self.step_to_stop(checkpoints.schedule(), stops, pause);
            checkpoints.keep(self);
            if found {
                return true;
            }
        }
        false
    }

    /// Goes on to a limit, and says which is the last stop on the way; at the start its position is one of them.
    pub(crate) fn last_stop(
        &mut self,
        checkpoints: &mut Checkpoints<'i, S>,
        stops: &mut StopFinder,
        limit: usize,
    ) -> Option<usize>
        requires on { IsOn checkpoints.old self.old }
        requires forward { self.old.position ≤ limit }
        requires within { limit ≤ length checkpoints.old.schedule }
        ensures kept { checkpoints.new ≡ checkpoints.old }
        ensures last { (points : List (Option Point)) (seen : TaggedMemory) → IsFinderOf points seen stops.old
            → IsLastInRun (is_stop checkpoints.old.image checkpoints.old.schedule points) self.old.position limit
            result }
        ensures looks { (points : List (Option Point)) (seen : TaggedMemory) → IsFinderOf points seen stops.old
            → IsFinderOf points self.new.machine.world.memory stops.new }
    {
        stops.look(&self.machine);
        let mut last = None;
        if self.position == 0 && stops.meet(&self.machine, self.next(checkpoints.schedule())) {
            last = Some(0);
        }
        while self.position < limit {
            if self.run_to_stop(checkpoints, stops, limit) {
                last = Some(self.position);
            }
        }
        last
    }
}
