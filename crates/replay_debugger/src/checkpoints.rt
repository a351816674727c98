//! A schedule, and machines that are kept at some of its positions.

mod kept_clones;
mod other_schedule;

ghost use Rattle.std.specs.Prelude.{◌≡◌, ◌<◌, ◌≤◌, ℕ, ◌%◌, length, IfOk, IfSome, IfNone, slice_index_or};
ghost use Rattle.std.specs.List.{All};
ghost use Rattle.replay_debugger.specs.declared.replay.Replay.{Replay};
ghost use Rattle.replay_debugger.specs.Places.{CheckpointsValue, StandsAt, IsOn, checkpoints_of};
ghost use Rattle.replay_debugger.specs.Checkpoints.{IsCheckpoint, IsNearest, NoneNear};

use crate::replay::Replay;
use image_file::Image;
use machine::LoadFault;
use processor::Step;
use std::alloc::{AllocError, Global};
use std::marker::Model;

/// The most positions that are kept beside the start.
const MOST_KEPT: usize = 32;

/// The spacing of a new schedule.
const FIRST_SPACING: usize = 256;

/// A schedule over an image, with clones of a machine at its start and at multiples of a spacing. Contracts see the
/// image and the schedule alone: which positions are kept changes no answer.
///
/// A clone that finds no memory is left out. Where there is none for a machine that goes on from a kept position, the
/// kept one itself is taken.
#[derive(Drop)]
pub(crate) struct Checkpoints<'i, const S: usize> {
    image: &'i Image,
    schedule: Vec<Step>,
    spacing: usize,
    start: Option<Replay<'i, S>>,
    kept: Vec<Replay<'i, S>>,
}

impl<'i, const S: usize> Model for Checkpoints<'i, S> {
    ghost use Rattle.replay_debugger.specs.Places.{CheckpointsValue, checkpoints_of};
    ghost use Rattle.replay_debugger.specs.Checkpoints.{AreCheckpoints};

    ghost Value = { CheckpointsValue };

    ghost view = { λ c. checkpoints_of c.image.now c.schedule.items };

    ghost invariant = { λ c.
        AreCheckpoints S (checkpoints_of c.image.now c.schedule.items) c.spacing c.start c.kept.items };
}

impl<'i, const S: usize> Checkpoints<'i, S> {
    /// The checkpoints of a schedule over which nothing has run, from a machine before any step.
    pub(crate) fn new(
        alloc: Global,
        schedule: Vec<Step>,
        start: &Replay<'i, S>,
    ) -> Checkpoints<'i, S>
        requires first { start.now.position ≡ 0 }
        requires stands { StandsAt schedule.items start.now.machine 0 }
        ensures { result ≡ checkpoints_of start.now.machine.image schedule.items }
    {
        Checkpoints {
            image: start.machine.image(),
            schedule,
            spacing: FIRST_SPACING,
            start: start.try_clone().ok(),
            kept: Vec::new(alloc),
        }
    }

    /// The schedule.
    pub(crate) fn schedule(&self) -> &[Step]
        ensures { result.now ≡ self.now.schedule }
    {
        &self.schedule
    }

    /// The allocator of all that is kept.
    pub(crate) fn allocator(&self) -> Global {
        *self.schedule.allocator()
    }

    /// Where a run has to pause next: at the next multiple of the spacing, or at its goal.
    pub(crate) fn pause_after(&self, position: usize, goal: usize) -> usize
        requires { position < goal }
        ensures later { position < result }
        ensures within { result ≤ goal }
    {
        let left = self.spacing - position % self.spacing;
        if goal - position <= left {
            goal
        } else {
            position + left
        }
    }

    /// Keeps a clone of a machine that a run has brought to a multiple of the spacing, unless the position is kept.
    pub(crate) fn keep(&mut self, replay: &Replay<'i, S>)
        requires { IsOn self.old replay.now }
        ensures { self.new ≡ self.old }
    {
        let position = replay.position;
        if position == 0
            || !position.is_multiple_of(self.spacing)
            || has_position(&self.kept, position)
        {
            return;
        }
        if self.kept.len() >= MOST_KEPT {
            self.double_spacing();
        }
        if position.is_multiple_of(self.spacing) && self.kept.len() < MOST_KEPT {
            if let Ok(clone) = replay.try_clone() {
                let _ = self.kept.push(clone);
            }
        }
    }

    /// Doubles the spacing, and drops what is kept at no multiple of it.
    fn double_spacing(&mut self)
        ensures { self.new ≡ self.old }
    {
        let spacing = self.spacing.saturating_mul(2);
        drop_between(&mut self.kept, spacing);
        self.spacing = spacing;
    }

    /// A machine at the greatest position that is kept from `least` to `goal`, the start aside.
    pub(crate) fn nearest(&mut self, least: usize, goal: usize) -> Option<Replay<'i, S>>
        ensures on { IfSome result (IsOn self.new) }
        ensures from { IfSome result (λ r. least ≤ r.position) }
        ensures within { IfSome result (λ r. r.position ≤ goal) }
        ensures kept { self.new ≡ self.old }
    {
        let place = nearest_place(&self.kept, least, goal)?;
        match self.kept[place].try_clone() {
            Ok(replay) => Some(replay),
            Err(_) => Some(self.kept.swap_remove(place)),
        }
    }

    /// A machine at the greatest kept position that is at or below a goal.
    pub(crate) fn nearest_below(&mut self, goal: usize) -> Result<Replay<'i, S>, AllocError>
        ensures on { IfOk result (IsOn self.new) }
        ensures within { IfOk result (λ r. r.position ≤ goal) }
        ensures kept { self.new ≡ self.old }
    {
        match self.nearest(1, goal) {
            Some(replay) => Ok(replay),
            None => self.first(),
        }
    }

    /// A machine at the start.
    fn first(&mut self) -> Result<Replay<'i, S>, AllocError>
        ensures on { IfOk result (IsOn self.new) }
        ensures first { IfOk result (λ r. r.position ≡ 0) }
        ensures kept { self.new ≡ self.old }
    {
        if let Some(start) = &self.start {
            if let Ok(replay) = start.try_clone() {
                return Ok(replay);
            }
        }
        match self.start.take() {
            Some(replay) => Ok(replay),
            None => self.load(),
        }
    }

    /// A new machine before any step.
    fn load(&self) -> Result<Replay<'i, S>, AllocError>
        ensures on { IfOk result (IsOn self.now) }
        ensures first { IfOk result (λ r. r.position ≡ 0) }
    {
        match Replay::start(self.allocator(), self.image) {
            Ok(replay) => Ok(replay),
            Err(LoadFault::NoMemory) => Err(AllocError),
            Err(LoadFault::Streams) => unreachable!(),
        }
    }
}

/// Whether a position is kept.
fn has_position<const S: usize>(kept: &[Replay<S>], position: usize) -> bool {
    for replay in kept {
        if replay.position == position {
            return true;
        }
    }
    false
}

/// Drops what is kept at no multiple of a spacing.
fn drop_between<const S: usize>(kept: &mut Vec<Replay<S>>, spacing: usize)
    ensures few { length kept.new.items ≤ length kept.old.items }
    ensures spaced { (course : CheckpointsValue) (old : ℕ) → All (IsCheckpoint course old) kept.old.items
        → All (IsCheckpoint course spacing) kept.new.items }
{
    let mut place = 0;
    while place < kept.len() {
        if kept[place].position.is_multiple_of(spacing) {
            place += 1;
        } else {
            kept.swap_remove(place);
        }
    }
}

/// The place of the greatest position from `least` to `goal`.
fn nearest_place<const S: usize>(kept: &[Replay<S>], least: usize, goal: usize) -> Option<usize>
    ensures there { IfSome result (λ place. place < length kept.now) }
    ensures nearest { IfSome result (λ place.
        (d : Replay S) → IsNearest least goal kept.now (slice_index_or kept.now place d)) }
    ensures none { IfNone result (NoneNear least goal kept.now) }
{
    let mut nearest = None;
    let mut least = least;
    for (place, replay) in kept.iter().enumerate() {
        if least <= replay.position && replay.position <= goal {
            nearest = Some(place);
            least = replay.position;
        }
    }
    nearest
}
