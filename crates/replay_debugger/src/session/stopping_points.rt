//! Which points make the position of a session a stop.

ghost use Rattle.std.specs.Prelude.{◌≡◌, ◌==◌, ◌&&◌, IfOk};
ghost use Rattle.replay_debugger.specs.Stops.{point_stops, word_differs, tags_differ, is_met};
ghost use Rattle.replay_debugger.specs.PointLists.{stopping_keys_of, stopping_keys, points_from};

use crate::points::{Point, Points};
use crate::session::Session;
use machine::Machine;
use processor::Step;
use std::alloc::{AllocError, Global};
use stream_core::Status;
use tag_memory::Word;

impl<'i, const S: usize> Session<'i, S> {
    /// The keys of the points that make the session's position a stop, by rising key. The session stays as it was; the
    /// position before it is replayed.
    pub fn stopping_points(&mut self, alloc: Global) -> Result<Vec<u64>, AllocError>
        ensures keys { IfOk result (λ keys. keys.items ≡ stopping_keys_of self.old) }
        ensures kept { self.new ≡ self.old }
    {
        let last = self.replay.position.saturating_sub(1);
        let mut before = self.checkpoints.nearest_below(last)?;
        before.run_to(&mut self.checkpoints, last);
        let next = self.next_step();
        keys_that_stop(
            alloc,
            &self.points,
            &before.machine,
            &self.replay.machine,
            next,
        )
    }
}

/// The keys of the points that stop at a machine, given the machine before the last step, and the step that follows.
fn keys_that_stop<const S: usize>(
    alloc: Global,
    points: &Points,
    before: &Machine<S>,
    machine: &Machine<S>,
    next: Option<Step>,
) -> Result<Vec<u64>, AllocError>
    ensures { IfOk result (λ keys. keys.items
        ≡ stopping_keys before.now.world machine.now.world next (points_from 0 points.now)) }
{
    let mut keys = Vec::new(alloc);
    for (key, point) in points.slots.iter() {
        if stops(*point, before, machine, next) {
            keys.push(key as u64)?;
        }
    }
    Ok(keys)
}

/// Whether a point stops at a machine, given the machine before the last step, and the step that follows.
fn stops<const S: usize>(
    point: Point,
    before: &Machine<S>,
    machine: &Machine<S>,
    next: Option<Step>,
) -> bool
    ensures { result ≡ point_stops before.now.world machine.now.world next point }
{
    match point {
        Point::Break(p, pc) => breaks(p, pc, machine, next),
        Point::Watch(address) => has_other_word(before.word(address), machine.word(address)),
        Point::WatchTags(address) => has_other_tags(before.word(address), machine.word(address)),
    }
}

/// Whether the step that follows is of a running stream of this processor at this pc.
fn breaks<const S: usize>(p: u8, pc: u32, machine: &Machine<S>, next: Option<Step>) -> bool
    ensures { result ≡ is_met (λ q at. (q == p) && (at == pc)) machine.now.world next }
{
    let Some(step) = next else {
        return false;
    };
    // the clauses of `image` say that no stream is past the machine's room
    let _ = machine.image();
    let Some(stream) = machine.stream(step.p, step.s) else {
        return false;
    };
    stream.status() == Status::Running && step.p == p && stream.ssw().pc == pc
}

/// Whether a word has another value or other tags.
fn has_other_word(before: Option<Word>, now: Option<Word>) -> bool
    ensures { result ≡ word_differs before now }
{
    let Some(now) = now else {
        return before.is_some();
    };
    let Some(before) = before else {
        return true;
    };
    now.tag_number() != before.tag_number() || now.value() != before.value()
}

/// Whether a word has other tags.
fn has_other_tags(before: Option<Word>, now: Option<Word>) -> bool
    ensures { result ≡ tags_differ before now }
{
    let Some(now) = now else {
        return before.is_some();
    };
    let Some(before) = before else {
        return true;
    };
    now.tag_number() != before.tag_number()
}
