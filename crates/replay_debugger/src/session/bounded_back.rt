//! Runs back to a stop that take so many steps at most.

ghost use Rattle.std.specs.Prelude.{◌≡◌, ◌≤◌, length, IfOk, OnErr};
ghost use Rattle.replay_debugger.specs.BoundedMoves.{GoesBackWithin, IsSearchBelow, goal_of};

use crate::session::Session;
use crate::stop_finder::StopFinder;
use debug_commands::Why;
use std::alloc::AllocError;

/// What a search for the last stop below a position found within its bound.
#[derive(Clone, Copy)]
enum Search {
    /// The last stop.
    Stop(usize),
    /// That there is none.
    NoStop,
    /// No stop from this position on.
    NoneFrom(usize),
}

impl<'i, const S: usize> Session<'i, S> {
    /// Back to the last stop, or to the start, by `count` steps at most from positions that are kept. None where
    /// neither is found by then: the session stands at a position from which on no stop is below the old one, and a
    /// further call goes on from there. That is the old position itself where the nearest kept one is too far.
    pub fn back_within(&mut self, count: u64) -> Result<Option<Why>, AllocError>
        ensures goes { IfOk result (GoesBackWithin self.old self.new.position) }
        ensures rest { self.new ≡ record self.old { position = self.new.position } }
        ensures kept { OnErr result (self.new ≡ self.old) }
    {
        let (search, searched) = self.last_stop_within(count)?;
        let (goal, why) = match search {
            Search::Stop(goal) => (goal, Some(Why::Stop)),
            Search::NoStop => (0, Some(Why::Start)),
            Search::NoneFrom(goal) => (goal, None),
        };
        self.move_to(goal)?;
        self.replayed = self.replayed.saturating_add(searched);
        Ok(why)
    }

    /// The last stop below the position, as far as `count` steps show it, and how many steps were run. Half of them
    /// are left for the way to the stop.
    fn last_stop_within(&mut self, count: u64) -> Result<(Search, u64), AllocError>
        ensures search { IfOk result (λ r. IsSearchBelow self.old r.0) }
        ensures within { IfOk result (λ r. goal_of r.0 ≤ length self.old.schedule) }
        ensures kept { self.new ≡ self.old }
    {
        let Some(top) = self.replay.position.checked_sub(1) else {
            return Ok((Search::NoStop, 0));
        };
        let alloc = self.checkpoints.allocator();
        let mut stops = StopFinder::of(alloc, &self.points, &self.replay.machine)?;
        let mut high = top;
        loop {
            let mut replay = self.checkpoints.nearest_below(high.saturating_sub(1))?;
            let low = replay.position;
            if count / 2 < (top - low) as u64 {
                return Ok((Search::NoneFrom(high + 1), (top - high) as u64));
            }
            if let Some(stop) = replay.last_stop(&mut self.checkpoints, &mut stops, high) {
                return Ok((Search::Stop(stop), (top - low) as u64));
            }
            if low == 0 {
                return Ok((Search::NoStop, top as u64));
            }
            high = low;
        }
    }
}
