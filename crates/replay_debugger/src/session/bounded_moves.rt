//! Runs to a stop that look at so many steps at most.

ghost use Rattle.std.specs.Prelude.{◌≡◌, ◌≤◌, length, IfOk, OnErr};
ghost use Rattle.replay_debugger.specs.StopFinders.{IsRunToStop};
ghost use Rattle.replay_debugger.specs.Table.{stops_of};
ghost use Rattle.replay_debugger.specs.BoundedMoves.{ContinuesWithin};

use crate::session::Session;
use crate::stop_finder::StopFinder;
use debug_commands::Why;
use std::alloc::AllocError;

impl<'i, const S: usize> Session<'i, S> {
    /// On to the next stop, or to the end, but `count` steps at most. None where neither is reached by then: the
    /// session stands `count` steps on, and no position that it passed is a stop.
    pub fn go_on_within(&mut self, count: u64) -> Result<Option<Why>, AllocError>
        ensures goes { IfOk result (ContinuesWithin self.old count self.new.position) }
        ensures rest { self.new ≡ record self.old { position = self.new.position } }
        ensures kept { OnErr result (self.new ≡ self.old) }
    {
        let end = self.schedule().len();
        let position = self.replay.position;
        if count < (end - position) as u64 {
            let found = self.run_on(position + count as usize)?;
            Ok(found.then_some(Why::Stop))
        } else {
            let found = self.run_on(end)?;
            Ok(Some(if found { Why::Stop } else { Why::End }))
        }
    }

    /// On to the next stop, or to a limit; says whether it is a stop.
    fn run_on(&mut self, limit: usize) -> Result<bool, AllocError>
        requires forward { self.old.position ≤ limit }
        requires within { limit ≤ length self.old.schedule }
        ensures goes { IfOk result (IsRunToStop (stops_of self.old) self.old.position limit self.new.position) }
        ensures rest { self.new ≡ record self.old { position = self.new.position } }
        ensures kept { OnErr result (self.new ≡ self.old) }
    {
        if self.points.is_empty() {
            self.move_to(limit)?;
            return Ok(false);
        }
        let alloc = self.checkpoints.allocator();
        let mut stops = StopFinder::of(alloc, &self.points, &self.replay.machine)?;
        let from = self.replay.position;
        let found = self
            .replay
            .run_to_stop(&mut self.checkpoints, &mut stops, limit);
        self.replayed = (self.replay.position - from) as u64;
        Ok(found)
    }
}
