//! The steps of one processor.

ghost use Rattle.std.specs.Prelude.{◌≡◌, ◌<◌, ◌-◌, ◌++◌, ◌∷◌, ◌↔◌, [], length, max, slice_get, replicate};
ghost use Rattle.std.specs.Prelude.{IfOk, OnOk, OnErr, IfSome, IsSome};
ghost use Rattle.processor.specs.Records.{StepsValue};
ghost use Rattle.processor.specs.StreamRuns.{IsStreamRun};
ghost use Rattle.processor.specs.Turns.{last_of};

use std::alloc::{AllocError, Global};
use std::marker::Model;

/// Steps of one stream, one after another.
#[derive(Clone, Copy, Debug, PartialEq, Eq)]
struct StreamRun {
    stream: u8,
    // how many steps there are up to its end
    end: usize,
}

/// The numbers of the streams that a processor stepped, in order, with room for some more.
///
/// They are kept as runs, so steps of one stream that follow each other take no memory of their own, however many.
#[derive(Drop)]
pub struct Steps {
    // the runs that are over
    runs: Vec<StreamRun>,
    // how many steps they have together
    before: usize,
    // the run that goes on; its count is 0 only where there is no step
    stream: u8,
    count: usize,
    spare: usize,
}

impl Model for Steps {
    ghost use Rattle.std.specs.Prelude.{◌≤◌, ◌<◌, ◌+◌, ◌^◌, vec_len, vec_capacity};
    ghost use Rattle.processor.specs.Records.{StepsValue};
    ghost use Rattle.processor.specs.StreamRuns.{step_numbers, AreStreamRuns};

    ghost Value = { StepsValue };

    ghost view = { λ s. record { numbers = step_numbers s.runs.items s.stream s.count; spare = s.spare } };

    ghost invariant = { λ s.
        AreStreamRuns s.runs.items s.before s.stream s.count
        × (vec_len s.runs + s.spare ≤ vec_capacity s.runs)
        × (s.before + s.count + s.spare < 2 ^ 64) };
}

impl Steps {
    /// No steps, and no room.
    pub(crate) fn new(alloc: Global) -> Steps
        ensures { result ≡ record { numbers = []; spare = 0 } }
    {
        Steps::of_run(alloc, 0, 0)
    }

    /// So many steps of stream `s`, and no room.
    pub fn of_run(alloc: Global, s: u8, count: usize) -> Steps
        ensures { result ≡ record { numbers = replicate count s; spare = 0 } }
    {
        Steps {
            runs: Vec::new(alloc),
            before: 0,
            stream: s,
            count,
            spare: 0,
        }
    }

    /// Makes room for `n` more steps.
    pub fn reserve(&mut self, n: usize) -> Result<(), AllocError>
        ensures ok { OnOk result (self.new ≡ record self.old { spare = max self.old.spare n }) }
        ensures err { OnErr result (self.new ≡ self.old) }
    {
        if n > self.spare {
            if self.len().checked_add(n).is_none() {
                return Err(AllocError);
            }
            self.runs.reserve(n)?;
            self.spare = n;
        }
        Ok(())
    }

    /// A step of stream `s` more. It takes no memory.
    pub fn push(&mut self, s: u8)
        requires room { 0 < self.old.spare }
        ensures { self.new ≡ record { numbers = self.old.numbers ++ s ∷ []; spare = self.old.spare - 1 } }
    {
        self.spare -= 1;
        if self.count == 0 {
            self.stream = s;
            self.count = 1;
        } else if s == self.stream {
            self.count += 1;
        } else {
            self.before += self.count;
            self.runs.push_reserved(StreamRun {
                stream: self.stream,
                end: self.before,
            });
            self.stream = s;
            self.count = 1;
        }
    }

    /// For how many more steps there is room.
    pub fn spare(&self) -> usize
        ensures { result ≡ self.now.spare }
    {
        self.spare
    }

    /// How many steps there are.
    pub fn len(&self) -> usize
        ensures { result ≡ length self.now.numbers }
    {
        self.before + self.count
    }

    /// The stream of step `i`, counted from 0; None past the last.
    pub fn get(&self, i: usize) -> Option<u8>
        ensures { result ≡ slice_get self.now.numbers i }
    {
        match self.run_at(i) {
            Some((s, _)) => Some(s),
            None => None,
        }
    }

    /// The stream of step `i`, and up to where the steps from there on are of it: the step at that end is of another
    /// stream, or there is none. None past the last step.
    pub fn run_at(&self, i: usize) -> Option<(u8, usize)>
        ensures there { IsSome result ↔ (i < length self.now.numbers) }
        ensures run { IfSome result (λ r. IsStreamRun self.now.numbers i r.0 r.1) }
    {
        if i < self.before {
            let over = self.runs.partition_point(|run| run.end <= i);
            let run = &self.runs[over];
            Some((run.stream, run.end))
        } else if i - self.before < self.count {
            Some((self.stream, self.before + self.count))
        } else {
            None
        }
    }

    /// The stream of the last step; None where there is no step.
    pub fn last(&self) -> Option<u8>
        ensures { result ≡ last_of self.now.numbers }
    {
        if self.count == 0 {
            None
        } else {
            Some(self.stream)
        }
    }

    /// The same steps, with no room.
    pub(crate) fn try_clone(&self) -> Result<Steps, AllocError>
        ensures { IfOk result (λ s. s ≡ record { numbers = self.now.numbers; spare = 0 }) }
    {
        let alloc = *self.runs.allocator();
        let runs = Vec::from_slice(alloc, &self.runs)?;
        Ok(Steps {
            runs,
            before: self.before,
            stream: self.stream,
            count: self.count,
            spare: 0,
        })
    }
}
