//! Which steps may belong together with one that meets a word: those from the last step before it in which its stream met
//! the word, or heard of another's write since, to the next one after it. All others are parted from it.

ghost use Rattle.std.specs.Prelude.{◌≡◌, ℕ, true, ◌≤◌, ◌<◌, length};
ghost use Rattle.run_findings.specs.TornReads.{are_parted};
ghost use Rattle.run_findings.specs.Rounds.{closes};
ghost use Rattle.run_findings.specs.Links.{AreWrites};

use crate::actions::Action;
use crate::parting::{Meeting, Pair, last_news};
use processor::Step;

/// A stream that meets a word.
#[derive(Clone, Copy)]
pub(crate) struct Round {
    /// How it meets it.
    pub(crate) way: Meeting,
    /// The stream.
    pub(crate) stream: Step,
    /// The address of the word.
    pub(crate) word: u64,
}

impl Round {
    /// The first step that may belong to step `place`. The links are those by writes.
    pub(crate) fn start(
        self,
        actions: &[Action],
        past_writes: &[Option<usize>],
        place: usize,
    ) -> usize
        requires place_in { place < length actions.now }
        requires linked { AreWrites actions.now past_writes.now }
        ensures within { result ≤ place }
        ensures parted { (a k : ℕ) → k < result
            → are_parted actions.now self.way self.stream a self.word k place ≡ true }
    {
        let mut start = 0;
        let mut step = place;
        while step > start {
            step -= 1;
            let first = self.opening(actions, past_writes, step);
            start = start.max(first);
        }
        start
    }

    /// The first step that may belong to one after step `step`, as far as that step shows.
    fn opening(self, actions: &[Action], past_writes: &[Option<usize>], step: usize) -> usize
        requires step_in { step < length actions.now }
        requires linked { AreWrites actions.now past_writes.now }
        ensures within { result ≤ step }
        ensures parted { (a k n : ℕ) → k < result → step < n
            → are_parted actions.now self.way self.stream a self.word k n ≡ true }
    {
        if self.closes(actions, step) {
            return step;
        }
        if !actions[step].is_by(self.stream) {
            return 0;
        }
        last_news(actions, past_writes, self.stream, step)
    }

    /// The first step after it that can't. The links are those by writes.
    pub(crate) fn end(
        self,
        actions: &[Action],
        past_writes: &[Option<usize>],
        place: usize,
    ) -> usize
        requires place_in { place < length actions.now }
        requires linked { AreWrites actions.now past_writes.now }
        ensures above { place < result }
        ensures within { result ≤ length actions.now }
        ensures parted { (a k : ℕ) → result ≤ k → k < length actions.now
            → are_parted actions.now self.way self.stream a self.word k place ≡ true }
    {
        let word = Pair {
            way: self.way,
            stream: self.stream,
            one: self.word,
            other: self.word,
        };
        for step in place + 1..actions.len() {
            if word.is_parted_by(actions, past_writes, place, step) {
                return step + 1;
            }
        }
        actions.len()
    }

    /// Whether the stream meets the word in a step.
    fn closes(self, actions: &[Action], step: usize) -> bool
        requires { step < length actions.now }
        ensures { result ≡ closes actions.now self.way self.stream self.word step }
    {
        let action = &actions[step];
        action.is_by(self.stream) && self.way.meets(self.word, action)
    }
}
