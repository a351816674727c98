//! Priorities: each stream has one at random, and falls below the others at two steps.

ghost use Rattle.std.specs.Prelude.{◌≡◌, nat_lt, slice_get};
ghost use Rattle.waiting.specs.Running.{running_steps};
ghost use Rattle.schedule_makers.specs.Priorities.{priority_steps, highest_free, priority_by_word};
ghost use Rattle.schedule_makers.specs.Changes.{HasChanges};

use crate::highest::{Ranks, highest_free};
use crate::random_choice::place_by;
use crate::rounds_choice::next_in_rounds;
use crate::steps_at::step_at;
use crate::turns::turn_by_word;
use machine::Machine;
use processor::Step;
use rand_xoshiro::Xoshiro256PlusPlus;
use rand_xoshiro::rand_core::SeedableRng;
use rand_xoshiro::rand_core::utils::NextWord;

/// The priorities of a seed.
#[derive(Drop)]
pub(crate) struct Priorities {
    seed: u64,
    /// How many steps the fair run has.
    fair_steps: usize,
    /// The two steps at which a stream falls.
    earlier: usize,
    later: usize,
}

impl Priorities {
    pub(crate) fn new(seed: u64, fair_steps: usize) -> Priorities
        ensures seed { result.seed ≡ seed }
        ensures fair { result.fair_steps ≡ fair_steps }
        ensures changes { HasChanges result }
    {
        let mut generator = Xoshiro256PlusPlus::seed_from_u64(seed);
        let first = place_by(generator.next_word(), fair_steps);
        let second = place_by(generator.next_word(), fair_steps);
        let (earlier, later) = if second < first {
            (second, first)
        } else {
            (first, second)
        };
        Priorities {
            seed,
            fair_steps,
            earlier,
            later,
        }
    }

    /// The next step. The word is for the turns that follow when the priorities are over.
    pub(crate) fn choose<const S: usize>(
        &self,
        word: u64,
        machine: &Machine<'_, S>,
        made: &[Step],
        running: &[Step],
    ) -> Option<Step>
        requires changes { HasChanges self.now }
        requires listed { running.now ≡ running_steps machine.now.world }
        ensures { result ≡ priority_by_word self.now.seed self.now.fair_steps word made.now
            machine.now.image machine.now.world }
    {
        if !self.holds_after(made.len()) {
            return turn_by_word(8, word, machine, made, running);
        }
        if let Some(step) = highest_free(&self.ranks(made), machine, running) {
            return Some(step);
        }
        next_in_rounds(made, running)
    }

    /// Whether priorities still hold after so many steps.
    fn holds_after(&self, steps: usize) -> bool
        ensures { result ≡ nat_lt steps (priority_steps self.now.fair_steps) }
    {
        (steps as u128) < 2 * self.fair_steps as u128 + 1000
    }

    /// What the priorities are worked out from after the steps that were made.
    fn ranks(&self, made: &[Step]) -> Ranks
        ensures seed { result.seed ≡ self.now.seed }
        ensures later { result.later ≡ slice_get made.now self.now.later }
        ensures earlier { result.earlier ≡ slice_get made.now self.now.earlier }
    {
        Ranks {
            seed: self.seed,
            later: step_at(made, self.later),
            earlier: step_at(made, self.earlier),
        }
    }
}
