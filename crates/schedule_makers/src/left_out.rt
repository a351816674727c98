//! One stream is left out: for some steps it is passed over where another is free.

ghost use Rattle.std.specs.Prelude.{◌≡◌, Some, if◌then◌else◌};
ghost use Rattle.waiting.specs.Running.{running_steps};
ghost use Rattle.schedule_makers.specs.Priorities.{random_number, is_above, highest};
ghost use Rattle.schedule_makers.specs.LeftOut.{delay_bound, delay, late_by_word};

use crate::highest::random_number;
use crate::random_choice::place_by;
use crate::turns::{turn_but, turn_by_word};
use machine::Machine;
use processor::Step;
use rand_xoshiro::Xoshiro256PlusPlus;
use rand_xoshiro::rand_core::SeedableRng;
use rand_xoshiro::rand_core::utils::NextWord;

/// How many steps a run usually may have.
const USUAL_STEPS: usize = 10_000;

/// Which stream a seed leaves out, and for how long.
#[derive(Drop)]
pub(crate) struct LeftOut {
    /// The seed, which gives each stream its random number.
    seed: u64,
    /// For how many steps a stream is left out.
    steps: usize,
}

impl LeftOut {
    pub(crate) fn new(seed: u64, fair_steps: usize) -> LeftOut
        ensures seed { result.seed ≡ seed }
        ensures steps { result.steps ≡ delay seed fair_steps }
    {
        let mut generator = Xoshiro256PlusPlus::seed_from_u64(seed);
        let word = generator.next_word();
        let bound = delay_bound(generator.next_word(), fair_steps);
        LeftOut {
            seed,
            steps: place_by(word, bound),
        }
    }

    /// The next step, by a word of 64 bits.
    pub(crate) fn choose<const S: usize>(
        &self,
        word: u64,
        machine: &Machine<'_, S>,
        made: &[Step],
        running: &[Step],
    ) -> Option<Step>
        requires listed { running.now ≡ running_steps machine.now.world }
        ensures { result ≡ late_by_word self.now.seed self.now.steps word made.now
            machine.now.image machine.now.world }
    {
        if made.len() < self.steps {
            let out = left_out(self.seed, running);
            if let Some(step) = turn_but(8, word, out, machine, made, running) {
                return Some(step);
            }
        }
        turn_by_word(8, word, machine, made, running)
    }
}

/// Below which number of steps a stream is left out, by a word of 64 bits: three quarters of what the fair run leaves of
/// the usual steps, and for one word of four a 64th of that.
fn delay_bound(word: u64, fair_steps: usize) -> usize
    ensures { result ≡ delay_bound word fair_steps }
{
    let longest = USUAL_STEPS.saturating_sub(fair_steps) * 3 / 4;
    if word % 4 == 0 { longest / 64 } else { longest }
}

/// The first of these streams whose random number is the largest.
fn left_out(seed: u64, running: &[Step]) -> Option<Step>
    ensures { result ≡ highest (random_number seed) running.now }
{
    let mut most: Option<Step> = None;
    for step in running {
        most = larger(seed, most, *step);
    }
    most
}

/// A step, if the random number of its stream is above that of the one so far; else the one so far.
fn larger(seed: u64, most: Option<Step>, step: Step) -> Option<Step>
    ensures { result ≡ (if is_above (random_number seed) most step then Some step else most) }
{
    if is_above(seed, most, step) {
        Some(step)
    } else {
        most
    }
}

fn is_above(seed: u64, most: Option<Step>, step: Step) -> bool
    ensures { result ≡ is_above (random_number seed) most step }
{
    match most {
        None => true,
        Some(most) => random_number(seed, most) < random_number(seed, step),
    }
}
