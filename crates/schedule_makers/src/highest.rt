//! The free stream of the highest priority.

ghost use Rattle.std.specs.Prelude.{◌≡◌, filter};
ghost use Rattle.schedule_makers.specs.Free.{is_free};
ghost use Rattle.schedule_makers.specs.Priorities.{random_number, highest};
ghost use Rattle.schedule_makers.specs.Changes.{rank_of, IsRanked, is_above_best, step_of, better};

use crate::free_streams::is_free;
use crate::steps_at::is_of_stream;
use machine::Machine;
use processor::Step;
use rand_xoshiro::SplitMix64;
use rand_xoshiro::rand_core::SeedableRng;
use rand_xoshiro::rand_core::utils::NextWord;

/// How far the seeds of two streams that follow one another are apart.
const STREAM_SEEDS: u64 = 1 << 40;

/// What the priorities of all streams are worked out from.
#[derive(Clone, Copy)]
pub(crate) struct Ranks {
    /// The seed, which gives each stream its random number.
    pub(crate) seed: u64,
    /// The step at the later change point, if it was taken: its stream is the last of all.
    pub(crate) later: Option<Step>,
    /// The step at the earlier change point: its stream is the last but one.
    pub(crate) earlier: Option<Step>,
}

/// A step and its priority.
#[derive(Clone, Copy)]
pub(crate) struct Ranked {
    step: Step,
    priority: u128,
}

/// The first of these steps that is free and of the highest priority. A stream is asked only if its priority is above
/// that of the best so far.
pub(crate) fn highest_free<const S: usize>(
    ranks: &Ranks,
    machine: &Machine<'_, S>,
    steps: &[Step],
) -> Option<Step>
    ensures { result ≡ highest (rank_of ranks.now)
        (filter (is_free machine.now.image machine.now.world) steps.now) }
{
    let mut best: Option<Ranked> = None;
    for step in steps {
        best = better(ranks, machine, best, *step);
    }
    Some(best?.step)
}

/// A step, if its priority is above that of the best so far and its stream is free; else the best so far.
#[tactic(auto, using(crate::proofs::HighestFree::above_best))]
fn better<const S: usize>(
    ranks: &Ranks,
    machine: &Machine<'_, S>,
    best: Option<Ranked>,
    step: Step,
) -> Option<Ranked>
    requires { IsRanked ranks.now best }
    ensures is { step_of result ≡ better (rank_of ranks.now) (is_free machine.now.image machine.now.world)
        (step_of best) step }
    ensures ranked { IsRanked ranks.now result }
{
    let priority = priority_of(ranks, step);
    if is_above_best(best, priority) && is_free(machine, step) {
        return Some(Ranked { step, priority });
    }
    best
}

/// Whether a priority is above that of the best so far.
fn is_above_best(best: Option<Ranked>, priority: u128) -> bool
    ensures { result ≡ is_above_best best priority }
{
    match best {
        None => true,
        Some(best) => best.priority < priority,
    }
}

/// The priority of a step's stream.
fn priority_of(ranks: &Ranks, step: Step) -> u128
    ensures { result ≡ rank_of ranks.now step }
{
    if is_of_stream(ranks.later, step) {
        0
    } else if is_of_stream(ranks.earlier, step) {
        1
    } else {
        u128::from(random_number(ranks.seed, step)) + 2
    }
}

/// The random number of a step's stream.
pub(crate) fn random_number(seed: u64, step: Step) -> u64
    ensures { result ≡ random_number seed step }
{
    let number = 256 * u64::from(step.p) + u64::from(step.s) + 1;
    SplitMix64::seed_from_u64(seed.wrapping_add(number * STREAM_SEEDS)).next_word()
}
