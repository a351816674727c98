//! Schedules by each of the rules.

ghost use Rattle.std.specs.Prelude.{IfOk, OnErr};
ghost use Rattle.schedule_makers.specs.Rules.{next_in_rounds, next_fair};
ghost use Rattle.schedule_makers.specs.Randomness.{next_at_random};
ghost use Rattle.schedule_makers.specs.Seeds.{rule_of_seed};
ghost use Rattle.schedule_makers.specs.Made.{IsMade, HasStepped};

use crate::chooser::Chooser;
use crate::fair_choice::Fair;
use crate::made::MadeSchedule;
use crate::making::make;
use crate::seed_words::SeedWords;
use crate::seeds::chooser_of_seed;
use machine::Machine;
use std::alloc::{AllocError, Global};

/// Takes the streams in rounds: at each step the next running stream after the one that stepped last, in the order of
/// processor and stream, and from the first again. It begins with the first.
///
/// It ends when no stream runs, when no stream can go on, or after `most` steps: the machine stands there then. If
/// memory is refused, some steps were taken.
pub fn rounds<const S: usize>(
    alloc: Global,
    machine: &mut Machine<'_, S>,
    most: usize,
) -> Result<MadeSchedule, AllocError>
    ensures made { IfOk result (λ m. IsMade next_in_rounds machine.old machine.new most m.steps.items m.end) }
    ensures err { OnErr result (HasStepped machine.old machine.new) }
{
    make(alloc, machine, &mut Chooser::Rounds, most)
}

/// The same fairly: the processors in turn, and of each its streams in turn. At each step the next processor that has a
/// running stream, after the one that stepped last; of it the next running stream after the one of it that stepped
/// last, as a processor that runs on a thread takes its own.
pub fn fair<const S: usize>(
    alloc: Global,
    machine: &mut Machine<'_, S>,
    most: usize,
) -> Result<MadeSchedule, AllocError>
    ensures made { IfOk result (λ m. IsMade next_fair machine.old machine.new most m.steps.items m.end) }
    ensures err { OnErr result (HasStepped machine.old machine.new) }
{
    make(alloc, machine, &mut Chooser::Fair(Fair::new()), most)
}

/// The same at random: of n running streams, in the order of processor and stream, the one at `word * n / 2^64`, by one
/// word a step of the generator xoshiro256++ of this seed. The same seed gives the same schedule everywhere.
pub fn random<const S: usize>(
    alloc: Global,
    machine: &mut Machine<'_, S>,
    seed: u64,
    most: usize,
) -> Result<MadeSchedule, AllocError>
    ensures made { IfOk result
        (λ m. IsMade (next_at_random seed) machine.old machine.new most m.steps.items m.end) }
    ensures err { OnErr result (HasStepped machine.old machine.new) }
{
    make(
        alloc,
        machine,
        &mut Chooser::Random(SeedWords::new(seed)),
        most,
    )
}

/// The same by the rule that the seed's number says, so that rare bugs are found by some of many seeds. `seed % 8` is 0:
/// as `random`. 1 or 5: in turns of 8 steps on average, among the streams that are not blocked. 2 or 6: in turns of 32.
/// 3 or 7: the stream that is not blocked and has the highest priority; each has one at random, and at two of the steps
/// the one that takes it falls below all others. 4: in turns of 8, for a number of steps at random without one of the
/// streams, as long as another one is not blocked. `fair_steps` is how many steps the fair schedule of the same machine
/// has. The same seed and number of fair steps give the same schedule everywhere.
pub fn seeded<const S: usize>(
    alloc: Global,
    machine: &mut Machine<'_, S>,
    seed: u64,
    fair_steps: usize,
    most: usize,
) -> Result<MadeSchedule, AllocError>
    ensures made { IfOk result
        (λ m. IsMade (rule_of_seed seed fair_steps) machine.old machine.new most m.steps.items m.end) }
    ensures err { OnErr result (HasStepped machine.old machine.new) }
{
    make(alloc, machine, &mut chooser_of_seed(seed, fair_steps), most)
}
