//! One of some steps by a word of a generator.

ghost use Rattle.std.specs.Prelude.{◌≡◌, ◌*◌, ◌/◌, ◌^◌};
ghost use Rattle.schedule_makers.specs.Randomness.{step_by_word};

use crate::steps_at::step_at;
use processor::Step;

/// The one that a word of 64 bits stands for: each is as likely as the others, but for one word in 2^64 a place.
pub(crate) fn step_by_word(word: u64, steps: &[Step]) -> Option<Step>
    ensures { result ≡ step_by_word word steps.now }
{
    step_at(steps, place_by(word, steps.len()))
}

/// The place among so many that a word stands for.
pub(crate) fn place_by(word: u64, count: usize) -> usize
    ensures { result ≡ word * count / 2 ^ 64 }
{
    ((u128::from(word) * count as u128) >> 64) as usize
}
