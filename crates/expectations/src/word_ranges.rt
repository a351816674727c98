//! Whether the words from one to another are as expected.

ghost use Rattle.std.specs.Prelude.{◌≡◌, ◌+◌, ◌*◌, ◌≤◌, ◌<◌, ℕ};
ghost use Rattle.expectations.specs.WordRanges.{word_count, are_words, is_sum};

use crate::expectation::FullEmpty;
use crate::memory_words::is_word;
use machine::Machine;

/// Whether each word from one byte address to another is there, with this value and in this state.
pub(crate) fn are_words<const S: usize>(
    machine: &Machine<'_, S>,
    first: u64,
    last: u64,
    value: u64,
    state: Option<FullEmpty>,
) -> bool
    ensures { result ≡ are_words value state machine.now.world.memory first (word_count first last) }
{
    let count = word_count(first, last);
    for number in 0..count {
        if !is_word(machine.word(first + 8 * number), value, state) {
            return false;
        }
    }
    true
}

/// Whether each word from one byte address to another is there, and the sum of their values modulo 2^64 is this one.
pub(crate) fn is_sum<const S: usize>(
    machine: &Machine<'_, S>,
    first: u64,
    last: u64,
    value: u64,
) -> bool
    ensures { result ≡ is_sum value machine.now.world.memory first (word_count first last) }
{
    let count = word_count(first, last);
    let mut sum = 0u64;
    for number in 0..count {
        match machine.word(first + 8 * number) {
            Some(word) => sum = sum.wrapping_add(word.value()),
            None => return false,
        }
    }
    sum == value
}

/// How many words lie from one byte address to another.
fn word_count(first: u64, last: u64) -> u64
    ensures is { result ≡ word_count first last }
    ensures within { (k : ℕ) → k < result → first + 8 * k ≤ last }
{
    if last < first {
        0
    } else {
        (last - first) / 8 + 1
    }
}
