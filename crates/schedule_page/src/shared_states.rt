//! What no stream has for itself, as JSON: the words that are not as at the start, and the counts of the processors.

use replay_page::json_values::{List, Object, digits};
use serde_json::Value;
use std::alloc::{AllocError, Global};

/// What no stream has for itself: `words`, of each that is not as at the start its address, value and tags, and
/// `places`, of each processor how many streams are current and how many are reserved. `memory` has four numbers for
/// each word that is not as in the image: its place, its tags and the two halves of its value. `counts` has for each
/// processor how many streams are reserved and how many are current.
pub(crate) fn shared_json(
    alloc: Global,
    memory: &[u32],
    counts: &[u32],
) -> Result<Value, AllocError> {
    let mut shared = Object::new(alloc);
    shared.put("words", words_json(alloc, memory));
    shared.put("places", places_json(alloc, counts));
    shared.whole()
}

/// The words.
fn words_json(alloc: Global, memory: &[u32]) -> Result<Value, AllocError> {
    let mut words = List::new(alloc);
    for change in memory.chunks(4) {
        words.put(word_json(alloc, change));
    }
    words.whole()
}

/// A word: its address, value and tags.
fn word_json(alloc: Global, change: &[u32]) -> Result<Value, AllocError> {
    let value = number_at(change, 2) | number_at(change, 3) << 32;
    let mut parts = List::new(alloc);
    parts.put_number(number_at(change, 0).saturating_mul(8));
    parts.put(digits(alloc, value));
    parts.put_number(number_at(change, 1));
    parts.whole()
}

/// The counts of the processors.
fn places_json(alloc: Global, counts: &[u32]) -> Result<Value, AllocError> {
    let mut places = List::new(alloc);
    for pair in counts.chunks(2) {
        places.put(place_json(alloc, pair));
    }
    places.whole()
}

/// How many streams of a processor are current, and how many are reserved.
fn place_json(alloc: Global, pair: &[u32]) -> Result<Value, AllocError> {
    let mut parts = List::new(alloc);
    parts.put_number(number_at(pair, 1));
    parts.put_number(number_at(pair, 0));
    parts.whole()
}

/// The number at a place; 0 if there is none.
fn number_at(numbers: &[u32], place: usize) -> u64 {
    u64::from(numbers.get(place).copied().unwrap_or(0))
}
