//! Words of the memory that a run changed.

use crate::fields::Fields;
use crate::places::digits;
use machine::Machine;
use serde_json::Value;
use std::alloc::{AllocError, Global};
use tag_memory::Word;

/// Puts the words of a machine's memory that are not as the image has them, in the order of their addresses: of each its
/// address, what it was, and what it is.
pub(crate) fn put_words<const S: usize>(
    alloc: Global,
    fields: &mut Fields,
    machine: &Machine<'_, S>,
) -> Result<(), AllocError> {
    let mut words = Vec::new(alloc);
    for (index, cell) in machine.image().cells().iter().enumerate() {
        let address = (index as u64).saturating_mul(8);
        if let Some(word) = machine.word(address)
            && word != *cell
        {
            words.push(changed_word(alloc, address, *cell, word)?)?;
        }
    }
    serde_json::put(fields, alloc, "words", Value::Array(words))
}

/// The address of a word, what it was, and what it is.
fn changed_word(
    alloc: Global,
    address: u64,
    before: Word,
    after: Word,
) -> Result<Value, AllocError> {
    let mut parts = Vec::with_capacity(alloc, 3)?;
    parts.push(Value::from(address))?;
    parts.push(word_value(alloc, before)?)?;
    parts.push(word_value(alloc, after)?)?;
    Ok(Value::Array(parts))
}

/// The value and the tags of a word.
fn word_value(alloc: Global, word: Word) -> Result<Value, AllocError> {
    let mut parts = Vec::with_capacity(alloc, 2)?;
    parts.push(digits(alloc, word.value())?)?;
    parts.push(Value::from(u64::from(word.tag_number())))?;
    Ok(Value::Array(parts))
}
