//! Words that are not as the image has them.

ghost use Rattle.std.specs.Prelude.{◌≡◌, ◌<◌, IfOk};
ghost use Rattle.tag_memory.specs.Storage.{most_memory_words};
ghost use Rattle.changed_words.specs.Changed.{is_same_word, changed_at, changed_words};

use machine::Machine;
use std::alloc::{AllocError, Global};
use tag_memory::Word;

/// A word of the memory that is not as the image has it.
#[derive(Clone, Copy, Debug, PartialEq, Eq)]
pub struct ChangedWord {
    /// Its byte address.
    pub address: u64,
    /// The word of the image.
    pub before: Word,
    /// The word as it is.
    pub after: Word,
}

/// The words of the memory that are not as the image has them, in the order of their addresses: each whose value or
/// whose tags differ, and no other.
pub fn changed_words<const S: usize>(
    alloc: Global,
    machine: &Machine<'_, S>,
) -> Result<Vec<ChangedWord>, AllocError>
    ensures { IfOk result (λ v. v.items ≡ changed_words machine.now.image machine.now.world.memory) }
{
    let cells = machine.image().cells();
    let mut changed = Vec::new(alloc);
    for index in 0..cells.len() {
        if let Some(word) = changed_at(machine, index, cells[index]) {
            changed.push(word)?;
        }
    }
    Ok(changed)
}

/// The word at a place of the memory, if it is not as the image has it there.
fn changed_at<const S: usize>(
    machine: &Machine<'_, S>,
    index: usize,
    before: Word,
) -> Option<ChangedWord>
    requires { index < most_memory_words }
    ensures { result ≡ changed_at machine.now.world.memory index before }
{
    let address = 8 * index as u64;
    match machine.word(address) {
        Some(after) if !is_same_word(before, after) => Some(ChangedWord {
            address,
            before,
            after,
        }),
        Some(_) | None => None,
    }
}

/// Whether two words have the same value and the same tags.
fn is_same_word(one: Word, other: Word) -> bool
    ensures { result ≡ is_same_word one other }
{
    one.value() == other.value() && one.tag_number() == other.tag_number()
}
