//! In what a memory differs from the words of its image, as numbers.

ghost use Rattle.std.specs.Prelude.{◌≡◌, ◌<◌, ◌≤◌, ◌^◌, ◌++◌, IfOk, OnOk};
ghost use Rattle.image_file.specs.Same.{same_cell};
ghost use Rattle.world_keys.specs.MemoryNumbers.{cell_change, memory_numbers};
ghost use Rattle.world_keys.specs.WorldKeys.{IsMemoryOf};

use crate::halves::push_halves;
use machine::Machine;
use std::alloc::{AllocError, Global};
use tag_memory::Word;

/// In what the memory of a machine differs from the words of its image: the place, the tags and the value of each word
/// that does.
pub(crate) fn memory_numbers<const S: usize>(
    alloc: Global,
    machine: &Machine<'_, S>,
) -> Result<Vec<u32>, AllocError>
    requires { IsMemoryOf machine.now.image machine.now.world.memory }
    ensures { IfOk result (λ v. v.items ≡ memory_numbers machine.now.image machine.now.world.memory) }
{
    let cells = machine.image().cells();
    let mut numbers = Vec::new(alloc);
    for place in 0..cells.len() {
        let word = machine.word(place as u64 * 8).unwrap();
        push_change(&mut numbers, place as u32, cells[place], word)?;
    }
    Ok(numbers)
}

/// Adds the numbers of a word, where it is not what it was.
fn push_change(numbers: &mut Vec<u32>, place: u32, was: Word, word: Word) -> Result<(), AllocError>
    ensures { OnOk result (numbers.new.items ≡ numbers.old.items ++ cell_change place was word) }
{
    if is_same_cell(was, word) {
        return Ok(());
    }
    numbers.push(place)?;
    numbers.push(u32::from(word.tag_number()))?;
    push_halves(numbers, word.value())
}

/// Whether both have the same value and the same tags.
fn is_same_cell(one: Word, other: Word) -> bool
    ensures { result ≡ same_cell one other }
{
    one.value() == other.value() && one.tag_number() == other.tag_number()
}
