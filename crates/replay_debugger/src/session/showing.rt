//! The commands that look at the world.

ghost use Rattle.std.specs.Prelude.{◌≡◌, ◌+◌, ◌*◌, ◌<◌, ◌≤◌, IsSome, Some, IfOk, is_some};
ghost use Rattle.replay_debugger.specs.Table.{IsResultOf, words_from, shown_word, with_address};

use crate::session::Session;
use debug_commands::{Answer, Command, DebugFault, WordList};
use machine::Machine;
use std::alloc::{AllocError, Global};
use tag_memory::Word;

/// The most words that are shown at once.
const MOST_WORDS: u64 = 64;

impl<'i, const S: usize> Session<'i, S> {
    /// A stream of a processor.
    pub(super) fn registers(&self, p: u8, s: u8) -> Result<Answer, DebugFault>
        ensures { IsResultOf self.now (Command.Registers p s) result self.now }
    {
        let machine = &self.replay.machine;
        if u16::from(s) >= machine.image().slim() {
            return Err(DebugFault::NoSuchStream);
        }
        let Some(stream) = machine.stream(p, s) else {
            return Err(DebugFault::NoSuchStream);
        };
        Ok(Answer::Stream(*stream))
    }

    /// So many words from a byte address on.
    pub(super) fn show(&self, address: u64, count: u64) -> Result<Answer, DebugFault>
        ensures { IsResultOf self.now (Command.Show address count) result self.now }
    {
        if count < 1 || count > MOST_WORDS {
            return Err(DebugFault::Syntax);
        }
        let machine = &self.replay.machine;
        if !has_words(machine, address, count) {
            return Err(DebugFault::NoSuchWord);
        }
        let words = words(self.checkpoints.allocator(), machine, address, count)?;
        Ok(Answer::Words(words))
    }
}

/// Whether so many words stand from a byte address on.
fn has_words<const S: usize>(machine: &Machine<S>, first: u64, count: u64) -> bool
    requires { count ≤ 64 }
    ensures { result ≡ is_some (words_from machine.now.world.memory first count) }
{
    for index in 0..count {
        let Some(_word) = word_at(machine, first, index) else {
            return false;
        };
    }
    true
}

/// So many words from a byte address on.
fn words<const S: usize>(
    alloc: Global,
    machine: &Machine<S>,
    first: u64,
    count: u64,
) -> Result<WordList, AllocError>
    requires few { count ≤ 64 }
    requires there { IsSome (words_from machine.now.world.memory first count) }
    ensures { IfOk result (λ list. words_from machine.now.world.memory first count ≡ Some list) }
{
    let mut list = WordList::new(alloc);
    for index in 0..count {
        let Some(found) = word_at(machine, first, index) else {
            unreachable!();
        };
        list.push(found.0, found.1)?;
    }
    Ok(list)
}

/// The word so many words after a byte address, with its own address.
fn word_at<const S: usize>(machine: &Machine<S>, first: u64, index: u64) -> Option<(u64, Word)>
    requires { index < 64 }
    ensures { let address = first + 8 * index in
        result ≡ with_address address (shown_word machine.now.world.memory address) }
{
    let address = first.checked_add(8 * index)?;
    let word = machine.word(address)?;
    Some((address, word))
}
