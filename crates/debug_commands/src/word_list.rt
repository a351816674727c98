//! Words of the memory with their addresses.

ghost use Rattle.std.specs.Prelude.{◌≡◌, ◌++◌, ◌∷◌, [], OnOk, OnErr};

use std::alloc::{AllocError, Global};
use std::marker::Model;
use tag_memory::Word;

/// Words of the memory, each with its byte address. Contracts see the list of them.
#[derive(Debug, Drop)]
pub struct WordList {
    words: Vec<(u64, Word)>,
}

impl Model for WordList {
    ghost use Rattle.std.specs.Prelude.{ℕ, List};
    ghost use Rattle.tag_memory.specs.Cell.{Cell};

    ghost Value = { List (ℕ × Cell) };

    ghost view = { λ w. w.words.items };
}

impl WordList {
    /// No words yet.
    pub fn new(alloc: Global) -> WordList
        ensures { result ≡ [] }
    {
        WordList {
            words: Vec::new(alloc),
        }
    }

    /// Adds a word at the end. Where memory is refused the list stays as it was.
    pub fn push(&mut self, address: u64, word: Word) -> Result<(), AllocError>
        ensures added { OnOk result (self.new ≡ self.old ++ (address, word) ∷ []) }
        ensures kept { OnErr result (self.new ≡ self.old) }
    {
        self.words.push((address, word))?;
        Ok(())
    }

    /// The words in order, each after its byte address.
    pub fn words(&self) -> &[(u64, Word)]
        ensures { result.now ≡ self.now }
    {
        &self.words
    }
}
