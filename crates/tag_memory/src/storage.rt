//! The words of the memory. No other file knows how they are kept.
ghost use Rattle.std.specs.Prelude.{◌≡◌, ◌≤◌, length, IfOk, IsSome};
ghost use Rattle.tag_memory.specs.Storage.{memory_of, memory_with_chain, most_memory_words, most_chain_limit};
ghost use Rattle.tag_memory.specs.Storage.{IsWithinLimits, cell_at, with_cell};

use crate::Word;
use crate::bank::Bank;
use std::alloc::{AllocError, Global};
use std::array;
use std::marker::Model;

/// The most words that a memory has.
pub const MAX_WORDS: usize = 262_144;

const _: () = prove!(MAX_WORDS == 262_144);

/// The most words that a chain limit lets forward one reference.
pub const MAX_CHAIN_LIMIT: u8 = 64;

const _: () = prove!(MAX_CHAIN_LIMIT == 64);

/// The chain limit of a memory of which nothing else is said.
pub const DEFAULT_CHAIN_LIMIT: u8 = 8;

const _: () = prove!(DEFAULT_CHAIN_LIMIT == 8);

/// How many banks keep the words.
pub(crate) const BANKS: usize = 8;

const _: () = prove!(BANKS == 8);

/// A memory of 1 to [`MAX_WORDS`] tagged words, at the byte addresses 0, 8, 16, ... It keeps its length, and its chain
/// limit of at most [`MAX_CHAIN_LIMIT`]: how many of its words may forward one reference.
///
/// Word w stands in bank w mod 8 at place w / 8.
#[derive(Drop)]
pub struct Memory {
    banks: [Bank; BANKS],
    len: usize,
    chain_limit: u8,
}

impl Model for Memory {
    ghost use Rattle.tag_memory.specs.Storage.{TaggedMemory, IsWithinLimits};
    ghost use Rattle.tag_memory.specs.Banks.{banked_memory, AreBanks};

    ghost Value = { TaggedMemory };

    ghost view = { λ m. banked_memory m.banks m.len m.chain_limit };

    ghost invariant = { λ m. IsWithinLimits (banked_memory m.banks m.len m.chain_limit) × AreBanks m.banks m.len };
}

impl Memory {
    /// The memory with these words at the addresses 0, 8, 16, ..; 1 to [`MAX_WORDS`] of them. Its chain limit is
    /// [`DEFAULT_CHAIN_LIMIT`].
    pub fn new(alloc: Global, words: &[Word]) -> Result<Memory, AllocError>
        requires some { 1 ≤ length words.now }
        requires few { length words.now ≤ most_memory_words }
        ensures { IfOk result (λ m. m ≡ memory_of words.now) }
    {
        Memory::with_chain(alloc, words, DEFAULT_CHAIN_LIMIT)
    }

    /// The memory with these words, as of [`Memory::new`], and this chain limit, at most [`MAX_CHAIN_LIMIT`].
    pub fn with_chain(alloc: Global, words: &[Word], limit: u8) -> Result<Memory, AllocError>
        requires some { 1 ≤ length words.now }
        requires few { length words.now ≤ most_memory_words }
        requires chain { limit ≤ most_chain_limit }
        ensures { IfOk result (λ m. m ≡ memory_with_chain words.now limit) }
    {
        let mut banks: [Bank; BANKS] = array::from_fn(|_| Bank::empty(alloc));
        for first in 0..BANKS {
            banks[first] = Bank::every_eighth(alloc, words, first)?;
        }
        Ok(Memory {
            banks,
            len: words.len(),
            chain_limit: limit,
        })
    }

    /// The number of words, 1 to [`MAX_WORDS`].
    pub fn len(&self) -> usize
        ensures is { result ≡ length self.now.cells }
        ensures within { IsWithinLimits self.now }
    {
        self.len
    }

    /// How many words may forward one reference, 0 to [`MAX_CHAIN_LIMIT`].
    pub fn chain_limit(&self) -> u8
        ensures is { result ≡ self.now.chain_limit }
        ensures within { result ≤ most_chain_limit }
    {
        self.chain_limit
    }

    /// The word at a byte address; `None` where the address is not a multiple of 8, or past the last word.
    pub fn word(&self, address: u64) -> Option<Word>
        ensures { result ≡ cell_at self.now address }
    {
        if address % 8 != 0 {
            return None;
        }
        let word = (address / 8) as usize;
        self.banks[word % BANKS].get(word / BANKS)
    }

    /// Puts another word where one stands.
    pub(crate) fn set_word(&mut self, address: u64, word: Word)
        requires { IsSome (cell_at self.old address) }
        ensures { self.new ≡ with_cell self.old address word }
    {
        let place = (address / 8) as usize;
        self.banks[place % BANKS].set(place / BANKS, word);
    }

    /// A memory equal to this one.
    pub fn try_clone(&self) -> Result<Memory, AllocError>
        ensures { IfOk result (λ m. m ≡ self.now) }
    {
        Ok(Memory {
            banks: self.banks.clone()?,
            len: self.len,
            chain_limit: self.chain_limit,
        })
    }
}
