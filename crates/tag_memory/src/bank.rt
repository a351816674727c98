//! One of the banks that a memory keeps its words in.
ghost use Rattle.std.specs.Prelude.{◌≡◌, ℕ, ◌<◌, ◌≤◌, length, IfOk, slice_get, slice_set};
ghost use Rattle.std.specs.Prelude.{replicate, []};
ghost use Rattle.tag_memory.specs.Storage.{most_memory_words};
ghost use Rattle.tag_memory.specs.Banks.{blank_cell, bank_count, every_eighth};

use crate::packed_tags::{PLACES_PER_ELEMENT, element_tags, with_element_tags};
use crate::storage::BANKS;
use crate::{Tags, Word};
use bitflags::Flags;
use std::alloc::{AllocError, Global};
use std::marker::Model;

/// Words that stand at the places 0, 1, 2, ..: their values in one list, and their tags packed in another.
#[derive(Drop)]
pub(crate) struct Bank {
    values: Vec<u64>,
    // of the place q the four bits from bit 4 * (q % 16) up of element q / 16; the bits past the last place are zero
    tags: Vec<u64>,
}

impl Model for Bank {
    ghost use Rattle.std.specs.Prelude.{List};
    ghost use Rattle.tag_memory.specs.Cell.{Cell};
    ghost use Rattle.tag_memory.specs.Banks.{bank_cells, IsPacked};

    ghost Value = { List Cell };

    ghost view = { λ b. bank_cells b.values.items b.tags.items };

    ghost invariant = { λ b. IsPacked b.values.items b.tags.items };
}

impl Bank {
    /// No words.
    pub(crate) fn empty(alloc: Global) -> Bank
        ensures { result ≡ [] }
    {
        Bank {
            values: Vec::new(alloc),
            tags: Vec::new(alloc),
        }
    }

    /// Every eighth of the words, from word `first` on.
    pub(crate) fn every_eighth(
        alloc: Global,
        words: &[Word],
        first: usize,
    ) -> Result<Bank, AllocError>
        requires eighth { first < bank_count }
        requires few { length words.now ≤ most_memory_words }
        ensures { IfOk result (λ b. b ≡ every_eighth words.now first) }
    {
        let places = (words.len() + (BANKS - 1) - first) / BANKS;
        let mut bank = Bank::blank(alloc, places)?;
        for place in 0..places {
            bank.set(place, words[place * BANKS + first]);
        }
        Ok(bank)
    }

    /// So many words of value 0 with no tag.
    fn blank(alloc: Global, places: usize) -> Result<Bank, AllocError>
        requires { places ≤ most_memory_words }
        ensures { IfOk result (λ b. b ≡ replicate places blank_cell) }
    {
        let elements = (places + (PLACES_PER_ELEMENT - 1)) / PLACES_PER_ELEMENT;
        let values = vec![in alloc; 0u64; places]?;
        let tags = vec![in alloc; 0u64; elements]?;
        Ok(Bank { values, tags })
    }

    /// The word at a place; `None` past the last.
    pub(crate) fn get(&self, place: usize) -> Option<Word>
        ensures { result ≡ slice_get self.now place }
    {
        let value = *self.values.get(place)?;
        let element = self.tags[place / PLACES_PER_ELEMENT];
        let tags = element_tags(element, place % PLACES_PER_ELEMENT);
        Some(Word::new(value, Tags::from_bits_retain(tags)))
    }

    /// Puts another word at a place.
    pub(crate) fn set(&mut self, place: usize, word: Word)
        requires { place < length self.old }
        ensures { self.new ≡ slice_set self.old place word }
    {
        self.values[place] = word.value();
        let element = place / PLACES_PER_ELEMENT;
        let packed = with_element_tags(
            self.tags[element],
            place % PLACES_PER_ELEMENT,
            word.tag_number(),
        );
        self.tags[element] = packed;
    }
}

/// Its lists are copied whole.
impl Clone for Bank {
    ghost is_clone = { λ b d. d ≡ b };

    fn clone(&self) -> Result<Bank, AllocError> {
        let alloc = *self.values.allocator();
        let values = Vec::from_slice(alloc, &self.values)?;
        let tags = Vec::from_slice(alloc, &self.tags)?;
        Ok(Bank { values, tags })
    }
}
