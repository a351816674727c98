//! A word of the memory: 64 bits of value and four tags.
ghost use Rattle.std.specs.Prelude.{◌≡◌, ℕ, ◌<◌, Some, None, if◌then◌else◌, nat_lt, not, ◌||◌};
ghost use Rattle.tag_memory.specs.Cell.{cell_of, tag_bits, tag_number};
ghost use Rattle.tag_memory.specs.Access.{with_value, with_value_full, with_full_clear, with_tags};

use crate::Tags;
use bitflags::Flags;
use std::marker::Model;

/// A word of the memory: its value and its tags, full, forward, trap0 and trap1 ("words and tags", docs/MACHINE.md).
///
/// No tag bit but these four is ever set.
#[derive(Clone, Copy, PartialEq, Eq, Debug)]
pub struct Word {
    value: u64,
    tags: Tags,
}

impl Model for Word {
    ghost use Rattle.std.specs.Prelude.{◌<◌};
    ghost use Rattle.tag_memory.specs.Cell.{Cell, cell_of, tag_number};
    ghost use Rattle.tag_memory.specs.TagNumber.{tag_number-cell_of};

    ghost Value = { Cell };

    ghost view = { λ w. cell_of w.value w.tags.0 };

    ghost invariant = { λ w. w.tags.0 < 16 };

    ghost inverse = { λ c. record { value = c.value; tags = record { 0 = tag_number c } } };

    ghost inverse_ok = { λ w h i. record {
      value = w.value;
      tags = record { 0 = tag_number-cell_of w.value w.tags.0 h i };
    } };
}

impl Word {
    /// The word of this value and these tags.
    pub fn new(value: u64, tags: Tags) -> Word
        requires { tag_bits tags < 16 }
        ensures { result ≡ cell_of value (tag_bits tags) }
    {
        Word { value, tags }
    }

    /// The word of this value whose tags are given as a number, 0 to 15: full 1, forward 2, trap0 4, trap1 8.
    /// `None` for any other number.
    pub fn from_number(value: u64, tags: u8) -> Option<Word>
        ensures { result ≡ (if nat_lt tags 16 then Some (cell_of value tags) else None) }
    {
        if tags < 16 {
            Some(Word {
                value,
                tags: Tags::from_bits_retain(tags),
            })
        } else {
            None
        }
    }

    /// The value.
    pub fn value(&self) -> u64
        ensures { result ≡ self.now.value }
    {
        self.value
    }

    /// The tags.
    pub fn tags(&self) -> Tags
        ensures { tag_bits result ≡ tag_number self.now }
    {
        self.tags
    }

    /// The tags as a number, 0 to 15: full 1, forward 2, trap0 4, trap1 8.
    pub fn tag_number(&self) -> u8
        ensures { result ≡ tag_number self.now }
    {
        self.tags.bits()
    }

    /// Whether the word is full, else it is empty.
    pub fn is_full(&self) -> bool
        ensures { result ≡ self.now.full }
    {
        self.tags.contains(Tags::FULL)
    }

    /// Whether the word sends a reference on to the pointer that its value is.
    pub fn is_forward(&self) -> bool
        ensures { result ≡ self.now.forward }
    {
        self.tags.contains(Tags::FORWARD)
    }

    /// Whether the trap0 bit is set.
    pub fn has_trap0(&self) -> bool
        ensures { result ≡ self.now.trap0 }
    {
        self.tags.contains(Tags::TRAP0)
    }

    /// Whether the trap1 bit is set.
    pub fn has_trap1(&self) -> bool
        ensures { result ≡ self.now.trap1 }
    {
        self.tags.contains(Tags::TRAP1)
    }

    /// Whether no forward bit and no trap bit is set.
    pub(crate) fn is_unguarded(&self) -> bool
        ensures { result ≡ not (self.now.forward || self.now.trap0 || self.now.trap1) }
    {
        self.tags.bits() < Tags::FORWARD.bits()
    }

    /// The word with another value, as full or empty as it was.
    pub(crate) fn with_value(self, value: u64) -> Word
        ensures { result ≡ with_value self value }
    {
        Word { value, ..self }
    }

    /// The word with another value, full.
    pub(crate) fn with_value_full(self, value: u64) -> Word
        ensures { result ≡ with_value_full self value }
    {
        let mut tags = self.tags;
        tags.insert(Tags::FULL);
        Word { value, tags }
    }

    /// The word made empty.
    pub(crate) fn with_full_clear(self) -> Word
        ensures { result ≡ with_full_clear self }
    {
        let mut tags = self.tags;
        tags.remove(Tags::FULL);
        Word { tags, ..self }
    }

    /// The word with the tags that the four low bits of a number are.
    pub(crate) fn with_tags(self, number: u64) -> Word
        ensures { result ≡ with_tags self number }
    {
        let tags = Tags::from_bits_retain((number & 15) as u8);
        Word { tags, ..self }
    }
}
