//! Which words changes fill and empty.

ghost use Rattle.std.specs.Prelude.{◌≡◌, ◌↔◌, ℕ, Some};
ghost use Rattle.step_views.specs.FullBits.{has_full_bit, FillsOrEmpties};

use crate::places::{Change, Content, Place};
use bitflags::Flags;
use tag_memory::Tags;

impl Change {
    /// The byte address of the word that was filled, having been empty, or was emptied, having been full; None if the
    /// change is another one.
    pub fn word_filled_or_emptied(&self) -> Option<u64>
        ensures { (address : ℕ) → (result ≡ Some address) ↔ FillsOrEmpties address self.now }
    {
        match self.place {
            Place::Tags { address } if has_full_bit(self.before) != has_full_bit(self.after) => {
                Some(address)
            }
            _ => None,
        }
    }
}

/// Whether these are the tags of a full word.
fn has_full_bit(content: Content) -> bool
    ensures { result ≡ has_full_bit content }
{
    match content {
        Content::Tags(tags) => tags.contains(Tags::FULL),
        _ => false,
    }
}
