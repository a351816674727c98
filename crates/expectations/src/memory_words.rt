//! Whether a word of the memory is as expected.

ghost use Rattle.std.specs.Prelude.{◌≡◌};
ghost use Rattle.expectations.specs.MemoryWords.{is_word, is_in_state, is_related, is_compared};

use crate::expectation::{FullEmpty, Relation};
use tag_memory::Word;

/// Whether a word is there, with this value and in this state.
pub(crate) fn is_word(word: Option<Word>, value: u64, state: Option<FullEmpty>) -> bool
    ensures { result ≡ is_word value state word }
{
    match word {
        Some(word) => word.value() == value && is_in_state(word.is_full(), state),
        None => false,
    }
}

fn is_in_state(full: bool, state: Option<FullEmpty>) -> bool
    ensures { result ≡ is_in_state state full }
{
    match state {
        Some(FullEmpty::Full) => full,
        Some(FullEmpty::Empty) => !full,
        None => true,
    }
}

/// Whether two words are there, and the first one's value stands so to the second one's and a number.
pub(crate) fn is_compared(
    word: Option<Word>,
    relation: Relation,
    other: Option<Word>,
    more: u64,
) -> bool
    ensures { result ≡ is_compared relation more word other }
{
    match word {
        Some(word) => match other {
            Some(other) => is_related(word.value(), relation, other.value().wrapping_add(more)),
            None => false,
        },
        None => false,
    }
}

fn is_related(one: u64, relation: Relation, other: u64) -> bool
    ensures { result ≡ is_related relation one other }
{
    match relation {
        Relation::Is => one == other,
        Relation::Above => one > other,
        Relation::Below => one < other,
        Relation::AboveSigned => one.cast_signed() > other.cast_signed(),
        Relation::BelowSigned => one.cast_signed() < other.cast_signed(),
    }
}
