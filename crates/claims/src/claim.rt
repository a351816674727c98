//! What can be claimed of the worlds that a program comes to.

use expectations::Relation;
use machine::processors::Step;

/// A claim about the worlds that a program comes to.
#[derive(Drop)]
pub struct Claim {
    /// Of how many of these worlds the form has to hold.
    pub scope: Scope,
    /// What holds of a world or not.
    pub form: ClaimForm,
}

/// That one condition leads to another: wherever `from` holds, `to` holds at once or comes to hold.
#[derive(Drop)]
pub struct LeadsTo {
    /// The first condition.
    pub from: ClaimForm,
    /// The one that has to come.
    pub to: ClaimForm,
}

/// Of how many worlds something has to hold.
#[derive(Clone, Copy, Debug, PartialEq, Eq)]
pub enum Scope {
    /// Of each.
    Always,
    /// Of none.
    Never,
    /// Of one at least.
    Once,
}

/// What holds of a world or not.
#[derive(Drop)]
pub enum ClaimForm {
    /// A word of the memory is so.
    Word {
        /// Its byte address.
        address: u64,
        /// How it is.
        test: WordTest,
    },
    /// The value of a word, beside that of another and a number.
    Compared {
        /// The word's byte address.
        address: u64,
        /// How its value stands to the other word's and the number, modulo 2^64.
        relation: Relation,
        /// The other word's byte address.
        other: u64,
        /// The number.
        more: u64,
    },
    /// So many of the streams of some groups, together, run at places of their groups' ranges.
    Streams {
        /// How many.
        test: CountTest,
        /// The groups.
        groups: Vec<StreamGroup>,
    },
}

/// Streams, and the range in which they count. A stream that is named twice counts twice.
#[derive(Drop)]
pub struct StreamGroup {
    /// The streams.
    pub streams: Vec<Step>,
    /// The first program word of the range.
    pub first: u32,
    /// The last program word of the range.
    pub last: u32,
}

/// How many there are.
#[derive(Clone, Copy, Debug, PartialEq, Eq)]
pub enum CountTest {
    /// At most so many.
    AtMost(usize),
    /// At least so many.
    AtLeast(usize),
}

/// How a word is.
#[derive(Clone, Copy, Debug, PartialEq, Eq)]
pub enum WordTest {
    /// Its value is this one.
    Is(u64),
    /// Its value is greater.
    Above(u64, NumberOrder),
    /// Its value is less.
    Below(u64, NumberOrder),
    /// It is full.
    Full,
    /// It is empty.
    Empty,
}

/// As what two words of 64 bits are compared.
#[derive(Clone, Copy, Debug, PartialEq, Eq)]
pub enum NumberOrder {
    /// As numbers from 0 to 2^64 - 1.
    Unsigned,
    /// As numbers from -2^63 to 2^63 - 1, in two's complement.
    Signed,
}
