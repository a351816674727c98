//! What a stream waits for, as it is reported.

/// The state that a reference wants of a word ("The full/empty table", docs/MACHINE.md).
#[derive(Clone, Copy, Debug, PartialEq, Eq)]
pub enum Wanted {
    /// The word is empty, and is to be full.
    Full,
    /// The word is full, and is to be empty.
    Empty,
}

/// What a stream waits for.
#[derive(Clone, Copy, Debug, PartialEq, Eq)]
pub struct Wait {
    /// The byte address of the word where its request ends, after all words that forward it.
    pub address: u64,
    /// The state that would let its request through there. The word is in the other one.
    pub wanted: Wanted,
}
