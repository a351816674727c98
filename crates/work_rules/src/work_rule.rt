//! Lines about who does the work.

use processor::Step;

/// What the streams of a program have to do in a run. A stream stores to a word if the memory does a STORE or a FADD of the
/// stream at this word, whatever value the word has before and after it.
#[derive(Clone, Copy, Debug, PartialEq, Eq)]
pub enum WorkRule {
    /// A stream stores to a word.
    Writes {
        /// The stream.
        stream: Step,
        /// The word's byte address.
        address: u64,
    },
    /// So many streams at least store each to some word of a range.
    AtLeast {
        /// How many.
        count: usize,
        /// The byte address of the first word of the range.
        first: u64,
        /// That of the last word.
        last: u64,
    },
}
