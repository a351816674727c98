//! What can be expected of the end of a run.

/// Whether a word is full or empty.
#[derive(Clone, Copy, Debug, PartialEq, Eq)]
pub enum FullEmpty {
    /// Its full bit is set.
    Full,
    /// Its full bit is not set.
    Empty,
}

/// How a number of 64 bits stands to another.
#[derive(Clone, Copy, Debug, PartialEq, Eq)]
pub enum Relation {
    /// They are the same.
    Is,
    /// It is greater, as numbers from 0 to 2^64 - 1.
    Above,
    /// It is less, as numbers from 0 to 2^64 - 1.
    Below,
    /// It is greater, as numbers from -2^63 to 2^63 - 1, in two's complement.
    AboveSigned,
    /// It is less, as numbers from -2^63 to 2^63 - 1, in two's complement.
    BelowSigned,
}

/// One thing that the end of a run has to be, or may be.
#[derive(Clone, Copy, Debug, PartialEq, Eq)]
pub enum Expectation {
    /// A word of the memory.
    Word {
        /// Its byte address.
        address: u64,
        /// Its value.
        value: u64,
        /// Whether it is full or empty; None where both will do.
        state: Option<FullEmpty>,
    },
    /// Each of the words from one to another.
    Words {
        /// The first one's byte address.
        first: u64,
        /// The last one's byte address.
        last: u64,
        /// The value of each.
        value: u64,
        /// Whether each is full or empty; None where both will do.
        state: Option<FullEmpty>,
    },
    /// The values of the words from one to another, together.
    Sum {
        /// The first one's byte address.
        first: u64,
        /// The last one's byte address.
        last: u64,
        /// Their sum, modulo 2^64.
        value: u64,
    },
    /// The value of a word, beside that of another and a number.
    Compared {
        /// The word's byte address.
        address: u64,
        /// How its value stands to the other word's and the number, modulo 2^64.
        relation: Relation,
        /// The other word's byte address.
        other: u64,
        /// The number.
        more: u64,
    },
    /// A register of a stream. A stream that does not run and was not stopped holds zeros.
    Register {
        /// The processor's number.
        p: u8,
        /// The stream's number.
        s: u8,
        /// The register's number, 0 to 31.
        number: u8,
        /// What it holds.
        value: u64,
    },
    /// No stream runs, and none was stopped by a trap.
    Finished,
    /// A stream that a trap stopped.
    Stopped {
        /// The processor's number.
        p: u8,
        /// The stream's number.
        s: u8,
        /// The trap's number, 1 to 10.
        trap: u8,
    },
    /// A stream may wait forever at places of a range, as a server does. Each end meets this: it allows something.
    Waits {
        /// The processor's number.
        p: u8,
        /// The stream's number.
        s: u8,
        /// The first program word of the range.
        first: u32,
        /// The last program word of the range.
        last: u32,
    },
    /// The program may go on forever. Each end meets this: it allows something.
    Loops,
}
