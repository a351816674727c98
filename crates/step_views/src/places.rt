//! The places of a world, and what stands in them.

use stream_core::{Codes, Status, StatusWord, TrapMask};
use tag_memory::Tags;

/// A part of a stream ("Streams", docs/MACHINE.md). What stands in it is a number, where nothing else is said.
#[derive(Clone, Copy, Debug, PartialEq, Eq)]
pub enum StreamPart {
    /// The pc, of the stream status word.
    Pc,
    /// The four condition codes, of the stream status word.
    Codes,
    /// The trap mask, of the stream status word.
    Mask,
    /// Whether the stream is in a trap, of the stream status word.
    InTrap,
    /// The trap register.
    TrapRegister,
    /// How often the reference at the pc was blocked.
    Retries,
    /// Whether the stream runs: a status.
    Status,
    /// The general register of this number, 0 to 31.
    Register(u8),
    /// The target register of this number, 0 to 7: a status word.
    Target(u8),
}

/// A place of a world. Together the places are all that steps can change.
#[derive(Clone, Copy, Debug, PartialEq, Eq)]
pub enum Place {
    /// A part of a stream.
    Stream {
        /// The processor's number.
        p: u8,
        /// The stream's number, below the image's slim.
        s: u8,
        /// The part.
        part: StreamPart,
    },
    /// How many streams of a processor are current: a number.
    Current {
        /// The processor's number.
        p: u8,
    },
    /// How many streams of a processor are reserved: a number.
    Reserved {
        /// The processor's number.
        p: u8,
    },
    /// The value of a word of the memory: a number.
    Value {
        /// The word's byte address.
        address: u64,
    },
    /// The tags of a word of the memory.
    Tags {
        /// The word's byte address.
        address: u64,
    },
}

/// What stands in a place.
#[derive(Clone, Copy, Debug, PartialEq, Eq)]
pub enum Content {
    /// A number: a pc, a register, a trap register, a retry count, a count of streams, or the value of a word.
    Number(u64),
    /// The four condition codes of a stream.
    Codes(Codes),
    /// The trap mask of a stream.
    Mask(TrapMask),
    /// Whether a stream is in a trap.
    InTrap(bool),
    /// Whether a stream runs.
    Status(Status),
    /// A target register.
    Target(StatusWord),
    /// The tags of a word.
    Tags(Tags),
}

/// That a place does not hold what it held.
#[derive(Clone, Copy, Debug, PartialEq, Eq)]
pub struct Change {
    /// The place.
    pub place: Place,
    /// What stood there before.
    pub before: Content,
    /// What stands there after.
    pub after: Content,
}
