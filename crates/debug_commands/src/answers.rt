//! What the debugger answers.

use crate::word_list::WordList;
use stream_core::Stream;

/// Why the debugger stands where it does.
#[derive(Clone, Copy, Debug, PartialEq, Eq)]
pub enum Why {
    /// A command asked it to go there.
    Moved,
    /// One of its points stops there.
    Stop,
    /// It is the end of the schedule.
    End,
    /// It is the start of the schedule.
    Start,
}

/// The answer to a command.
#[derive(Debug, Drop)]
pub enum Answer {
    /// The position that was gone to, and why there.
    At(u64, Why),
    /// The key of a new point.
    Point(u64),
    /// The key of a point that was taken away.
    Gone(u64),
    /// A stream.
    Stream(Stream),
    /// Words of the memory.
    Words(WordList),
}
