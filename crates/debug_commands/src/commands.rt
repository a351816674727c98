//! What the debugger can be asked to do.

/// A command of the debugger. Position k is the machine after the first k steps of the schedule.
#[derive(Clone, Copy, Debug, PartialEq, Eq)]
pub enum Command {
    /// `s n`: n steps forward.
    Forward(u64),
    /// `c`: on to the next stop, or to the end of the schedule.
    Continue,
    /// `back`: back to the last stop before, or to the start.
    Back,
    /// `g k`: to position k.
    Go(u64),
    /// `b p pc`: a breakpoint at a program word, for the streams of one processor.
    Break(u8, u32),
    /// `w a`: watches the word at a byte address, its value and its tags.
    Watch(u64),
    /// `wt a`: watches the tags of the word at a byte address.
    WatchTags(u64),
    /// `d n`: takes the point of this key away.
    Delete(u64),
    /// `r p s`: shows a stream of a processor.
    Registers(u8, u8),
    /// `m a n`: shows n words from a byte address on.
    Show(u64, u64),
}
