//! What a line adds to the program.

use insn_word::{Insn, Profile};

/// What one line of source text adds (docs/WRITING_PROGRAMS.md).
#[derive(Clone, Copy, Debug, PartialEq, Eq)]
pub enum Item {
    /// The line is empty, but for a label or a comment.
    Nothing,
    /// `.profile`: the profile of its number, 1 or 2.
    Profile(Profile),
    /// `.slim`: the number of streams of a processor, 1 to 128.
    Slim(u8),
    /// `.chain`: the chain limit, 0 to 64. Profile 2 alone has it.
    Chain(u8),
    /// `.retry`: the retry limit.
    Retry(u32),
    /// `.trap`: the trap entry.
    Trap(u32),
    /// `.entry`: the entry of the next processor, below the number of program words.
    Entry(u32),
    /// A program word that spells this instruction.
    Instruction(Insn),
    /// `.word`: this program word.
    Word(u64),
    /// `.data` and `.fill`: so many equal cells.
    Cells {
        /// How many, 1 to 262,144.
        count: u32,
        /// The value of each.
        value: u64,
        /// The tags of each, 0 to 15.
        tags: u8,
    },
}
