//! Rules of programs.

use insn_word::{ArithmeticOp, ControlOp, MemoryOp, WideOp};

/// An operation that a program word may spell: the one of a wide word, or one of the three of a normal one.
#[derive(Clone, Copy, Debug, PartialEq, Eq)]
pub enum ProgramOperation {
    /// A wide operation.
    Wide(WideOp),
    /// A memory operation, with any access.
    Memory(MemoryOp),
    /// An arithmetic operation, with or without a test.
    Arithmetic(ArithmeticOp),
    /// A control operation.
    Control(ControlOp),
}

/// A rule that a program keeps or breaks, whatever its schedule.
#[derive(Clone, Copy, Debug, PartialEq, Eq)]
pub enum ProgramRule {
    /// It has just so many entries, which is as many processors.
    Entries(usize),
    /// It has at most so many program words.
    AtMostWords(usize),
    /// No program word of it spells this operation.
    Forbid(ProgramOperation),
    /// Some program word of it spells this operation.
    Require(ProgramOperation),
}
