//! What the head of a statement names.

use insn_word::{Access, ArithmeticOp, ControlOp, MemoryOp, WideOp};

/// The operation that the head of an instruction names, with what its suffix says.
#[derive(Clone, Copy, Debug, PartialEq, Eq)]
pub enum Operation {
    /// No operation.
    Nop,
    /// A wide operation.
    Wide(WideOp),
    /// A memory operation, not NOP.
    Memory(MemoryOp, Access),
    /// An arithmetic operation, not NOP, and whether it makes a condition code.
    Arithmetic(ArithmeticOp, bool),
    /// A control operation, not NOP.
    Control(ControlOp),
}

/// The directive that the head of a statement names.
#[derive(Clone, Copy, Debug, PartialEq, Eq)]
pub enum Directive {
    /// `.profile`
    Profile,
    /// `.slim`
    Slim,
    /// `.chain`, which Profile 2 alone has
    Chain,
    /// `.retry`
    Retry,
    /// `.trap`
    Trap,
    /// `.entry`
    Entry,
    /// `.word`
    Word,
    /// `.data`
    Data,
    /// `.fill`
    Fill,
}
