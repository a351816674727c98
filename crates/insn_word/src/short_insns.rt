//! Instructions of the two forms that most words of a program have. Each stands for one `Insn`. They are read and
//! executed in fewer steps.

use crate::insn::APart;
use crate::operations::{Access, Condition};

/// A control operation that does no more than say where the stream goes on.
#[derive(Clone, Copy, Debug, PartialEq, Eq)]
pub enum ShortControl {
    /// NOP: to the next word.
    Nop,
    /// SKIP.
    Skip {
        /// The condition.
        cond: Condition,
        /// Which code it is asked of, 0 for the newest to 3 for the oldest.
        code: u8,
        /// How many words it goes on, -128 to 127.
        n: i8,
    },
}

/// An instruction with no memory operation and no control operation but SKIP.
#[derive(Clone, Copy, Debug, PartialEq, Eq)]
pub struct ShortInsn {
    /// The lookahead, 0 to 7, which has no effect.
    pub look: u8,
    /// The arithmetic operation.
    pub a: APart,
    /// The control operation.
    pub c: ShortControl,
}

/// The memory operations of Profile 1 but NOP, as `MemoryOp` has them.
#[derive(Clone, Copy, Debug, PartialEq, Eq)]
pub enum ReferenceOp {
    /// LOAD.
    Load,
    /// STORE.
    Store,
    /// FADD.
    FetchAdd,
    /// TAGGET.
    TagGet,
    /// TAGSET.
    TagSet,
}

/// A memory part that asks the memory for an operation of Profile 1.
#[derive(Clone, Copy, Debug, PartialEq, Eq)]
pub struct ReferencePart {
    /// The operation.
    pub op: ReferenceOp,
    /// The control that the reference obeys; `FromPointer` for TAGGET and TAGSET.
    pub acc: Access,
    /// The register (0 to 31) that is loaded, stored or added.
    pub rd: u8,
    /// The register (0 to 31) that holds the pointer.
    pub base: u8,
    /// How many words after the pointer, -32 to 31.
    pub disp: i8,
}

/// An instruction that asks the memory for an operation of Profile 1, with no arithmetic operation and no control
/// operation but SKIP.
#[derive(Clone, Copy, Debug, PartialEq, Eq)]
pub struct ReferenceInsn {
    /// The lookahead, 0 to 7, which has no effect.
    pub look: u8,
    /// The memory operation.
    pub m: ReferencePart,
    /// The control operation.
    pub c: ShortControl,
}
