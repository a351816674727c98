//! The profiles: which operations an instruction may have.

ghost use Rattle.std.specs.Prelude.{◌≡◌};
ghost use Rattle.insn_word.specs.Operations.{has_operation};

use crate::operations::MemoryOp;

/// Which operations there are ("Profile 2", docs/FORMATS.md).
#[derive(Clone, Copy, Debug, PartialEq, Eq)]
pub enum Profile {
    /// Profile 1: all but PURGE.
    One,
    /// Profile 2: all of Profile 1, and PURGE.
    Two,
}

impl Profile {
    /// Whether it has the memory operation.
    pub(crate) fn has(self, op: MemoryOp) -> bool
        ensures { result ≡ has_operation self op }
    {
        match op {
            MemoryOp::Nop
            | MemoryOp::Load
            | MemoryOp::Store
            | MemoryOp::FetchAdd
            | MemoryOp::TagGet
            | MemoryOp::TagSet => true,
            MemoryOp::Purge => self == Profile::Two,
        }
    }
}

impl MemoryOp {
    /// The memory operations of Profile 1, in the order of their numbers.
    pub const IN_PROFILE_ONE: [MemoryOp; 6] = [
        MemoryOp::Nop,
        MemoryOp::Load,
        MemoryOp::Store,
        MemoryOp::FetchAdd,
        MemoryOp::TagGet,
        MemoryOp::TagSet,
    ];
}
