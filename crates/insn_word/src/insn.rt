//! Instructions and their parts.

use crate::operations::{Access, ArithmeticOp, Condition, ControlOp, MemoryOp, WideOp};

/// The memory part of a normal word. Fields that its operation does not use are zero.
#[derive(Clone, Copy, Debug, PartialEq, Eq)]
pub struct MPart {
    /// The operation.
    pub op: MemoryOp,
    /// The control that the reference obeys; `FromPointer` for NOP, TAGGET, TAGSET and PURGE.
    pub acc: Access,
    /// The register (0 to 31) that is loaded, stored or added.
    pub rd: u8,
    /// The register (0 to 31) that holds the pointer.
    pub base: u8,
    /// How many words after the pointer, -32 to 31.
    pub disp: i8,
}

impl MPart {
    /// No memory operation.
    pub const NOP: MPart = MPart {
        op: MemoryOp::Nop,
        acc: Access::FromPointer,
        rd: 0,
        base: 0,
        disp: 0,
    };
}

/// The arithmetic part of a normal word. Fields that its operation does not use are zero.
#[derive(Clone, Copy, Debug, PartialEq, Eq)]
pub struct APart {
    /// The operation.
    pub op: ArithmeticOp,
    /// Whether the condition code is shifted into the status word.
    pub test: bool,
    /// Whether the second operand is the number `rb`, not a register.
    pub imm: bool,
    /// The register (0 to 31) of the result.
    pub rd: u8,
    /// The register (0 to 31) of the first operand.
    pub ra: u8,
    /// The register of the second operand, or the operand itself (0 to 31).
    pub rb: u8,
}

impl APart {
    /// No arithmetic operation.
    pub const NOP: APart = APart {
        op: ArithmeticOp::Nop,
        test: false,
        imm: false,
        rd: 0,
        ra: 0,
        rb: 0,
    };
}

/// The control part of a normal word. Fields that its operation does not use are zero, and a
/// condition is `Always`.
#[derive(Clone, Copy, Debug, PartialEq, Eq)]
pub struct CPart {
    /// The operation.
    pub op: ControlOp,
    /// The condition of JUMP and SKIP.
    pub cond: Condition,
    /// Which code it is asked of, 0 for the newest to 3 for the oldest.
    pub code: u8,
    /// A target register, 0 to 7.
    pub t: u8,
    /// The target register (0 to 7) that CALL writes.
    pub u: u8,
    /// The register (0 to 31) that is written.
    pub rd: u8,
    /// The register (0 to 31) that is read.
    pub ra: u8,
    /// How many words SKIP goes on (-128 to 127), or the mask of MASK (0 to 7).
    pub n: i8,
}

impl CPart {
    /// No control operation.
    pub const NOP: CPart = CPart {
        op: ControlOp::Nop,
        cond: Condition::Always,
        code: 0,
        t: 0,
        u: 0,
        rd: 0,
        ra: 0,
        n: 0,
    };
}

/// An instruction: what one word of the program says.
#[derive(Clone, Copy, Debug, PartialEq, Eq)]
pub enum Insn {
    /// One operation with a wide immediate.
    Wide {
        /// The lookahead, 0 to 7, which has no effect.
        look: u8,
        /// The operation.
        op: WideOp,
        /// The register (0 to 31), or for TLIT the target register (0 to 7).
        reg: u8,
        /// The immediate.
        imm: u32,
    },
    /// Up to three operations, one in each part.
    Normal {
        /// The lookahead, 0 to 7, which has no effect.
        look: u8,
        /// The memory operation.
        m: MPart,
        /// The arithmetic operation.
        a: APart,
        /// The control operation.
        c: CPart,
    },
}
