//! From the enums of instruction words and of the memory to each other's.

ghost use Rattle.std.specs.Prelude.{◌≡◌};
ghost use Rattle.stream_core.specs.Effects.{access_of};
ghost use Rattle.stream_core.specs.ShortEffects.{asked_operation};
ghost use Rattle.stream_core.specs.Traps.{memory_trap};

use crate::traps::TrapKind;
use insn_word::{Access, ReferenceOp};
use tag_memory::{Acc, MemOp, MemTrap};

/// The access field of the instruction, as the memory takes it.
#[inline(always)]
pub fn acc_of(access: Access) -> Acc
    ensures { result ≡ access_of access }
{
    match access {
        Access::FromPointer => Acc::FromPointer,
        Access::Normal => Acc::Normal,
        Access::Future => Acc::Future,
        Access::Sync => Acc::Sync,
    }
}

/// The operation of a reference, as the memory takes it.
#[inline(always)]
pub(crate) fn operation_of(op: ReferenceOp) -> MemOp
    ensures { result ≡ asked_operation op }
{
    match op {
        ReferenceOp::Load => MemOp::Load,
        ReferenceOp::Store => MemOp::Store,
        ReferenceOp::FetchAdd => MemOp::Fadd,
        ReferenceOp::TagGet => MemOp::TagGet,
        ReferenceOp::TagSet => MemOp::TagSet,
    }
}

/// The trap of a stream whose reference the memory refuses ("Traps", docs/MACHINE.md).
pub fn trap_of(trap: MemTrap) -> TrapKind
    ensures { result ≡ memory_trap trap }
{
    match trap {
        MemTrap::Pointer => TrapKind::Pointer,
        MemTrap::Align => TrapKind::Align,
        MemTrap::Range => TrapKind::Range,
        MemTrap::Trap0 => TrapKind::Trap0,
        MemTrap::Trap1 => TrapKind::Trap1,
        MemTrap::Forward => TrapKind::Forward,
    }
}
