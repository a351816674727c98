//! What a memory operation asks for, by what registers hold.

ghost use Rattle.std.specs.Prelude.{◌≡◌, ◌/◌, ◌%◌, ℕ, true, false, Some, IsTrue};
ghost use Rattle.insn_word.specs.declared.insn.MPart.{MPart};
ghost use Rattle.tag_memory.specs.Cell.{has_bit};
ghost use Rattle.tag_memory.specs.Address.{address_of};
ghost use Rattle.tag_memory.specs.ReadRequests.{may_change as may_change_word};
ghost use Rattle.tag_memory.specs.Unforwarded.{sets_forward};
ghost use Rattle.tag_memory.specs.Access.{pointer_control};
ghost use Rattle.tag_memory.specs.Adds.{is_add};
ghost use Rattle.tag_memory.specs.declared.requests.Request.{Request};
ghost use Rattle.stream_core.specs.Streams.{StreamValue};
ghost use Rattle.stream_core.specs.Registers.{register_at};
ghost use Rattle.stream_core.specs.Effects.{displaced_pointer as pointer_from, request_by};
ghost use Rattle.touched_words.specs.TouchTables.{IsOneOf, HoldsKnown};

use crate::few::Few;
use crate::rows::known_by;
use insn_word::{Access, MPart, MemoryOp};
use stream_core::displaced_pointer;
use tag_memory::AccessControl;

/// How many bytes a word has.
const WORD_BYTES: u64 = 8;

/// The number of the word that a memory operation asks for from this base.
pub(crate) fn word_from(base: u64, m: &MPart) -> u64
    ensures { (s : StreamValue) (q : Request) → register_at s.registers m.now.base ≡ base
        → request_by s m.now m.now.op ≡ Some q → address_of q.pointer / 8 ≡ result }
{
    displaced_pointer(base, m.disp).address() / WORD_BYTES
}

/// Whether a memory operation may change the word that it asks for.
pub(crate) fn may_change(m: &MPart) -> bool
    ensures { (s : StreamValue) (q : Request) → request_by s m.now m.now.op ≡ Some q
        → may_change_word q.op q.acc ≡ true → result ≡ true }
{
    match m.op {
        MemoryOp::Load => match m.acc {
            Access::Normal | Access::Future => false,
            Access::FromPointer | Access::Sync => true,
        },
        MemoryOp::Nop | MemoryOp::TagGet => false,
        MemoryOp::Store | MemoryOp::FetchAdd | MemoryOp::TagSet | MemoryOp::Purge => true,
    }
}

/// Whether a memory operation is a FADD by normal control, as far as its pointer is known.
pub(crate) fn adds(row: &[Option<Few>], m: &MPart) -> bool
    ensures { IsTrue result → (s : StreamValue) (q : Request) → HoldsKnown row.now s.registers
        → request_by s m.now m.now.op ≡ Some q → is_add q ≡ true }
{
    match m.op {
        MemoryOp::FetchAdd => match m.acc {
            Access::Normal => true,
            Access::FromPointer => has_normal_control(row, m),
            Access::Future | Access::Sync => false,
        },
        MemoryOp::Nop
        | MemoryOp::Load
        | MemoryOp::Store
        | MemoryOp::TagGet
        | MemoryOp::TagSet
        | MemoryOp::Purge => false,
    }
}

/// Whether the pointer of a memory operation has normal control, as far as it is known.
fn has_normal_control(row: &[Option<Few>], m: &MPart) -> bool
    ensures { IsTrue result → (s : StreamValue) → HoldsKnown row.now s.registers
        → pointer_control (pointer_from (register_at s.registers m.now.base) m.now.disp) ≡ AccessControl.Normal }
{
    match known_by(row, m.base) {
        None => false,
        Some(bases) => are_normal(bases, m.disp),
    }
}

/// Whether the pointers from each of these bases have normal control.
fn are_normal(bases: Few, disp: i8) -> bool
    ensures { IsTrue result → (n : ℕ) → IsOneOf bases n
        → pointer_control (pointer_from n disp) ≡ AccessControl.Normal }
{
    is_normal(bases.first, disp)
        && is_normal(bases.second, disp)
        && is_normal(bases.third, disp)
        && is_normal(bases.fourth, disp)
}

/// Whether the pointer from a base has it.
fn is_normal(base: u64, disp: i8) -> bool
    ensures { IsTrue result → pointer_control (pointer_from base disp) ≡ AccessControl.Normal }
{
    displaced_pointer(base, disp).control() == AccessControl::Normal
}

/// Whether a memory operation sets no forward bit, as far as its value is known: TAGSET alone may.
pub(crate) fn forwards_none(row: &[Option<Few>], m: &MPart) -> bool
    ensures { IsTrue result → (s : StreamValue) (q : Request) → HoldsKnown row.now s.registers
        → request_by s m.now m.now.op ≡ Some q → sets_forward q.op q.value ≡ false }
{
    match m.op {
        MemoryOp::TagSet => match known_by(row, m.rd) {
            Some(values) => set_none(values),
            None => false,
        },
        MemoryOp::Nop
        | MemoryOp::Load
        | MemoryOp::Store
        | MemoryOp::FetchAdd
        | MemoryOp::TagGet
        | MemoryOp::Purge => true,
    }
}

/// Whether TAGSET sets no forward bit by any of these values.
fn set_none(values: Few) -> bool
    ensures { IsTrue result → (n : ℕ) → IsOneOf values n → has_bit (n % 16) 1 ≡ false }
{
    sets_none(values.first)
        && sets_none(values.second)
        && sets_none(values.third)
        && sets_none(values.fourth)
}

/// The same of one value.
fn sets_none(value: u64) -> bool
    ensures { IsTrue result → has_bit (value % 16) 1 ≡ false }
{
    value % 16 / 2 % 2 != 1
}
