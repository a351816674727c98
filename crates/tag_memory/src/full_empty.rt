//! The full/empty table: what a reference does to the word that it reaches.
ghost use Rattle.std.specs.Prelude.{◌≡◌};
ghost use Rattle.tag_memory.specs.Access.{effect};

use crate::{AccessControl, MemOp, Word};

/// The word after, and the number that the reply carries; `None` where the reference is blocked.
pub(crate) fn effect(
    op: MemOp,
    control: AccessControl,
    word: Word,
    value: u64,
) -> Option<(Word, u64)>
    ensures { result ≡ effect op control word value }
{
    let old = word.value();
    let sum = old.wrapping_add(value);
    match (op, control, word.is_full()) {
        (MemOp::Load, AccessControl::Normal, _) => Some((word, old)),
        (MemOp::Load, AccessControl::Future, true) => Some((word, old)),
        (MemOp::Load, AccessControl::Future, false) => None,
        (MemOp::Load, AccessControl::Sync, true) => Some((word.with_full_clear(), old)),
        (MemOp::Load, AccessControl::Sync, false) => None,
        (MemOp::Store, AccessControl::Normal, _) => Some((word.with_value_full(value), 0)),
        (MemOp::Store, AccessControl::Future, true) => Some((word.with_value(value), 0)),
        (MemOp::Store, AccessControl::Future, false) => None,
        (MemOp::Store, AccessControl::Sync, true) => None,
        (MemOp::Store, AccessControl::Sync, false) => Some((word.with_value_full(value), 0)),
        (MemOp::Fadd, AccessControl::Normal, _) => Some((word.with_value_full(sum), old)),
        (MemOp::Fadd, AccessControl::Future | AccessControl::Sync, true) => Some((
            word.with_value(sum),
            old,
        )),
        (MemOp::Fadd, AccessControl::Future | AccessControl::Sync, false) => None,
        (MemOp::TagGet, _, _) => Some((word, u64::from(word.tag_number()))),
        (MemOp::TagSet, _, _) => Some((word.with_tags(value), 0)),
        (MemOp::Purge, _, _) => Some((word.with_value(value).with_full_clear(), 0)),
    }
}
