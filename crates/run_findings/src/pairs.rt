//! Whether two values that a stream read one after the other are half of a change.

ghost use Rattle.std.specs.Prelude.{◌≡◌, ◌≤◌, ◌<◌, ◌+◌, ◌==◌, ◌&&◌, length, slice_range};
ghost use Rattle.run_findings.specs.Pairs.{value_met, value_before, value_past, were_at_once, are_at_once, deed_mixes};
ghost use Rattle.run_findings.specs.Pairs.{mixes, computes_from_both, is_half, is_half_in_order, from_step};

use crate::actions::{Access, Action, Deed};
use crate::marks::Marks;
use insn_word::Insn;
use processor::Step;

/// A read of a word by a stream.
#[derive(Clone, Copy)]
pub(crate) struct Look {
    /// The byte address of the word.
    pub(crate) word: u64,
    /// The step.
    pub(crate) step: usize,
}

/// Whether two reads of a stream saw half of a change: there was no moment at which the words held both values, or the
/// stream computes something from both.
pub(crate) fn is_half(actions: &[Action], stream: Step, one: Look, other: Look) -> bool
    requires one_in { one.step < length actions.now }
    requires other_in { other.step < length actions.now }
    ensures { result ≡ is_half actions.now stream one.word other.word one.step other.step }
{
    if one.step < other.step {
        is_half_in_order(actions, stream, one, other)
    } else {
        is_half_in_order(actions, stream, other, one)
    }
}

/// The same of two reads in this order.
fn is_half_in_order(actions: &[Action], stream: Step, one: Look, other: Look) -> bool
    requires order { one.step ≤ other.step }
    requires other_in { other.step < length actions.now }
    ensures { result ≡ is_half_in_order actions.now stream one.word other.word one.step other.step }
{
    !were_at_once(actions, one, other) || computes_from_both(actions, stream, one.step, other.step)
}

/// Whether the two words held, at one moment between the two reads, what was read.
fn were_at_once(actions: &[Action], one: Look, other: Look) -> bool
    requires order { one.step ≤ other.step }
    requires other_in { other.step < length actions.now }
    ensures { result ≡ were_at_once actions.now one.word other.word one.step other.step }
{
    let later = &actions[one.step..actions.len()];
    let seen = Held {
        one: value_before(later, one.word),
        other: value_before(&actions[other.step..actions.len()], other.word),
    };
    let first = Held {
        one: seen.one,
        other: value_before(later, other.word),
    };
    are_at_once(
        &actions[one.step..other.step],
        one.word,
        other.word,
        seen,
        first,
    )
}

/// What two words hold.
#[derive(Clone, Copy)]
struct Held {
    one: u64,
    other: u64,
}

impl Held {
    /// Whether these are the same values.
    fn is(self, seen: Held) -> bool
        ensures { result ≡ (self.one == seen.one && self.other == seen.other) }
    {
        self.one == seen.one && self.other == seen.other
    }
}

/// Whether two words that hold the values `first` before these steps hold the values `seen` at one moment before, between
/// or after them.
fn are_at_once(actions: &[Action], one: u64, other: u64, seen: Held, first: Held) -> bool
    ensures { result ≡ are_at_once one other seen.one seen.other first.one first.other actions.now }
{
    let mut held = first;
    for action in actions {
        if held.is(seen) {
            return true;
        }
        held = Held {
            one: value_past(one, held.one, &action.access),
            other: value_past(other, held.other, &action.access),
        };
    }
    held.is(seen)
}

/// The value of a word before these steps, by the first of them that met it; 0 where none did.
fn value_before(actions: &[Action], word: u64) -> u64
    ensures { result ≡ value_before word actions.now }
{
    for action in actions {
        if let Some(access) = action.access
            && access.address == word
        {
            return access.before;
        }
    }
    0
}

/// The value of a word after an access, if it was this before.
fn value_past(word: u64, value: u64, access: &Option<Access>) -> u64
    ensures { result ≡ value_past word value access.now }
{
    match access {
        Some(access) if access.address == word => access.after,
        _ => value,
    }
}

/// Whether an operation of a stream has operands that were computed from what it read in step `one`, and such as were
/// from what it read in step `other`, which is later.
fn computes_from_both(actions: &[Action], stream: Step, one: usize, other: usize) -> bool
    requires order { one ≤ other }
    requires other_in { other < length actions.now }
    ensures { result ≡ computes_from_both actions.now stream one other }
{
    let of_one = Marks::before(actions, stream, one, other + 1);
    let of_other = Marks::before(actions, stream, other, other + 1);
    mixes(&actions[other + 1..actions.len()], stream, of_one, of_other)
}

/// Whether a step of a stream among these has an operation with operands of both marks, from these on. None has where
/// nothing has one of them.
fn mixes(actions: &[Action], stream: Step, one: Marks, other: Marks) -> bool
    ensures { result ≡ mixes stream one other actions.now }
{
    let mut of_one = one;
    let mut of_other = other;
    for action in actions {
        if !(of_one.are_any() && of_other.are_any()) {
            return false;
        }
        if action.is_by(stream) && deed_mixes(&action.deed, &of_one, &of_other) {
            return true;
        }
        of_one = of_one.past(stream, action);
        of_other = of_other.past(stream, action);
    }
    false
}

/// Whether the operands of an instruction's arithmetic operation have a mark of each of two kinds.
fn deed_mixes(deed: &Deed, one: &Marks, other: &Marks) -> bool
    ensures { result ≡ deed_mixes deed.now one.now other.now }
{
    match deed {
        Deed::Instruction(Insn::Normal { a, .. }) => one.of_arithmetic(a) && other.of_arithmetic(a),
        Deed::Instruction(Insn::Wide { .. }) | Deed::Nothing | Deed::Trap => false,
    }
}
