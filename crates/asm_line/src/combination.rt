//! The word that operations make: one alone, or two or three of different parts in their order.

ghost use Rattle.std.specs.Prelude.{◌≡◌, ℕ, List};
ghost use Rattle.asm_line.specs.Labels.{places_of};
ghost use Rattle.asm_line.specs.OperandsSeen.{AreOperands};
ghost use Rattle.asm_line.specs.Instructions.{nop_word, single, double, triple, memory_arithmetic, full_word};
ghost use Rattle.asm_line.specs.Instructions.{memory_arithmetic_word, memory_control_word, arithmetic_control_word};
ghost use Rattle.asm_line.specs.Instructions.{unless_two, memory_and, arithmetic_and, memory_and_two, both_and};
ghost use Rattle.insn_word.specs.Reading.{are_apart};

use crate::arguments::Arguments;
use crate::control::control_part;
use crate::fault::{Fault, both};
use crate::labels::Labels;
use crate::operation::Operation;
use crate::parts::{arithmetic_part, memory_part, wide_word};
use insn_word::{APart, CPart, Insn, MPart};

/// One operation, at the place `here`.
#[tactic(auto, unfolding(crate::specs::Instructions::single))]
pub(crate) fn single(
    labels: &Labels,
    here: usize,
    operation: Operation,
    operands: &Arguments,
) -> Result<Insn, Fault>
    ensures { (os : List (List ℕ)) → AreOperands operands.now os
        → result ≡ single (places_of labels.now) here operation os }
{
    match operation {
        Operation::Nop => nop(operands),
        Operation::Wide(op) => wide_word(labels, op, operands),
        Operation::Memory(op, acc) => {
            let m = memory_part(op, acc, operands)?;
            Ok(normal(m, APart::NOP, CPart::NOP))
        }
        Operation::Arithmetic(op, test) => {
            let a = arithmetic_part(op, test, operands)?;
            Ok(normal(MPart::NOP, a, CPart::NOP))
        }
        Operation::Control(op) => {
            let c = control_part(labels, here, op, operands)?;
            Ok(normal(MPart::NOP, APart::NOP, c))
        }
    }
}

/// NOP, which has no operands.
fn nop(operands: &Arguments) -> Result<Insn, Fault>
    ensures { (os : List (List ℕ)) → AreOperands operands.now os → result ≡ nop_word os }
{
    let Arguments::Zero = *operands else {
        return Err(Fault::Operand);
    };
    Ok(normal(MPart::NOP, APart::NOP, CPart::NOP))
}

/// The normal word of three parts, with no lookahead.
fn normal(m: MPart, a: APart, c: CPart) -> Insn
    ensures { result ≡ Insn.Normal 0 m a c }
{
    Insn::Normal { look: 0, m, a, c }
}

/// Two operations.
#[tactic(auto, unfolding(crate::specs::Instructions::double))]
pub(crate) fn double(
    labels: &Labels,
    here: usize,
    first: Operation,
    second: Operation,
    xs: &Arguments,
    ys: &Arguments,
) -> Result<Insn, Fault>
    ensures { (os ps : List (List ℕ)) → AreOperands xs.now os → AreOperands ys.now ps
        → result ≡ double (places_of labels.now) here first second os ps }
{
    match first {
        Operation::Memory(o, acc) => {
            memory_and(labels, here, memory_part(o, acc, xs), second, ys)
        }
        Operation::Arithmetic(o, test) => {
            arithmetic_and(labels, here, arithmetic_part(o, test, xs), second, ys)
        }
        Operation::Nop | Operation::Wide(_) | Operation::Control(_) => Err(Fault::Operand),
    }
}

/// A memory operation and the one after it, an arithmetic or a control one.
fn memory_and(
    labels: &Labels,
    here: usize,
    m: Result<MPart, Fault>,
    second: Operation,
    ys: &Arguments,
) -> Result<Insn, Fault>
    ensures { (ps : List (List ℕ)) → AreOperands ys.now ps
        → result ≡ memory_and (places_of labels.now) here m second ps }
{
    match second {
        Operation::Arithmetic(p, test) => memory_arithmetic_word(m, arithmetic_part(p, test, ys)),
        Operation::Control(p) => memory_control_word(m, control_part(labels, here, p, ys)),
        Operation::Nop | Operation::Wide(_) | Operation::Memory(_, _) => Err(Fault::Operand),
    }
}

/// An arithmetic operation and the one after it, a control one.
fn arithmetic_and(
    labels: &Labels,
    here: usize,
    a: Result<APart, Fault>,
    second: Operation,
    ys: &Arguments,
) -> Result<Insn, Fault>
    ensures { (ps : List (List ℕ)) → AreOperands ys.now ps
        → result ≡ arithmetic_and (places_of labels.now) here a second ps }
{
    match second {
        Operation::Control(p) => arithmetic_control_word(a, control_part(labels, here, p, ys)),
        Operation::Nop
        | Operation::Wide(_)
        | Operation::Memory(_, _)
        | Operation::Arithmetic(_, _) => Err(Fault::Operand),
    }
}

/// Three operations.
#[tactic(auto, unfolding(crate::specs::Instructions::triple))]
pub(crate) fn triple(
    labels: &Labels,
    here: usize,
    operations: (Operation, Operation, Operation),
    xs: &Arguments,
    ys: &Arguments,
    zs: &Arguments,
) -> Result<Insn, Fault>
    ensures { (os ps qs : List (List ℕ)) → AreOperands xs.now os → AreOperands ys.now ps → AreOperands zs.now qs
        → result ≡ triple (places_of labels.now) here operations.0 operations.1 operations.2 os ps qs }
{
    let (first, second, third) = operations;
    match first {
        Operation::Memory(o, acc) => {
            memory_and_two(
                labels,
                here,
                memory_part(o, acc, xs),
                (second, third),
                ys,
                zs,
            )
        }
        Operation::Nop | Operation::Wide(_) | Operation::Arithmetic(_, _) | Operation::Control(_) =>
            Err(Fault::Operand),
    }
}

/// A memory operation and the two after it, an arithmetic and a control one.
fn memory_and_two(
    labels: &Labels,
    here: usize,
    m: Result<MPart, Fault>,
    operations: (Operation, Operation),
    ys: &Arguments,
    zs: &Arguments,
) -> Result<Insn, Fault>
    ensures { (ps qs : List (List ℕ)) → AreOperands ys.now ps → AreOperands zs.now qs
        → result ≡ memory_and_two (places_of labels.now) here m operations.0 operations.1 ps qs }
{
    let (second, third) = operations;
    match second {
        Operation::Arithmetic(p, test) => {
            both_and(labels, here, m, arithmetic_part(p, test, ys), third, zs)
        }
        Operation::Nop | Operation::Wide(_) | Operation::Memory(_, _) | Operation::Control(_) =>
            Err(Fault::Operand),
    }
}

/// A memory and an arithmetic operation and the one after them, a control one.
fn both_and(
    labels: &Labels,
    here: usize,
    m: Result<MPart, Fault>,
    a: Result<APart, Fault>,
    third: Operation,
    zs: &Arguments,
) -> Result<Insn, Fault>
    ensures { (qs : List (List ℕ)) → AreOperands zs.now qs
        → result ≡ both_and (places_of labels.now) here m a third qs }
{
    match third {
        Operation::Control(q) => full_word(m, a, control_part(labels, here, q, zs)),
        Operation::Nop
        | Operation::Wide(_)
        | Operation::Memory(_, _)
        | Operation::Arithmetic(_, _) => Err(Fault::Operand),
    }
}

/// Both parts, if they write different registers or r0.
fn memory_arithmetic(
    m: Result<MPart, Fault>,
    a: Result<APart, Fault>,
) -> Result<(MPart, APart), Fault>
    ensures { result ≡ memory_arithmetic m a }
{
    let (m, a) = both(m, a)?;
    unless_two(are_apart(m.destination(), a.destination()), (m, a))
}

#[tactic(auto, unfolding(crate::specs::Instructions::memory_arithmetic_word))]
fn memory_arithmetic_word(m: Result<MPart, Fault>, a: Result<APart, Fault>) -> Result<Insn, Fault>
    ensures { result ≡ memory_arithmetic_word m a }
{
    let (m, a) = memory_arithmetic(m, a)?;
    Ok(normal(m, a, CPart::NOP))
}

#[tactic(auto, unfolding(crate::specs::Instructions::memory_control_word))]
fn memory_control_word(m: Result<MPart, Fault>, c: Result<CPart, Fault>) -> Result<Insn, Fault>
    ensures { result ≡ memory_control_word m c }
{
    let (m, c) = both(m, c)?;
    unless_two(
        are_apart(m.destination(), c.destination()),
        normal(m, APart::NOP, c),
    )
}

#[tactic(auto, unfolding(crate::specs::Instructions::arithmetic_control_word))]
fn arithmetic_control_word(a: Result<APart, Fault>, c: Result<CPart, Fault>) -> Result<Insn, Fault>
    ensures { result ≡ arithmetic_control_word a c }
{
    let (a, c) = both(a, c)?;
    unless_two(
        are_apart(a.destination(), c.destination()),
        normal(MPart::NOP, a, c),
    )
}

/// The word of all three parts. Two writers go before a label that is missing, which only the control part can ask
/// for.
#[tactic(auto, unfolding(crate::specs::Instructions::full_word))]
fn full_word(
    m: Result<MPart, Fault>,
    a: Result<APart, Fault>,
    c: Result<CPart, Fault>,
) -> Result<Insn, Fault>
    ensures { result ≡ full_word m a c }
{
    let ((m, a), c) = both(memory_arithmetic(m, a), c)?;
    let last = c.destination();
    let apart = are_apart(m.destination(), last) && are_apart(a.destination(), last);
    unless_two(apart, normal(m, a, c))
}

/// The value, if the registers that are written are apart.
fn unless_two<A: Drop>(apart: bool, value: A) -> Result<A, Fault>
    ensures { result ≡ unless_two apart value }
{
    if apart {
        Ok(value)
    } else {
        Err(Fault::TwoWriters)
    }
}

/// Whether two registers differ or are r0.
fn are_apart(x: u8, y: u8) -> bool
    ensures { result ≡ are_apart x y }
{
    x != y || x == 0
}
