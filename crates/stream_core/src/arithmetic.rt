//! The arithmetic operations and the codes that they make.

ghost use Rattle.std.specs.Prelude.{◌≡◌, ◌<◌, ◌≤◌, ◌^◌, ◌<ℤ◌, ◌≤ℤ◌, ◌↔◌, pos, neg_ℤ, IsTrue};
ghost use Rattle.stream_core.specs.Arithmetic.{signed, result_of, carries, overflows, code_of, IsQuotientRoundedDown};
ghost use Rattle.stream_core.specs.Arithmetic.{shift_left as shifted_left, shift_right as shifted_right};
ghost use Rattle.stream_core.specs.Arithmetic.{shift_right_signed as shifted_right_signed};
ghost use Rattle.stream_core.specs.Conditions.{condition_holds};

use crate::conditions::Code;
use insn_word::{ArithmeticOp, Condition};

/// Bits 59 to 63 of a pointer: its control and what it disables, which PTR replaces.
const RIGHTS_PLACE: u32 = 59;

const RIGHTS_WIDTH: u32 = 5;

/// The result of the operation on `a` and `b`, modulo 2^64, and the condition code of it
/// ("Arithmetic operations", docs/MACHINE.md). NOP answers 0.
pub fn alu(op: ArithmeticOp, a: u64, b: u64) -> (u64, Code)
    ensures { result ≡ (result_of op a b, code_of op a b) }
{
    let value = value_of(op, a, b);
    (value, code_of(op, a, b, value))
}

/// The condition code of the operation, whose result is `value`.
pub(crate) fn code_of(op: ArithmeticOp, a: u64, b: u64, value: u64) -> Code
    ensures { value ≡ result_of op a b → result ≡ code_of op a b }
{
    Code {
        zero: value == 0,
        negative: value >= 1 << 63,
        carry: carry_of(op, a, b),
        overflow: overflow_of(op, a, b),
    }
}

/// After a subtraction LT holds exactly where `a` is below `b` as signed numbers, and LTU as unsigned ones.
pub fn less_after_subtraction(a: u64, b: u64)
    ensures signed { IsTrue (condition_holds Condition.Less (code_of ArithmeticOp.Sub a b)) ↔ (signed a <ℤ signed b) }
    ensures unsigned { IsTrue (condition_holds Condition.LessUnsigned (code_of ArithmeticOp.Sub a b)) ↔ (a < b) }
{}

/// SAR divides: its result as a signed number is `a` as one over 2^`b`, rounded down; from `b` = 64 on, where only
/// sign bits are left, 0 where `a` is not negative and -1 where it is.
pub fn signed_shift_divides(a: u64, b: u64)
    ensures quotient { b < 64
        → IsQuotientRoundedDown (signed a) (2 ^ b) (signed (result_of ArithmeticOp.ShiftRightSigned a b)) }
    ensures zero { 64 ≤ b → pos 0 ≤ℤ signed a → signed (result_of ArithmeticOp.ShiftRightSigned a b) ≡ pos 0 }
    ensures minus_one { 64 ≤ b → signed a <ℤ pos 0
        → signed (result_of ArithmeticOp.ShiftRightSigned a b) ≡ neg_ℤ (pos 1) }
{}

pub(crate) fn value_of(op: ArithmeticOp, a: u64, b: u64) -> u64
    ensures { result ≡ result_of op a b }
{
    match op {
        ArithmeticOp::Nop => 0,
        ArithmeticOp::Add => a.wrapping_add(b),
        ArithmeticOp::Sub => a.wrapping_sub(b),
        ArithmeticOp::Mul => a.wrapping_mul(b),
        ArithmeticOp::And => a & b,
        ArithmeticOp::Or => a | b,
        ArithmeticOp::Xor => a ^ b,
        ArithmeticOp::AndNot => a & !b,
        ArithmeticOp::ShiftLeft => shift_left(a, b),
        ArithmeticOp::ShiftRight => shift_right(a, b),
        ArithmeticOp::ShiftRightSigned => shift_right_signed(a, b),
        ArithmeticOp::Tally => u64::from(a.count_ones()),
        ArithmeticOp::LessSigned => u64::from(a.cast_signed() < b.cast_signed()),
        ArithmeticOp::LessUnsigned => u64::from(a < b),
        ArithmeticOp::Pointer => {
            b % (1 << RIGHTS_WIDTH) * (1 << RIGHTS_PLACE) + a % (1 << RIGHTS_PLACE)
        }
    }
}

fn carry_of(op: ArithmeticOp, a: u64, b: u64) -> bool
    ensures { result ≡ carries op a b }
{
    match op {
        ArithmeticOp::Add => a.overflowing_add(b).1,
        ArithmeticOp::Sub => a < b,
        ArithmeticOp::Mul => a.overflowing_mul(b).1,
        ArithmeticOp::Nop
        | ArithmeticOp::And
        | ArithmeticOp::Or
        | ArithmeticOp::Xor
        | ArithmeticOp::AndNot
        | ArithmeticOp::ShiftLeft
        | ArithmeticOp::ShiftRight
        | ArithmeticOp::ShiftRightSigned
        | ArithmeticOp::Tally
        | ArithmeticOp::LessSigned
        | ArithmeticOp::LessUnsigned
        | ArithmeticOp::Pointer => false,
    }
}

fn overflow_of(op: ArithmeticOp, a: u64, b: u64) -> bool
    ensures { result ≡ overflows op a b }
{
    let a = a.cast_signed();
    let b = b.cast_signed();
    match op {
        ArithmeticOp::Add => a.overflowing_add(b).1,
        ArithmeticOp::Sub => a.overflowing_sub(b).1,
        ArithmeticOp::Mul => a.overflowing_mul(b).1,
        ArithmeticOp::Nop
        | ArithmeticOp::And
        | ArithmeticOp::Or
        | ArithmeticOp::Xor
        | ArithmeticOp::AndNot
        | ArithmeticOp::ShiftLeft
        | ArithmeticOp::ShiftRight
        | ArithmeticOp::ShiftRightSigned
        | ArithmeticOp::Tally
        | ArithmeticOp::LessSigned
        | ArithmeticOp::LessUnsigned
        | ArithmeticOp::Pointer => false,
    }
}

fn shift_left(a: u64, b: u64) -> u64
    ensures { result ≡ shifted_left a b }
{
    if b < 64 { a << b } else { 0 }
}

fn shift_right(a: u64, b: u64) -> u64
    ensures { result ≡ shifted_right a b }
{
    if b < 64 { a >> b } else { 0 }
}

fn shift_right_signed(a: u64, b: u64) -> u64
    ensures { result ≡ shifted_right_signed a b }
{
    if a < 1 << 63 {
        shift_right(a, b)
    } else {
        !shift_right(!a, b)
    }
}
