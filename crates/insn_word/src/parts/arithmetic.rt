//! The arithmetic part of a normal word, to and from its 21 digits.

ghost use Rattle.std.specs.Prelude.{◌≡◌, ◌<◌, ◌^◌, ◌↔◌, IsTrue, IfSome};
ghost use Rattle.insn_word.specs.Fields.{number_of_fields, AreInRange};
ghost use Rattle.insn_word.specs.Words.{arithmetic_fields, used_arithmetic, arithmetic_destination};
ghost use Rattle.insn_word.specs.Parts.{IsArithmeticPart};
ghost use Rattle.insn_word.specs.declared.insn.APart.{APart};

use super::REGISTER_WIDTH;
use crate::fields::{field, small_field, with_field};
use crate::insn::APart;
use crate::operations::ArithmeticOp;

/// Bits 17 to 20: the operation.
const OPERATION_PLACE: u32 = 17;

const OPERATION_WIDTH: u32 = 4;
/// Bit 16: whether a condition code is made.
const TEST_PLACE: u32 = 16;
/// Bit 15: whether the second operand is a number.
const IMMEDIATE_PLACE: u32 = 15;
/// Bits 10 to 14: the register of the result.
const RD_PLACE: u32 = 10;
/// Bits 5 to 9: the register of the first operand. The second operand is bits 0 to 4.
const RA_PLACE: u32 = 5;

impl APart {
    /// The part that 21 digits spell.
    pub(crate) fn from_bits(bits: u64) -> Option<APart>
        requires { bits < 2 ^ 21 }
        ensures { (a : APart) → (result ≡ Some a) ↔ IsArithmeticPart bits a }
    {
        if bits == 0 {
            return Some(APart::NOP);
        }
        APart::read(bits)
    }

    /// The same, with no test for NOP before the others.
    #[inline(always)]
    pub(crate) fn read(bits: u64) -> Option<APart>
        requires { bits < 2 ^ 21 }
        ensures { (a : APart) → (result ≡ Some a) ↔ IsArithmeticPart bits a }
    {
        let part = APart::with_fields(bits)?;
        if part.is_bare() { Some(part) } else { None }
    }

    /// The part whose fields the digits are, also where a field that its operation does not use is not zero.
    #[inline(always)]
    fn with_fields(bits: u64) -> Option<APart>
        requires { bits < 2 ^ 21 }
        ensures in_range { IfSome result (λ a. AreInRange (arithmetic_fields a)) }
        ensures number { IfSome result (λ a. number_of_fields (arithmetic_fields a) ≡ bits) }
        ensures only { (a : APart) → AreInRange (arithmetic_fields a) → number_of_fields (arithmetic_fields a) ≡ bits
            → result ≡ Some a }
    {
        Some(APart {
            op: ArithmeticOp::from_number(field(bits, OPERATION_PLACE, OPERATION_WIDTH))?,
            test: field(bits, TEST_PLACE, 1) == 1,
            imm: field(bits, IMMEDIATE_PLACE, 1) == 1,
            rd: small_field(bits, RD_PLACE, REGISTER_WIDTH),
            ra: small_field(bits, RA_PLACE, REGISTER_WIDTH),
            rb: small_field(bits, 0, REGISTER_WIDTH),
        })
    }

    /// The 21 digits of the part.
    pub(crate) fn bits(&self) -> u64
        ensures { AreInRange (arithmetic_fields self.now) → result ≡ number_of_fields (arithmetic_fields self.now) }
    {
        let bits = with_field(self.op.number(), 1, u64::from(self.test));
        let bits = with_field(bits, 1, u64::from(self.imm));
        let bits = with_field(bits, REGISTER_WIDTH, u64::from(self.rd));
        let bits = with_field(bits, REGISTER_WIDTH, u64::from(self.ra));
        with_field(bits, REGISTER_WIDTH, u64::from(self.rb))
    }

    /// Whether each field that the operation does not use is zero.
    fn is_bare(&self) -> bool
        ensures { IsTrue result ↔ (used_arithmetic self.now.op self.now ≡ self.now) }
    {
        match self.op {
            ArithmeticOp::Nop => *self == APart::NOP,
            ArithmeticOp::Tally => !self.imm && self.rb == 0,
            ArithmeticOp::Add
            | ArithmeticOp::Sub
            | ArithmeticOp::Mul
            | ArithmeticOp::And
            | ArithmeticOp::Or
            | ArithmeticOp::Xor
            | ArithmeticOp::AndNot
            | ArithmeticOp::ShiftLeft
            | ArithmeticOp::ShiftRight
            | ArithmeticOp::ShiftRightSigned
            | ArithmeticOp::LessSigned
            | ArithmeticOp::LessUnsigned
            | ArithmeticOp::Pointer => true,
        }
    }

    /// The register that the part writes, 0 to 31 in a valid part; r0, whose writes are discarded, where it writes
    /// none ("What each operation does", docs/MACHINE.md).
    pub fn destination(&self) -> u8
        ensures { result ≡ arithmetic_destination self.now.op self.now.rd }
    {
        match self.op {
            ArithmeticOp::Nop => 0,
            ArithmeticOp::Add
            | ArithmeticOp::Sub
            | ArithmeticOp::Mul
            | ArithmeticOp::And
            | ArithmeticOp::Or
            | ArithmeticOp::Xor
            | ArithmeticOp::AndNot
            | ArithmeticOp::ShiftLeft
            | ArithmeticOp::ShiftRight
            | ArithmeticOp::ShiftRightSigned
            | ArithmeticOp::Tally
            | ArithmeticOp::LessSigned
            | ArithmeticOp::LessUnsigned
            | ArithmeticOp::Pointer => self.rd,
        }
    }
}
