//! The control part of a normal word, to and from its 18 digits.

ghost use Rattle.std.specs.Prelude.{◌≡◌, ◌+◌, ◌*◌, ◌/◌, ◌%◌, ◌<◌, ◌^◌, ◌↔◌, IfSome};
ghost use Rattle.insn_word.specs.Operations.{condition_number};
ghost use Rattle.insn_word.specs.Fields.{number_of_fields, AreInRange};
ghost use Rattle.insn_word.specs.Words.{argument_fields, control_fields, used_control, control_destination};
ghost use Rattle.insn_word.specs.ShortInsns.{short_control_part};
ghost use Rattle.insn_word.specs.Parts.{IsControlPart, HasArguments};
ghost use Rattle.insn_word.specs.declared.operations.Condition.{Condition};
ghost use Rattle.insn_word.specs.declared.insn.CPart.{CPart};

use super::{REGISTER_WIDTH, TARGET_WIDTH};
use crate::fields::{digits_8, field, signed_8, small_field, with_field};
use crate::insn::CPart;
use crate::operations::{Condition, ControlOp};
use crate::short_insns::ShortControl;

/// Bits 14 to 17: the operation.
const OPERATION_PLACE: u32 = 14;

const OPERATION_WIDTH: u32 = 4;
/// Bits 10 to 13: the condition of JUMP and SKIP.
const CONDITION_PLACE: u32 = 10;

const CONDITION_WIDTH: u32 = 4;
/// Bits 8 and 9: which code the condition is asked of.
const CODE_PLACE: u32 = 8;

const CODE_WIDTH: u32 = 2;
/// Bits 5 to 7: the target register of JUMP.
const JUMP_TARGET_PLACE: u32 = 5;
/// Bits 0 to 7: how many words SKIP goes on.
const DISTANCE_WIDTH: u32 = 8;
/// Bits 11 to 13: the target register of the other operations, or the mask of MASK.
const TARGET_PLACE: u32 = 11;
/// Bits 8 to 10: the target register that CALL writes.
const RETURN_TARGET_PLACE: u32 = 8;
/// Bits 6 to 10: the register that is written; of TSET and CREATE the one that is read.
const REGISTER_PLACE: u32 = 6;
/// Bits 1 to 5: the register that says how many streams RESERVE asks for.
const REQUEST_PLACE: u32 = 1;

impl CPart {
    /// The part that 18 digits spell.
    pub(crate) fn from_bits(bits: u64) -> Option<CPart>
        requires { bits < 2 ^ 18 }
        ensures { (c : CPart) → (result ≡ Some c) ↔ IsControlPart bits c }
    {
        if bits == 0 {
            return Some(CPart::NOP);
        }
        let part = CPart::with_arguments(
            ControlOp::from_number(field(bits, OPERATION_PLACE, OPERATION_WIDTH))?,
            bits,
        )?;
        // digits that the operation does not use are not zero where these differ
        if part.bits() == bits {
            Some(part)
        } else {
            None
        }
    }

    /// The operation with the arguments that the digits give it; None where they name no condition.
    fn with_arguments(op: ControlOp, bits: u64) -> Option<CPart>
        ensures asked { IfSome result (λ c. c.op ≡ op) }
        ensures kind { IfSome result (λ c. AreInRange (control_fields c) × (used_control c.op c ≡ c)) }
        ensures only { (c : CPart) → c.op ≡ op → HasArguments bits c → result ≡ Some c }
    {
        let none = CPart { op, ..CPart::NOP };
        let t = small_field(bits, TARGET_PLACE, TARGET_WIDTH);
        // of TSET and CREATE it is ra
        let rd = small_field(bits, REGISTER_PLACE, REGISTER_WIDTH);
        let of_t = CPart { t, ..none };
        let part = match op {
            ControlOp::Nop | ControlOp::Quit | ControlOp::QuitKeep => none,
            ControlOp::Jump => CPart {
                t: small_field(bits, JUMP_TARGET_PLACE, TARGET_WIDTH),
                ..none.with_condition(bits)?
            },
            ControlOp::Skip => CPart {
                n: signed_8(small_field(bits, 0, DISTANCE_WIDTH)),
                ..none.with_condition(bits)?
            },
            ControlOp::Call => CPart {
                u: small_field(bits, RETURN_TARGET_PLACE, TARGET_WIDTH),
                ..of_t
            },
            ControlOp::Exchange => of_t,
            ControlOp::TargetSet | ControlOp::Create => CPart { ra: rd, ..of_t },
            ControlOp::TargetGet => CPart { rd, ..of_t },
            ControlOp::TrapGet => CPart { rd, ..none },
            ControlOp::Reserve => CPart {
                rd,
                ra: small_field(bits, REQUEST_PLACE, REGISTER_WIDTH),
                ..none
            },
            ControlOp::Mask => CPart {
                n: t.cast_signed(),
                ..none
            },
        };
        Some(part)
    }

    /// The part with the condition and the place of the code that the digits name; None where there is no such
    /// condition.
    fn with_condition(self, bits: u64) -> Option<CPart>
        ensures named { IfSome result (λ c. condition_number c.cond ≡ bits / 2 ^ 10 % 2 ^ 4) }
        ensures others { IfSome result (λ c. c ≡ record self { cond = c.cond; code = bits / 2 ^ 8 % 2 ^ 2 }) }
        ensures only { (condition : Condition) → condition_number condition ≡ bits / 2 ^ 10 % 2 ^ 4
            → result ≡ Some (record self { cond = condition; code = bits / 2 ^ 8 % 2 ^ 2 }) }
    {
        Some(CPart {
            cond: Condition::from_number(field(bits, CONDITION_PLACE, CONDITION_WIDTH))?,
            code: small_field(bits, CODE_PLACE, CODE_WIDTH),
            ..self
        })
    }

    /// The 18 digits of the part.
    pub(crate) fn bits(&self) -> u64
        ensures { AreInRange (control_fields self.now) → result ≡ number_of_fields (control_fields self.now) }
    {
        with_field(self.op.number(), OPERATION_PLACE, self.argument_bits())
    }

    /// The 14 digits of the arguments.
    fn argument_bits(&self) -> u64
        ensures { AreInRange (argument_fields self.now.op self.now)
            → result ≡ number_of_fields (argument_fields self.now.op self.now) }
    {
        let t = u64::from(self.t);
        let rd = u64::from(self.rd);
        let ra = u64::from(self.ra);
        match self.op {
            ControlOp::Nop | ControlOp::Quit | ControlOp::QuitKeep => 0,
            ControlOp::Jump => with_field(
                with_field(self.condition_bits(), TARGET_WIDTH, t),
                JUMP_TARGET_PLACE,
                0,
            ),
            ControlOp::Skip => with_field(self.condition_bits(), DISTANCE_WIDTH, digits_8(self.n)),
            ControlOp::Call => with_field(
                with_field(t, TARGET_WIDTH, u64::from(self.u)),
                RETURN_TARGET_PLACE,
                0,
            ),
            ControlOp::Exchange => with_field(t, TARGET_PLACE, 0),
            ControlOp::TargetSet | ControlOp::Create => with_field(
                with_field(t, REGISTER_WIDTH, ra),
                REGISTER_PLACE,
                0,
            ),
            ControlOp::TargetGet => with_field(
                with_field(t, REGISTER_WIDTH, rd),
                REGISTER_PLACE,
                0,
            ),
            ControlOp::TrapGet => with_field(rd, REGISTER_PLACE, 0),
            ControlOp::Reserve => with_field(with_field(rd, REGISTER_WIDTH, ra), REQUEST_PLACE, 0),
            ControlOp::Mask => with_field(u64::from(self.n.unsigned_abs()), TARGET_PLACE, 0),
        }
    }

    /// The six digits of the condition and of the code that it is asked of.
    fn condition_bits(&self) -> u64
        ensures { self.now.code < 4 → result ≡ condition_number self.now.cond * 4 + self.now.code }
    {
        with_field(self.cond.number(), CODE_WIDTH, u64::from(self.code))
    }

    /// The register that the part writes, 0 to 31 in a valid part; r0, whose writes are discarded, where it writes
    /// none ("What each operation does", docs/MACHINE.md).
    pub fn destination(&self) -> u8
        ensures { result ≡ control_destination self.now.op self.now.rd }
    {
        match self.op {
            ControlOp::TargetGet | ControlOp::TrapGet | ControlOp::Reserve => self.rd,
            ControlOp::Nop
            | ControlOp::Jump
            | ControlOp::Skip
            | ControlOp::Call
            | ControlOp::Exchange
            | ControlOp::TargetSet
            | ControlOp::Create
            | ControlOp::Quit
            | ControlOp::QuitKeep
            | ControlOp::Mask => 0,
        }
    }
}

impl ShortControl {
    /// The NOP or SKIP that 18 digits spell; None for all other operations.
    #[inline(always)]
    pub(crate) fn from_bits(bits: u64) -> Option<ShortControl>
        requires { bits < 2 ^ 18 }
        ensures { IfSome result (λ c. IsControlPart bits (short_control_part c)) }
    {
        if bits == 0 {
            return Some(ShortControl::Nop);
        }
        if field(bits, OPERATION_PLACE, OPERATION_WIDTH) != ControlOp::Skip.number() {
            return None;
        }
        Some(ShortControl::Skip {
            cond: Condition::from_number(field(bits, CONDITION_PLACE, CONDITION_WIDTH))?,
            code: small_field(bits, CODE_PLACE, CODE_WIDTH),
            n: signed_8(small_field(bits, 0, DISTANCE_WIDTH)),
        })
    }
}
