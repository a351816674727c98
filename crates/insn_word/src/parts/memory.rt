//! The memory part of a normal word, to and from its 21 digits.

ghost use Rattle.std.specs.Prelude.{◌≡◌, ◌<◌, ◌^◌, ◌↔◌, IsTrue, IfSome};
ghost use Rattle.insn_word.specs.Fields.{number_of_fields, AreInRange};
ghost use Rattle.insn_word.specs.Words.{memory_fields, used_memory, memory_destination};
ghost use Rattle.insn_word.specs.ShortInsns.{reference_operation, reference_part};
ghost use Rattle.insn_word.specs.Operations.{memory_number};
ghost use Rattle.insn_word.specs.Parts.{IsMemoryPart};
ghost use Rattle.insn_word.specs.declared.insn.MPart.{MPart};

use super::REGISTER_WIDTH;
use crate::fields::{digits_6, field, signed_6, small_field, with_field};
use crate::insn::MPart;
use crate::operations::{Access, MemoryOp};
use crate::short_insns::{ReferenceOp, ReferencePart};

/// Bits 18 to 20: the operation.
const OPERATION_PLACE: u32 = 18;

const OPERATION_WIDTH: u32 = 3;
/// Bits 16 and 17: the access.
const ACCESS_PLACE: u32 = 16;

const ACCESS_WIDTH: u32 = 2;
/// Bits 11 to 15: the register that is loaded, stored or added.
const RD_PLACE: u32 = 11;
/// Bits 6 to 10: the register that holds the pointer.
const BASE_PLACE: u32 = 6;
/// Bits 0 to 5: the displacement.
const DISPLACEMENT_WIDTH: u32 = 6;

impl MPart {
    /// The part that 21 digits spell.
    pub(crate) fn from_bits(bits: u64) -> Option<MPart>
        requires { bits < 2 ^ 21 }
        ensures { (m : MPart) → (result ≡ Some m) ↔ IsMemoryPart bits m }
    {
        if bits == 0 {
            return Some(MPart::NOP);
        }
        let part = MPart::read(bits)?;
        if part.is_bare() { Some(part) } else { None }
    }

    /// The part whose fields the digits are, also where a field that its operation does not use is not zero.
    fn read(bits: u64) -> Option<MPart>
        requires { bits < 2 ^ 21 }
        ensures in_range { IfSome result (λ m. AreInRange (memory_fields m)) }
        ensures number { IfSome result (λ m. number_of_fields (memory_fields m) ≡ bits) }
        ensures only { (m : MPart) → AreInRange (memory_fields m) → number_of_fields (memory_fields m) ≡ bits
            → result ≡ Some m }
    {
        Some(MPart {
            op: MemoryOp::from_number(field(bits, OPERATION_PLACE, OPERATION_WIDTH))?,
            acc: Access::from_number(field(bits, ACCESS_PLACE, ACCESS_WIDTH))?,
            rd: small_field(bits, RD_PLACE, REGISTER_WIDTH),
            base: small_field(bits, BASE_PLACE, REGISTER_WIDTH),
            disp: signed_6(small_field(bits, 0, DISPLACEMENT_WIDTH)),
        })
    }

    /// The 21 digits of the part.
    pub(crate) fn bits(&self) -> u64
        ensures { AreInRange (memory_fields self.now) → result ≡ number_of_fields (memory_fields self.now) }
    {
        let bits = with_field(self.op.number(), ACCESS_WIDTH, self.acc.number());
        let bits = with_field(bits, REGISTER_WIDTH, u64::from(self.rd));
        let bits = with_field(bits, REGISTER_WIDTH, u64::from(self.base));
        with_field(bits, DISPLACEMENT_WIDTH, digits_6(self.disp))
    }

    /// Whether each field that the operation does not use is zero.
    fn is_bare(&self) -> bool
        ensures { IsTrue result ↔ (used_memory self.now.op self.now ≡ self.now) }
    {
        match self.op {
            MemoryOp::Nop => *self == MPart::NOP,
            MemoryOp::Load | MemoryOp::Store | MemoryOp::FetchAdd => true,
            MemoryOp::TagGet | MemoryOp::TagSet | MemoryOp::Purge => self.acc
                == Access::FromPointer,
        }
    }

    /// The register that the part writes, 0 to 31 in a valid part; r0, whose writes are discarded, where it writes
    /// none ("What each operation does", docs/MACHINE.md).
    pub fn destination(&self) -> u8
        ensures { result ≡ memory_destination self.now.op self.now.rd }
    {
        match self.op {
            MemoryOp::Load | MemoryOp::FetchAdd | MemoryOp::TagGet => self.rd,
            MemoryOp::Nop | MemoryOp::Store | MemoryOp::TagSet | MemoryOp::Purge => 0,
        }
    }
}

impl ReferencePart {
    /// The part that 21 digits spell, where it asks the memory for an operation of Profile 1; None for all others.
    #[inline(always)]
    pub(crate) fn from_bits(bits: u64) -> Option<ReferencePart>
        requires { bits < 2 ^ 21 }
        ensures { IfSome result (λ m. IsMemoryPart bits (reference_part m)) }
    {
        let part = ReferencePart::read(bits)?;
        if part.is_bare() { Some(part) } else { None }
    }

    /// The part whose fields the digits are, also where TAGGET or TAGSET has an access.
    #[inline(always)]
    fn read(bits: u64) -> Option<ReferencePart>
        requires { bits < 2 ^ 21 }
        ensures in_range { IfSome result (λ m. AreInRange (memory_fields (reference_part m))) }
        ensures number { IfSome result (λ m. number_of_fields (memory_fields (reference_part m)) ≡ bits) }
    {
        Some(ReferencePart {
            op: ReferenceOp::from_number(field(bits, OPERATION_PLACE, OPERATION_WIDTH))?,
            acc: Access::from_number(field(bits, ACCESS_PLACE, ACCESS_WIDTH))?,
            rd: small_field(bits, RD_PLACE, REGISTER_WIDTH),
            base: small_field(bits, BASE_PLACE, REGISTER_WIDTH),
            disp: signed_6(small_field(bits, 0, DISPLACEMENT_WIDTH)),
        })
    }

    /// The register that the part writes, 0 to 31 in a valid part; r0, whose writes are discarded, where it writes
    /// none ("What each operation does", docs/MACHINE.md).
    #[inline(always)]
    pub fn destination(&self) -> u8
        ensures { result ≡ memory_destination (reference_operation self.now.op) self.now.rd }
    {
        match self.op {
            ReferenceOp::Load | ReferenceOp::FetchAdd | ReferenceOp::TagGet => self.rd,
            ReferenceOp::Store | ReferenceOp::TagSet => 0,
        }
    }

    /// Whether TAGGET and TAGSET have no access.
    #[inline(always)]
    fn is_bare(&self) -> bool
        ensures { IsTrue result
            → used_memory (reference_operation self.now.op) (reference_part self.now) ≡ reference_part self.now }
    {
        match self.op {
            ReferenceOp::Load | ReferenceOp::Store | ReferenceOp::FetchAdd => true,
            ReferenceOp::TagGet | ReferenceOp::TagSet => self.acc == Access::FromPointer,
        }
    }
}

impl ReferenceOp {
    /// The operation with this number; None where there is none of Profile 1 that asks the memory.
    #[inline(always)]
    fn from_number(number: u64) -> Option<ReferenceOp>
        ensures { IfSome result (λ op. memory_number (reference_operation op) ≡ number) }
    {
        match number {
            1 => Some(ReferenceOp::Load),
            2 => Some(ReferenceOp::Store),
            3 => Some(ReferenceOp::FetchAdd),
            4 => Some(ReferenceOp::TagGet),
            5 => Some(ReferenceOp::TagSet),
            _ => None,
        }
    }
}
