//! Which registers an instruction reads and writes, whether it may trap, and where a SKIP leads.

ghost use Rattle.std.specs.Prelude.{◌≡◌, IsTrue};
ghost use Rattle.stream_core.specs.Effects.{skip_pc};
ghost use Rattle.stream_core.specs.declared.steps.Fetch.TheVariants as fetch;
ghost use Rattle.program_flow.specs.Flow.{IsOneOf, MayTrap};
ghost use Rattle.program_flow.specs.Operands.{memory_source, second_source, wide_source, wide_destination};
ghost use Rattle.program_flow.specs.Operands.{registers_written};

use insn_word::{APart, ControlOp, Insn, MemoryOp, WideOp};

/// The register that a memory operation reads beside its base; r0 where it reads none.
pub(crate) fn memory_source(op: MemoryOp, rd: u8) -> u8
    ensures { result ≡ memory_source op rd }
{
    match op {
        MemoryOp::Store | MemoryOp::FetchAdd | MemoryOp::TagSet | MemoryOp::Purge => rd,
        MemoryOp::Nop | MemoryOp::Load | MemoryOp::TagGet => 0,
    }
}

/// The register of the second operand; r0 where it is a number.
pub(crate) fn second_source(a: &APart) -> u8
    ensures { result ≡ second_source a.now }
{
    if a.imm { 0 } else { a.rb }
}

/// The register that a wide operation reads; r0 where it reads none.
pub(crate) fn wide_source(op: WideOp, reg: u8) -> u8
    ensures { result ≡ wide_source op reg }
{
    match op {
        WideOp::LiteralHigh => reg,
        WideOp::Literal | WideOp::TargetLiteral => 0,
    }
}

/// The register that a wide operation writes; r0 where it writes none.
fn wide_destination(op: WideOp, reg: u8) -> u8
    ensures { result ≡ wide_destination op reg }
{
    match op {
        WideOp::Literal | WideOp::LiteralHigh => reg,
        WideOp::TargetLiteral => 0,
    }
}

/// Whether an instruction reads a register, r0 where an operation reads none.
pub(crate) fn reads(insn: &Insn, register: usize) -> bool {
    match insn {
        Insn::Wide { op, reg, .. } => register == usize::from(wide_source(*op, *reg)),
        Insn::Normal { m, a, c, .. } => {
            register == usize::from(m.base)
                || register == usize::from(memory_source(m.op, m.rd))
                || register == usize::from(a.ra)
                || register == usize::from(second_source(a))
                || register == usize::from(c.ra)
        }
    }
}

/// Whether an instruction that is done writes a register, r0 where an operation writes none.
pub(crate) fn writes(insn: &Insn, register: usize) -> bool
    ensures { IsTrue result → IsOneOf (registers_written insn.now) register }
{
    match insn {
        Insn::Wide { op, reg, .. } => register == usize::from(wide_destination(*op, *reg)),
        Insn::Normal { m, a, c, .. } => {
            register == usize::from(m.destination())
                || register == usize::from(a.destination())
                || register == usize::from(c.destination())
        }
    }
}

/// Whether an instruction may trap: one with a reference, and CREATE.
pub(crate) fn may_trap(insn: &Insn) -> bool
    ensures { MayTrap (fetch.Instruction insn.now) → IsTrue result }
{
    match insn {
        Insn::Wide { .. } => false,
        Insn::Normal { m, c, .. } => m.op != MemoryOp::Nop || c.op == ControlOp::Create,
    }
}

/// The place so many words after the next one, modulo 2^32.
pub fn skipped(place: u32, words: i8) -> u32
    ensures { result ≡ skip_pc place words }
{
    place
        .wrapping_add(1)
        .wrapping_add(i32::from(words).cast_unsigned())
}
