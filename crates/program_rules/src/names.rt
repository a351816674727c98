//! Operations by their names.

ghost use Rattle.std.specs.Prelude.{◌≡◌};
ghost use Rattle.asm_line.specs.Heads.{wide_named, memory_named, arithmetic_named, control_named};
ghost use Rattle.insn_word.specs.declared.profiles.Profile.TheVariants.{Two};
ghost use Rattle.program_rules.specs.Names.{operation_named};

use crate::program_rule::ProgramOperation;
use asm_line::names;
use insn_word::{ArithmeticOp, ControlOp, MemoryOp, WideOp};

impl ProgramOperation {
    /// The operation of a name that source texts have for it ("Operations", docs/WRITING_PROGRAMS.md), without a suffix;
    /// None of another one. NOP, which each part of a normal word may have, is no name of an operation.
    pub fn named(name: &[u8]) -> Option<ProgramOperation>
        ensures { result ≡ operation_named name.now }
    {
        if let Some(wide) = wide_named(name) {
            return Some(ProgramOperation::Wide(wide));
        }
        if let Some(memory) = memory_named(name) {
            return Some(ProgramOperation::Memory(memory));
        }
        if let Some(arithmetic) = arithmetic_named(name) {
            return Some(ProgramOperation::Arithmetic(arithmetic));
        }
        control_named(name).map(ProgramOperation::Control)
    }
}

#[tactic(auto, unfolding(asm_line::specs::Heads::wide_named))]
fn wide_named(name: &[u8]) -> Option<WideOp>
    ensures { result ≡ wide_named name.now }
{
    WideOp::ALL
        .iter()
        .copied()
        .find(|op| name == names::wide(*op).as_bytes())
}

/// A memory operation other than NOP, of either profile.
#[tactic(auto, unfolding(asm_line::specs::Heads::memory_named))]
fn memory_named(name: &[u8]) -> Option<MemoryOp>
    ensures { result ≡ memory_named Two name.now }
{
    MemoryOp::ALL[1..]
        .iter()
        .copied()
        .find(|op| name == names::memory(*op).as_bytes())
}

/// An arithmetic operation other than NOP.
#[tactic(auto, unfolding(asm_line::specs::Heads::arithmetic_named))]
fn arithmetic_named(name: &[u8]) -> Option<ArithmeticOp>
    ensures { result ≡ arithmetic_named name.now }
{
    ArithmeticOp::ALL[1..]
        .iter()
        .copied()
        .find(|op| name == names::arithmetic(*op).as_bytes())
}

/// A control operation other than NOP.
#[tactic(auto, unfolding(asm_line::specs::Heads::control_named))]
fn control_named(name: &[u8]) -> Option<ControlOp>
    ensures { result ≡ control_named name.now }
{
    ControlOp::ALL[1..]
        .iter()
        .copied()
        .find(|op| name == names::control(*op).as_bytes())
}
