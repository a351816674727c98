//! Whether an image keeps rules.

ghost use Rattle.std.specs.Prelude.{◌≡◌, not};
ghost use Rattle.std.specs.List.{position};
ghost use Rattle.insn_word.specs.Operations.{wide_number, memory_number, arithmetic_number, control_number};
ghost use Rattle.program_rules.specs.Keeping.{is_kept, is_spelt, spells, has_operation};
ghost use Rattle.program_rules.specs.Keeping.{is_wide, is_memory, is_arithmetic, is_control};

use crate::program_rule::{ProgramOperation, ProgramRule};
use image_file::Image;
use insn_word::{ArithmeticOp, ControlOp, Insn, MemoryOp, Profile, WideOp, decode_as};

/// Whether the program of an image keeps a rule. Each of its program words counts, also one that no stream comes to; one
/// that spells no instruction in the image's profile spells no operation.
pub fn is_kept(image: &Image, rule: ProgramRule) -> bool
    ensures { result ≡ is_kept image.now rule }
{
    match rule {
        ProgramRule::Entries(count) => image.processors() == count,
        ProgramRule::AtMostWords(most) => image.program().len() <= most,
        ProgramRule::Forbid(operation) => !is_spelt(image, operation),
        ProgramRule::Require(operation) => is_spelt(image, operation),
    }
}

/// The first of some rules that the program of an image breaks, counted from 0; None where it keeps all.
pub fn first_broken(image: &Image, rules: &[ProgramRule]) -> Option<usize>
    ensures { result ≡ position (λ r. not (is_kept image.now r)) rules.now }
{
    rules.iter().position(
        |rule: &ProgramRule| -> bool
            ensures { result ≡ not (is_kept image.entry.now rule.now) }
        { !is_kept(image, *rule) },
    )
}

/// Whether some program word spells an operation.
fn is_spelt(image: &Image, operation: ProgramOperation) -> bool
    ensures { result ≡ is_spelt image.now operation }
{
    let profile = image.profile();
    image.program().iter().any(
        |word: &u64| -> bool
            ensures { result ≡ spells profile operation word.now }
        { spells(profile, *word, operation) },
    )
}

/// Whether a word spells an instruction that has an operation.
fn spells(profile: Profile, word: u64, operation: ProgramOperation) -> bool
    ensures { result ≡ spells profile operation word }
{
    match decode_as(profile, word) {
        Some(insn) => has_operation(insn, operation),
        None => false,
    }
}

/// Whether an instruction has an operation.
fn has_operation(insn: Insn, operation: ProgramOperation) -> bool
    ensures { result ≡ has_operation operation insn }
{
    match operation {
        ProgramOperation::Wide(wide) => is_wide(insn, wide),
        ProgramOperation::Memory(memory) => is_memory(insn, memory),
        ProgramOperation::Arithmetic(arithmetic) => is_arithmetic(insn, arithmetic),
        ProgramOperation::Control(control) => is_control(insn, control),
    }
}

fn is_wide(insn: Insn, wide: WideOp) -> bool
    ensures { result ≡ is_wide wide insn }
{
    match insn {
        Insn::Wide { op, .. } => wide_number(op) == wide_number(wide),
        Insn::Normal { .. } => false,
    }
}

fn is_memory(insn: Insn, memory: MemoryOp) -> bool
    ensures { result ≡ is_memory memory insn }
{
    match insn {
        Insn::Wide { .. } => false,
        Insn::Normal { m, .. } => memory_number(m.op) == memory_number(memory),
    }
}

fn is_arithmetic(insn: Insn, arithmetic: ArithmeticOp) -> bool
    ensures { result ≡ is_arithmetic arithmetic insn }
{
    match insn {
        Insn::Wide { .. } => false,
        Insn::Normal { a, .. } => arithmetic_number(a.op) == arithmetic_number(arithmetic),
    }
}

fn is_control(insn: Insn, control: ControlOp) -> bool
    ensures { result ≡ is_control control insn }
{
    match insn {
        Insn::Wide { .. } => false,
        Insn::Normal { c, .. } => control_number(c.op) == control_number(control),
    }
}

fn wide_number(op: WideOp) -> u64
    ensures { result ≡ wide_number op }
{
    op as u64
}

fn memory_number(op: MemoryOp) -> u64
    ensures { result ≡ memory_number op }
{
    op as u64
}

fn arithmetic_number(op: ArithmeticOp) -> u64
    ensures { result ≡ arithmetic_number op }
{
    op as u64
}

fn control_number(op: ControlOp) -> u64
    ensures { result ≡ control_number op }
{
    op as u64
}
