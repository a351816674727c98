//! Facts that a line of advice names, and when an observation fits one.

ghost use Rattle.std.specs.Prelude.{◌≡◌, ◌==◌};
ghost use Rattle.insn_word.specs.Operations.{wide_number, memory_number, arithmetic_number, control_number, access_number};
ghost use Rattle.program_rules.specs.Keeping.{has_operation, is_wide, is_memory, is_arithmetic, is_control};
ghost use Rattle.stream_core.specs.Traps.{trap_number};
ghost use Rattle.exercise_advice.specs.Facts.{fits, stream_fits, address_fits, state_fits, is_same_state, trap_fits};
ghost use Rattle.exercise_advice.specs.Facts.{operation_fits, has_sought, suffix_fits, has_suffix};

use crate::observations::{Observation, ObservationKind};
use expectations::FullEmpty;
use insn_word::{Access, ArithmeticOp, ControlOp, Insn, MemoryOp, WideOp};
use processor::Step;
use program_rules::ProgramOperation;
use stream_core::TrapKind;

/// What stands after the name of an operation.
#[derive(Clone, Copy, Debug, PartialEq, Eq)]
pub enum Suffix {
    /// The access of a memory operation.
    Memory(Access),
    /// `.T`: it makes a condition code.
    Test,
}

/// An operation that an instruction is to have.
#[derive(Clone, Copy, Debug, PartialEq, Eq)]
pub struct SoughtOperation {
    /// The operation.
    pub operation: ProgramOperation,
    /// Its suffix; None if any will do, or none.
    pub suffix: Option<Suffix>,
}

/// A fact that a line of advice names: that so many observations fit it, or that fewer do. Each part that is None fits all.
#[derive(Clone, Copy, Debug, PartialEq, Eq)]
pub struct SoughtFact {
    /// Whether so many observations are to fit it; else fewer are.
    pub is_wanted: bool,
    /// How many.
    pub times: usize,
    /// The kind of the observation.
    pub kind: ObservationKind,
    /// Its stream.
    pub stream: Option<Step>,
    /// The byte address of its word.
    pub address: Option<u64>,
    /// The state of its word.
    pub state: Option<FullEmpty>,
    /// The number of its trap.
    pub trap: Option<u8>,
    /// An operation of its instruction.
    pub operation: Option<SoughtOperation>,
}

impl SoughtFact {
    /// Whether an observation fits it.
    pub(crate) fn fits(self, seen: Observation) -> bool
        ensures { result ≡ fits self seen }
    {
        self.kind.number() == seen.kind.number()
            && stream_fits(self.stream, seen.stream)
            && address_fits(self.address, seen.address)
            && state_fits(self.state, seen.state)
            && trap_fits(self.trap, seen.trap)
            && operation_fits(self.operation, seen.insn)
    }
}

fn stream_fits(sought: Option<Step>, seen: Option<Step>) -> bool
    ensures { result ≡ stream_fits sought seen }
{
    match (sought, seen) {
        (None, _) => true,
        (Some(_), None) => false,
        (Some(sought), Some(seen)) => sought.p == seen.p && sought.s == seen.s,
    }
}

fn address_fits(sought: Option<u64>, seen: Option<u64>) -> bool
    ensures { result ≡ address_fits sought seen }
{
    match (sought, seen) {
        (None, _) => true,
        (Some(_), None) => false,
        (Some(sought), Some(seen)) => sought == seen,
    }
}

fn state_fits(sought: Option<FullEmpty>, seen: Option<FullEmpty>) -> bool
    ensures { result ≡ state_fits sought seen }
{
    match (sought, seen) {
        (None, _) => true,
        (Some(_), None) => false,
        (Some(sought), Some(seen)) => is_same_state(sought, seen),
    }
}

fn is_same_state(one: FullEmpty, other: FullEmpty) -> bool
    ensures { result ≡ is_same_state one other }
{
    match (one, other) {
        (FullEmpty::Full, FullEmpty::Full) | (FullEmpty::Empty, FullEmpty::Empty) => true,
        (FullEmpty::Full, FullEmpty::Empty) | (FullEmpty::Empty, FullEmpty::Full) => false,
    }
}

fn trap_fits(sought: Option<u8>, seen: Option<TrapKind>) -> bool
    ensures { result ≡ trap_fits sought seen }
{
    match (sought, seen) {
        (None, _) => true,
        (Some(_), None) => false,
        (Some(sought), Some(seen)) => sought == seen.number(),
    }
}

fn operation_fits(sought: Option<SoughtOperation>, seen: Option<Insn>) -> bool
    ensures { result ≡ operation_fits sought seen }
{
    match (sought, seen) {
        (None, _) => true,
        (Some(_), None) => false,
        (Some(sought), Some(insn)) => has_sought(sought, insn),
    }
}

/// Whether an instruction has an operation with its suffix.
fn has_sought(sought: SoughtOperation, insn: Insn) -> bool
    ensures { result ≡ has_sought sought insn }
{
    has_operation(sought.operation, insn) && suffix_fits(sought.suffix, insn)
}

fn suffix_fits(sought: Option<Suffix>, insn: Insn) -> bool
    ensures { result ≡ suffix_fits sought insn }
{
    match sought {
        None => true,
        Some(suffix) => has_suffix(suffix, insn),
    }
}

fn has_suffix(suffix: Suffix, insn: Insn) -> bool
    ensures { result ≡ has_suffix suffix insn }
{
    match (suffix, insn) {
        (Suffix::Memory(_) | Suffix::Test, Insn::Wide { .. }) => false,
        (Suffix::Memory(access), Insn::Normal { m, .. }) => {
            access_number(m.acc) == access_number(access)
        }
        (Suffix::Test, Insn::Normal { a, .. }) => a.test,
    }
}

/// Whether an instruction has an operation.
fn has_operation(operation: ProgramOperation, insn: Insn) -> bool
    ensures { result ≡ has_operation operation insn }
{
    match operation {
        ProgramOperation::Wide(wide) => is_wide(insn, wide),
        ProgramOperation::Memory(memory) => is_memory(insn, memory),
        ProgramOperation::Arithmetic(arithmetic) => is_arithmetic(insn, arithmetic),
        ProgramOperation::Control(control) => is_control(insn, control),
    }
}

fn is_wide(insn: Insn, wide: WideOp) -> bool
    ensures { result ≡ is_wide wide insn }
{
    match insn {
        Insn::Wide { op, .. } => wide_number(op) == wide_number(wide),
        Insn::Normal { .. } => false,
    }
}

fn is_memory(insn: Insn, memory: MemoryOp) -> bool
    ensures { result ≡ is_memory memory insn }
{
    match insn {
        Insn::Wide { .. } => false,
        Insn::Normal { m, .. } => memory_number(m.op) == memory_number(memory),
    }
}

fn is_arithmetic(insn: Insn, arithmetic: ArithmeticOp) -> bool
    ensures { result ≡ is_arithmetic arithmetic insn }
{
    match insn {
        Insn::Wide { .. } => false,
        Insn::Normal { a, .. } => arithmetic_number(a.op) == arithmetic_number(arithmetic),
    }
}

fn is_control(insn: Insn, control: ControlOp) -> bool
    ensures { result ≡ is_control control insn }
{
    match insn {
        Insn::Wide { .. } => false,
        Insn::Normal { c, .. } => control_number(c.op) == control_number(control),
    }
}

fn wide_number(op: WideOp) -> u64
    ensures { result ≡ wide_number op }
{
    op as u64
}

fn memory_number(op: MemoryOp) -> u64
    ensures { result ≡ memory_number op }
{
    op as u64
}

fn arithmetic_number(op: ArithmeticOp) -> u64
    ensures { result ≡ arithmetic_number op }
{
    op as u64
}

fn control_number(op: ControlOp) -> u64
    ensures { result ≡ control_number op }
{
    op as u64
}

fn access_number(access: Access) -> u64
    ensures { result ≡ access_number access }
{
    access as u64
}
