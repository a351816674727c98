//! What the steps of a run did.

ghost use Rattle.std.specs.Prelude.{◌≡◌};
ghost use Rattle.run_findings.specs.Actions.{op_reads, op_hears, is_load, is_store, is_change, is_other_bit, is_by};
ghost use Rattle.run_findings.specs.Actions.{reads, writes, access_changes};

use insn_word::Insn;
use processor::Step;
use tag_memory::MemOp;

/// What a step of a run did.
#[derive(Clone, Copy, Debug, PartialEq, Eq)]
pub struct Action {
    /// The stream that was stepped.
    pub stream: Step,
    /// What it did to its stream.
    pub deed: Deed,
    /// What it did to a word of the memory; None where it had no reference, or one that was not done.
    pub access: Option<Access>,
}

/// What a step did to its stream.
#[derive(Clone, Copy, Debug, PartialEq, Eq)]
pub enum Deed {
    /// Nothing to its registers: it was skipped or blocked, or the stream was stopped.
    Nothing,
    /// It trapped, by which the status word and t0 change places.
    Trap,
    /// It executed an instruction.
    Instruction(Insn),
}

/// What a step did to a word.
#[derive(Clone, Copy, Debug, PartialEq, Eq)]
pub struct Access {
    /// The word's byte address.
    pub address: u64,
    /// The operation.
    pub op: MemOp,
    /// The word's value before the step.
    pub before: u64,
    /// Its value after the step.
    pub after: u64,
    /// Whether it was full before the step.
    pub full: bool,
    /// Whether it is full after the step.
    pub full_after: bool,
}

impl Access {
    /// Whether it left the word otherwise than it was: with another value, or full and not empty, or empty and not full.
    pub fn is_change(&self) -> bool
        ensures { result ≡ is_change self.now }
    {
        self.before != self.after || is_other_bit(self.full, self.full_after)
    }
}

/// Whether the full bit is another one after.
fn is_other_bit(before: bool, after: bool) -> bool
    ensures { result ≡ is_other_bit before after }
{
    if before { !after } else { after }
}

impl Action {
    /// Whether it read the value of the word at this address.
    pub fn reads(&self, address: u64) -> bool
        ensures { result ≡ reads address self.now }
    {
        match self.access {
            Some(access) => access.address == address && op_reads(access.op),
            None => false,
        }
    }

    /// Whether it wrote the word at this address: one that leaves the word as it was does not.
    pub fn writes(&self, address: u64) -> bool
        ensures { result ≡ writes address self.now }
    {
        match self.access {
            Some(access) => access.address == address && access.is_change(),
            None => false,
        }
    }

    /// Whether it wrote some word.
    pub(crate) fn writes_some(&self) -> bool
        ensures { result ≡ access_changes self.now.access }
    {
        match self.access {
            Some(access) => access.is_change(),
            None => false,
        }
    }

    /// Whether it is a step of this stream.
    pub fn is_by(&self, stream: Step) -> bool
        ensures { result ≡ is_by stream self.now }
    {
        self.stream.p == stream.p && self.stream.s == stream.s
    }
}

/// Whether an operation reads the value of its word.
pub(crate) fn op_reads(op: MemOp) -> bool
    ensures { result ≡ op_reads op }
{
    match op {
        MemOp::Load | MemOp::Fadd => true,
        MemOp::Store | MemOp::TagGet | MemOp::TagSet | MemOp::Purge => false,
    }
}

/// Whether a stream learns by an operation what others did to its word, which was full or empty. STORE shows only that
/// the word had been emptied, if it was.
pub(crate) fn op_hears(op: MemOp, full: bool) -> bool
    ensures { result ≡ op_hears op full }
{
    match op {
        MemOp::Load | MemOp::Fadd | MemOp::TagGet => true,
        MemOp::Store => !full,
        MemOp::TagSet | MemOp::Purge => false,
    }
}

pub(crate) fn is_load(op: MemOp) -> bool
    ensures { result ≡ is_load op }
{
    match op {
        MemOp::Load => true,
        MemOp::Store | MemOp::Fadd | MemOp::TagGet | MemOp::TagSet | MemOp::Purge => false,
    }
}

pub(crate) fn is_store(op: MemOp) -> bool
    ensures { result ≡ is_store op }
{
    match op {
        MemOp::Store => true,
        MemOp::Load | MemOp::Fadd | MemOp::TagGet | MemOp::TagSet | MemOp::Purge => false,
    }
}
