//! Steps of a schedule, and what a step needs and makes.

use insn_word::{Insn, ReferenceInsn, ShortInsn};
use std::marker::Model;
use stream_core::TrapKind;
use tag_memory::{Reply, Request};

/// The most steps of a schedule that is read from a text, and of all processors together that run at once.
pub const MAX_STEPS: usize = 1_000_000;

const _: () = prove!(MAX_STEPS == 1_000_000);

/// A step of one stream of one processor, as a schedule names it.
#[derive(Clone, Copy, Debug, PartialEq, Eq)]
pub struct Step {
    /// The processor's number.
    pub p: u8,
    /// The stream's number.
    pub s: u8,
}

/// One request to the memory and its reply, with the stream of a known processor that asked.
#[derive(Clone, Copy, Debug, PartialEq, Eq)]
pub struct Asked {
    /// The stream's number.
    pub s: u8,
    /// What was asked.
    pub request: Request,
    /// What the memory answered.
    pub reply: Reply,
}

/// One request to the memory and its reply, with the processor and the stream that asked.
#[derive(Clone, Copy, Debug, PartialEq, Eq)]
pub struct Entry {
    /// The processor's number.
    pub p: u8,
    /// The stream's number.
    pub s: u8,
    /// What was asked.
    pub request: Request,
    /// What the memory answered.
    pub reply: Reply,
}

/// What the next step of a stream needs.
#[derive(Clone, Copy, Debug, PartialEq, Eq)]
pub enum Next {
    /// Nothing: no such stream runs, and the step is skipped.
    Skip,
    /// No memory; the step may be a trap.
    Local,
    /// The reply to this request.
    Ask(Request),
}

/// What the next step of a stream needs, and what its fetch found: a step that is finished with it decodes its word
/// once.
#[derive(Debug, Drop)]
pub struct NextStep {
    /// What it needs.
    pub next: Next,
    /// What it begins with.
    pub fetch: StepFetch,
}

/// What a step begins with: rest, a trap or the instruction at the pc. The instruction is held in a short form where it
/// has one, which contracts do not see.
#[derive(Debug, Drop)]
pub struct StepFetch {
    pub(crate) form: FetchForm,
}

impl Model for StepFetch {
    ghost use Rattle.stream_core.specs.declared.steps.Fetch.{Fetch};
    ghost use Rattle.processor.specs.FetchForms.{fetch_in};

    ghost Value = { Fetch };

    ghost view = { λ f. fetch_in f.form };
}

/// The forms of what a step begins with.
#[derive(Debug, Drop)]
pub(crate) enum FetchForm {
    Rest,
    Trap(TrapKind),
    Short(ShortInsn),
    Reference(ReferenceInsn),
    Instruction(Insn),
}
