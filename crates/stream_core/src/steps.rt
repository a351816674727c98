//! What a step of a stream finds, needs and comes to.

use crate::status_words::{StatusWord, TrapMask};
use crate::traps::TrapKind;
use insn_word::Insn;
use tag_memory::Request;

/// Whether a stream runs ("Streams", docs/MACHINE.md).
#[derive(Clone, Copy, Debug, PartialEq, Eq)]
pub enum Status {
    /// It is free, and holds zeros only.
    Idle,
    /// It takes steps.
    Running,
    /// A trap that nothing handles stopped it.
    Stopped(TrapKind),
}

/// How a step came out ("One step", docs/MACHINE.md).
#[derive(Clone, Copy, Debug, PartialEq, Eq)]
pub enum Outcome {
    /// There was no running stream, and nothing changed.
    Skipped,
    /// The instruction was executed.
    Done,
    /// The reference found the wrong state, and is tried again by the next step.
    Blocked,
    /// A trap: the stream goes on at its handler.
    Trapped(TrapKind),
    /// A trap that nothing handles: the stream was stopped.
    Stopped(TrapKind),
}

/// What CREATE gives the stream that it starts.
#[derive(Clone, Copy, Debug, PartialEq, Eq)]
pub struct Child {
    /// Its pc.
    pub pc: u32,
    /// Its r1.
    pub value: u64,
    /// Its t0, the creator's.
    pub t0: StatusWord,
    /// Its trap mask, the creator's.
    pub mask: TrapMask,
}

/// What stands at a stream's pc, read once a step.
#[derive(Clone, Copy, Debug, PartialEq, Eq)]
pub enum Fetch {
    /// The stream does not run.
    Rest,
    /// It traps: PROGRAM or ILLEGAL.
    Trap(TrapKind),
    /// The instruction.
    Instruction(Insn),
}

/// What the next step of a stream needs.
#[derive(Clone, Copy, Debug, PartialEq, Eq)]
pub enum Plan {
    /// Nothing: the stream does not run.
    Rest,
    /// A trap: PROGRAM or ILLEGAL.
    Trap(TrapKind),
    /// Nothing but the stream: the instruction has no reference.
    Local,
    /// The memory's reply to this request.
    Ask(Request),
}

/// What an instruction asks of the processor ("Processors", docs/MACHINE.md).
#[derive(Clone, Copy, Debug, PartialEq, Eq)]
pub enum Control {
    /// Nothing: it has no RESERVE, CREATE, QUIT or QUITP.
    Plain,
    /// RESERVE: so many more streams are to be reserved.
    Reserve(u64),
    /// CREATE: this stream is to be started.
    Create(Child),
    /// QUIT: the stream becomes idle, its reservation is released.
    Quit,
    /// QUITP: the stream becomes idle, its reservation is kept.
    QuitKeep,
}
