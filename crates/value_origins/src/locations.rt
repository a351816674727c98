//! Where values stand, and which steps write there.

ghost use Rattle.std.specs.Prelude.{◌≡◌, ◌<◌, length};
ghost use Rattle.value_origins.specs.Locations.{insn_writes, deed_writes, control_writes, insn_writes_target};
ghost use Rattle.value_origins.specs.Locations.{deed_writes_target, writes_at, access_puts, op_puts};
ghost use Rattle.value_origins.specs.Tables.{AreStarts};

use crate::streams::{Starts, is_quit};
use insn_word::{CPart, ControlOp, Insn, WideOp};
use processor::Step;
use run_findings::{Access, Action, Deed};
use tag_memory::MemOp;

/// Where a value stands.
#[derive(Clone, Copy, Debug, PartialEq, Eq)]
pub enum Location {
    /// A register of a stream, 1 to 31. r0 is zero, and nothing writes it.
    Register { stream: Step, register: u8 },
    /// A target register of a stream, 0 to 7.
    Target { stream: Step, target: u8 },
    /// The word at this byte address.
    Word { address: u64 },
}

/// Whether a step writes a location.
pub(crate) fn writes_at(
    actions: &[Action],
    starts: &Starts,
    step: usize,
    location: Location,
) -> bool
    requires step_in { step < length actions.now }
    requires starts { AreStarts actions.now starts.now }
    ensures { result ≡ writes_at actions.now location step }
{
    let action = &actions[step];
    match location {
        Location::Register { stream, register } => {
            register != 0
                && ((action.is_by(stream) && deed_writes(&action.deed, register))
                    || starts.begins(actions, step, stream))
        }
        Location::Target { stream, target } => {
            (action.is_by(stream) && deed_writes_target(&action.deed, target))
                || starts.begins(actions, step, stream)
        }
        Location::Word { address } => access_puts(&action.access, address),
    }
}

/// Whether an access puts something into a word, be it what stood there, or leaves it otherwise than it was.
fn access_puts(access: &Option<Access>, address: u64) -> bool
    ensures { result ≡ access_puts address access.now }
{
    match access {
        Some(access) => access.address == address && (op_puts(access.op) || access.is_change()),
        None => false,
    }
}

/// Whether an operation puts a value or tags into its word.
fn op_puts(op: MemOp) -> bool
    ensures { result ≡ op_puts op }
{
    match op {
        MemOp::Store | MemOp::Fadd | MemOp::TagSet | MemOp::Purge => true,
        MemOp::Load | MemOp::TagGet => false,
    }
}

/// Whether a step writes a register of its stream.
fn deed_writes(deed: &Deed, register: u8) -> bool
    ensures { result ≡ deed_writes deed.now register }
{
    match deed {
        Deed::Instruction(insn) => insn_writes(insn, register),
        Deed::Nothing | Deed::Trap => false,
    }
}

/// Whether an instruction writes a register of its stream: QUIT and QUITP leave zeros in all.
fn insn_writes(insn: &Insn, register: u8) -> bool
    ensures { result ≡ insn_writes insn.now register }
{
    match insn {
        Insn::Wide { op, reg, .. } => match op {
            WideOp::Literal | WideOp::LiteralHigh => *reg == register,
            WideOp::TargetLiteral => false,
        },
        Insn::Normal { m, a, c, .. } => {
            is_quit(c.op)
                || m.destination() == register
                || a.destination() == register
                || c.destination() == register
        }
    }
}

/// Whether a step writes a target register of its stream.
fn deed_writes_target(deed: &Deed, target: u8) -> bool
    ensures { result ≡ deed_writes_target deed.now target }
{
    match deed {
        Deed::Instruction(insn) => insn_writes_target(insn, target),
        Deed::Trap => target == 0,
        Deed::Nothing => false,
    }
}

fn insn_writes_target(insn: &Insn, target: u8) -> bool
    ensures { result ≡ insn_writes_target insn.now target }
{
    match insn {
        Insn::Wide { op, reg, .. } => match op {
            WideOp::TargetLiteral => *reg == target,
            WideOp::Literal | WideOp::LiteralHigh => false,
        },
        Insn::Normal { c, .. } => control_writes(c, target),
    }
}

fn control_writes(c: &CPart, target: u8) -> bool
    ensures { result ≡ control_writes c.now.op c.now target }
{
    match c.op {
        ControlOp::Call => c.u == target,
        ControlOp::Exchange | ControlOp::TargetSet => c.t == target,
        ControlOp::Quit | ControlOp::QuitKeep => true,
        ControlOp::Nop
        | ControlOp::Jump
        | ControlOp::Skip
        | ControlOp::TargetGet
        | ControlOp::TrapGet
        | ControlOp::Reserve
        | ControlOp::Create
        | ControlOp::Mask => false,
    }
}
