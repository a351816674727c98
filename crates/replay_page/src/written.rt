//! What a step wrote.

use insn_word::{CPart, ControlOp, Insn, WideOp};
use processor::Step;
use run_findings::{Access, Action, Deed};
use std::alloc::{AllocError, Global};
use step_views::{Change, Content, Place, StepView, StreamPart};
use stream_core::Status;
use tag_memory::MemOp;
use value_origins::Location;

/// What a step wrote.
#[derive(Clone, Copy, Debug, PartialEq, Eq)]
pub(crate) enum Written {
    /// A location.
    At(Location),
    /// All registers and target registers of a stream that are not named before.
    AllOf(Step),
}

/// What a step wrote with this view and this action: registers in the order of the instruction's parts, then target
/// registers, what a stream has that it began, and its word.
pub(crate) fn written_by(
    alloc: Global,
    view: &StepView,
    action: &Action,
) -> Result<Vec<Written>, AllocError> {
    let mut written = Vec::new(alloc);
    add_own(&mut written, action)?;
    for change in &view.changes {
        if let Some(begun) = begun_by(change) {
            add_begun(&mut written, begun)?;
        }
    }
    if let Some(access) = action.access
        && is_write(&access)
    {
        let address = access.address;
        add(&mut written, Written::At(Location::Word { address }))?;
    }
    Ok(written)
}

/// Adds what a step writes into its stream's registers; a trap writes t0.
fn add_own(written: &mut Vec<Written>, action: &Action) -> Result<(), AllocError> {
    match &action.deed {
        Deed::Nothing => Ok(()),
        Deed::Trap => add_target(written, action.stream, 0),
        Deed::Instruction(insn) => add_insn(written, action.stream, insn),
    }
}

/// Adds the registers of a stream that begins.
fn add_begun(written: &mut Vec<Written>, stream: Step) -> Result<(), AllocError> {
    add_register(written, stream, 1)?;
    add_target(written, stream, 0)?;
    add(written, Written::AllOf(stream))
}

/// Whether an access puts a value or tags into its word, or leaves it otherwise than it was, as a LOAD that empties it.
fn is_write(access: &Access) -> bool {
    match access.op {
        MemOp::Store | MemOp::Fadd | MemOp::TagSet | MemOp::Purge => true,
        MemOp::Load | MemOp::TagGet => access.is_change(),
    }
}

/// The stream that begins by a change: it was idle.
fn begun_by(change: &Change) -> Option<Step> {
    match change.place {
        Place::Stream {
            p,
            s,
            part: StreamPart::Status,
        } if change.before == Content::Status(Status::Idle) => Some(Step { p, s }),
        _ => None,
    }
}

/// Adds what an instruction writes into its stream's registers.
fn add_insn(written: &mut Vec<Written>, stream: Step, insn: &Insn) -> Result<(), AllocError> {
    match insn {
        Insn::Wide { op, reg, .. } => match op {
            WideOp::Literal | WideOp::LiteralHigh => add_register(written, stream, *reg),
            WideOp::TargetLiteral => add_target(written, stream, *reg),
        },
        Insn::Normal { m, a, c, .. } => match c.op {
            ControlOp::Quit | ControlOp::QuitKeep => add(written, Written::AllOf(stream)),
            _ => {
                add_register(written, stream, m.destination())?;
                add_register(written, stream, a.destination())?;
                add_register(written, stream, c.destination())?;
                add_control(written, stream, c)
            }
        },
    }
}

/// Adds the target register that a control operation writes.
fn add_control(written: &mut Vec<Written>, stream: Step, c: &CPart) -> Result<(), AllocError> {
    match c.op {
        ControlOp::Call => add_target(written, stream, c.u),
        ControlOp::Exchange | ControlOp::TargetSet => add_target(written, stream, c.t),
        _ => Ok(()),
    }
}

/// Adds a register, once, unless it is r0.
fn add_register(written: &mut Vec<Written>, stream: Step, register: u8) -> Result<(), AllocError> {
    let one = Written::At(Location::Register { stream, register });
    if register == 0 || written.contains(&one) {
        return Ok(());
    }
    add(written, one)
}

/// Adds a target register.
fn add_target(written: &mut Vec<Written>, stream: Step, target: u8) -> Result<(), AllocError> {
    add(written, Written::At(Location::Target { stream, target }))
}

fn add(written: &mut Vec<Written>, one: Written) -> Result<(), AllocError> {
    written.push(one)?;
    Ok(())
}
