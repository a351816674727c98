//! Which streams run.

ghost use Rattle.std.specs.Prelude.{◌≡◌, ◌++◌, slice_get, IfOk, OnOk};
ghost use Rattle.machine.specs.Processor.Records.{is_running_status};
ghost use Rattle.waiting.specs.Running.{streams_at, runs_in, running_from, running_steps, AreRunning};

use machine::Machine;
use machine::processors::Step;
use std::alloc::{AllocError, Global};
use stream_core::Status;

/// Whether stream `s` of processor `p` is there and runs ("Streams", docs/MACHINE.md).
pub fn runs<const S: usize>(machine: &Machine<'_, S>, p: u8, s: u8) -> bool
    ensures { result ≡ runs_in machine.now.world (record { p = p; s = s }) }
{
    // It says that no stream that is used stands past the room.
    let _image = machine.image();
    match machine.stream(p, s) {
        Some(stream) => is_running(stream.status()),
        None => false,
    }
}

/// Whether a stream of this status runs.
fn is_running(status: Status) -> bool
    ensures { result ≡ is_running_status status }
{
    match status {
        Status::Running => true,
        Status::Idle | Status::Stopped(_) => false,
    }
}

/// The streams that run, in the order of processor and stream: all of them, and no other.
pub fn running_streams<const S: usize>(
    alloc: Global,
    machine: &Machine<'_, S>,
) -> Result<Vec<Step>, AllocError>
    ensures is { IfOk result (λ v. v.items ≡ running_steps machine.now.world) }
    ensures all { IfOk result (λ v. AreRunning machine.now.world v.items) }
{
    let mut running = Vec::new(alloc);
    for p in 0..machine.image().processors() {
        push_running(machine, p as u8, &mut running)?;
    }
    Ok(running)
}

/// Adds those of processor `p`.
fn push_running<const S: usize>(
    machine: &Machine<'_, S>,
    p: u8,
    running: &mut Vec<Step>,
) -> Result<(), AllocError>
    ensures { OnOk result (running.new.items
        ≡ running.old.items ++ running_from p 0 (streams_at (slice_get machine.now.world.processors p))) }
{
    for s in 0..machine.image().slim() {
        let step = Step { p, s: s as u8 };
        if runs(machine, step.p, step.s) {
            running.push(step)?;
        }
    }
    Ok(())
}
