//! Which kind of end the world of a machine is.

ghost use Rattle.std.specs.Prelude.{◌≡◌, ◌↔◌, IsTrue};
ghost use Rattle.end_kinds.specs.Ends.{stopped_in, is_stopped_status, SomeStopped, IsKindOf};

use crate::kinds::EndKind;
use waiting::machines::Machine;
use waiting::streams::Status;
use waiting::{is_standstill, some_run};

/// Which kind of end the world of a machine is, if no step follows. Never `Spinning`, `Waiting` or `Looping`, which no world
/// shows by itself.
pub fn end_kind_of<const S: usize>(machine: &Machine<'_, S>) -> EndKind
    ensures is { IsKindOf machine.now.image machine.now.world result }
    ensures only { (kind : EndKind) → IsKindOf machine.now.image machine.now.world kind → kind ≡ result }
{
    if some_run(machine) {
        if is_standstill(machine) {
            EndKind::Deadlock
        } else {
            EndKind::OutOfSteps
        }
    } else if some_stopped(machine) {
        EndKind::Stopped
    } else {
        EndKind::Finished
    }
}

/// Whether a trap stopped some stream.
pub fn some_stopped<const S: usize>(machine: &Machine<'_, S>) -> bool
    ensures { IsTrue result ↔ SomeStopped machine.now.world }
{
    let image = machine.image();
    for p in 0..image.processors() {
        for s in 0..image.slim() {
            if is_stopped(machine, p as u8, s as u8) {
                return true;
            }
        }
    }
    false
}

/// Whether stream `s` of processor `p` is there and was stopped by a trap.
fn is_stopped<const S: usize>(machine: &Machine<'_, S>, p: u8, s: u8) -> bool
    ensures { result ≡ stopped_in machine.now.world (record { p = p; s = s }) }
{
    // It says that no stream that is used stands past the room.
    let _image = machine.image();
    match machine.stream(p, s) {
        Some(stream) => is_stopped_status(stream.status()),
        None => false,
    }
}

/// Whether a stream of this status was stopped by a trap.
fn is_stopped_status(status: Status) -> bool
    ensures { result ≡ is_stopped_status status }
{
    match status {
        Status::Stopped(_) => true,
        Status::Idle | Status::Running => false,
    }
}
