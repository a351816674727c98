//! What the world shows at which a run ended.

ghost use Rattle.std.specs.Prelude.{◌≡◌, ◌++◌, [], slice_get, IfOk, OnOk};
ghost use Rattle.waiting.specs.Running.{streams_at};
ghost use Rattle.end_states.specs.EndStates.{trap_of_status, trap_in, stops_from, trap_stops, waiting_streams, IsEndState};

use changed_words::{ChangedWord, changed_words};
use machine::Machine;
use processor::Step;
use std::alloc::{AllocError, Global};
use stream_core::{Status, TrapKind};
use waiting::{running_streams, wait_of};

/// A stream, and the trap that stopped it.
#[derive(Clone, Copy, Debug, PartialEq, Eq)]
pub struct TrapStop {
    /// The stream.
    pub stream: Step,
    /// The trap.
    pub trap: TrapKind,
}

/// A stream that runs, and the word that it waits for.
#[derive(Clone, Copy, Debug, PartialEq, Eq)]
pub struct WaitingStream {
    /// The stream.
    pub stream: Step,
    /// The byte address of the word.
    pub address: u64,
}

/// What the world shows at which a run ended.
#[derive(Drop)]
pub struct EndState {
    /// The streams that a trap stopped, in the order of processor and stream.
    pub stopped: Vec<TrapStop>,
    /// The streams that run and wait for a word, in the same order.
    pub waiting: Vec<WaitingStream>,
    /// The words that changed, in the order of their addresses.
    pub changed: Vec<ChangedWord>,
}

impl EndState {
    /// That of an end which shows nothing.
    pub fn empty(alloc: Global) -> EndState
        ensures stopped { result.stopped.items ≡ [] }
        ensures waiting { result.waiting.items ≡ [] }
        ensures changed { result.changed.items ≡ [] }
    {
        EndState {
            stopped: Vec::new(alloc),
            waiting: Vec::new(alloc),
            changed: Vec::new(alloc),
        }
    }
}

/// What the world of a machine shows.
pub fn end_state_of<const S: usize>(
    alloc: Global,
    machine: &Machine<'_, S>,
) -> Result<EndState, AllocError>
    ensures state { IfOk result (λ e. IsEndState machine.now e) }
{
    Ok(EndState {
        stopped: trap_stops(alloc, machine)?,
        waiting: waiting_streams(alloc, machine)?,
        changed: changed_words(alloc, machine)?,
    })
}

/// The streams that a trap stopped, in the order of processor and stream: all of them, and no other.
pub fn trap_stops<const S: usize>(
    alloc: Global,
    machine: &Machine<'_, S>,
) -> Result<Vec<TrapStop>, AllocError>
    ensures { IfOk result (λ v. v.items ≡ trap_stops machine.now.world) }
{
    let mut stopped = Vec::new(alloc);
    for p in 0..machine.image().processors() {
        push_stops(machine, p as u8, &mut stopped)?;
    }
    Ok(stopped)
}

/// Adds those of processor `p`.
fn push_stops<const S: usize>(
    machine: &Machine<'_, S>,
    p: u8,
    stopped: &mut Vec<TrapStop>,
) -> Result<(), AllocError>
    ensures { OnOk result (stopped.new.items
        ≡ stopped.old.items ++ stops_from p 0 (streams_at (slice_get machine.now.world.processors p))) }
{
    for s in 0..machine.image().slim() {
        let stream = Step { p, s: s as u8 };
        if let Some(trap) = trap_in(machine, stream) {
            stopped.push(TrapStop { stream, trap })?;
        }
    }
    Ok(())
}

/// The trap that stopped a stream, if it is there and one did.
fn trap_in<const S: usize>(machine: &Machine<'_, S>, stream: Step) -> Option<TrapKind>
    ensures { result ≡ trap_in machine.now.world stream }
{
    // It says that no stream that is used stands past the room.
    let _image = machine.image();
    match machine.stream(stream.p, stream.s) {
        Some(found) => trap_of_status(found.status()),
        None => None,
    }
}

/// The trap that stopped a stream of this status, if one did.
fn trap_of_status(status: Status) -> Option<TrapKind>
    ensures { result ≡ trap_of_status status }
{
    match status {
        Status::Stopped(trap) => Some(trap),
        Status::Idle | Status::Running => None,
    }
}

/// The streams that run and wait for a word, in the order of processor and stream: all of them, and no other.
fn waiting_streams<const S: usize>(
    alloc: Global,
    machine: &Machine<'_, S>,
) -> Result<Vec<WaitingStream>, AllocError>
    ensures { IfOk result (λ v. v.items ≡ waiting_streams machine.now) }
{
    let running = running_streams(alloc, machine)?;
    let mut waiting = Vec::new(alloc);
    for stream in &running {
        if let Some(wait) = wait_of(machine, stream.p, stream.s) {
            waiting.push(WaitingStream {
                stream: *stream,
                address: wait.address,
            })?;
        }
    }
    Ok(waiting)
}
