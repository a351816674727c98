//! The run of all processors at once.

ghost use Rattle.std.specs.Prelude.{◌≡◌, ◌<◌, ◌≤◌, ◌+◌, ℕ, All, length, slice_index_or};
ghost use Rattle.processor.specs.Records.{RecordValue};
ghost use Rattle.memory_lock.specs.Driving.{IsGrown, HasMade};
ghost use Rattle.memory_lock.specs.Runs.{HaveRoom, IsRunOfThreads, IsContinued};

use crate::driving::drive;
use crate::gates::Gate;
use crate::lock_ports::LockPort;
use crate::ports::Port;
use crate::started_memory::{StartBrand, StartedMemory};
use processor::Recorded;
use shared_history::{Parts, SharedMemory};
use std::marker::Brand;
use std::sync::{Mutex, Wait};
use std::thread;
use std::thread::Threads;

/// Drives each processor up to the parts' fuel, as many at once as threads can be had; where a thread can't be started
/// its processor is driven by another or by the caller. Each goes through a port of its own to the one memory in a
/// lock, which no local step takes.
///
/// Which processor asks first is not known, nor that the records match the history: `gather` says so.
pub fn run_by_lock<'i, R: Threads + Wait + Sync, G: Gate + Sync, const S: usize>(
    rt: &R,
    parts: Parts<'i, S>,
    gate: &G,
) -> Parts<'i, S>
    requires room { HaveRoom parts }
    ensures run { IsRunOfThreads parts.entry result }
    ensures room_again { HaveRoom result }
{
    let (fuel, shared, mut records) = parts.into_parts();
    let shared = run_records(rt, records.as_mut_slice(), shared, fuel, gate);
    Parts::of(fuel, shared, records)
}

/// The same of the records.
fn run_records<'i, R: Threads + Wait + Sync, G: Gate + Sync, const S: usize>(
    rt: &R,
    records: &mut [Recorded<'i, S>],
    memory: SharedMemory<'i>,
    fuel: usize,
    gate: &G,
) -> SharedMemory<'i>
    requires room { All (λ (r : RecordValue). fuel ≤ length r.steps + r.spare) records.old }
    ensures grown { (p : ℕ) (d : RecordValue) → p < length records.old
        → IsGrown fuel (slice_index_or records.old p d) (slice_index_or records.new p d) }
    ensures shared { IsContinued memory.entry result }
{
    run_workers(rt, records, memory, fuel, gate)
}

/// What a thread drives. The kit proves a run of threads over values of a type parameter, and none over values whose
/// type has a number as a parameter: records are driven through this trait.
pub trait Worker {
    /// The record that it is.
    ghost value: { Self → RecordValue };

    /// Drives it through the port, as `drive` does; what `drive` answers is left out.
    fn go<R: Wait, P: Port, G: Gate>(&mut self, rt: &R, port: &mut P, fuel: usize, gate: &G)
        requires { fuel ≤ length (value self.old).steps + (value self.old).spare }
        ensures grown { IsGrown fuel (value self.old) (value self.new) }
        ensures made { HasMade (value self.old) (value self.new) (P.made port.old) (P.made port.new) };
}

impl<'i, const S: usize> Worker for Recorded<'i, S> {
    ghost value = { λ r. r };

    fn go<R: Wait, P: Port, G: Gate>(&mut self, rt: &R, port: &mut P, fuel: usize, gate: &G) {
        let _ = drive(rt, self, port, fuel, gate);
    }
}

/// Drives each worker through the memory in a lock. The lock's type names the memory that it began with, which is
/// this one: the call of [`run_from`] picks it, in proofs/threads/run_workers/Invariants.antt.
fn run_workers<'i, W: Worker + Send, R: Threads + Wait + Sync, G: Gate + Sync>(
    rt: &R,
    workers: &mut [W],
    memory: SharedMemory<'i>,
    fuel: usize,
    gate: &G,
) -> SharedMemory<'i>
    requires room { All (λ w. fuel ≤ length (W.value w).steps + (W.value w).spare) workers.old }
    ensures grown { (p : ℕ) (d : W) → p < length workers.old
        → IsGrown fuel (W.value (slice_index_or workers.old p d)) (W.value (slice_index_or workers.new p d)) }
    ensures shared { IsContinued memory.entry result }
{
    run_from::<Brand, W, R, G>(rt, workers, memory, fuel, gate)
}

/// The same from the memory that the type names.
fn run_from<
    'i,
    B: StartBrand + Send + Sync,
    W: Worker + Send,
    R: Threads + Wait + Sync,
    G: Gate + Sync,
>(rt: &R, workers: &mut [W], memory: SharedMemory<'i>, fuel: usize, gate: &G) -> SharedMemory<'i>
    requires start { memory ≡ B.start }
    requires room { All (λ w. fuel ≤ length (W.value w).steps + (W.value w).spare) workers.old }
    ensures grown { (p : ℕ) (d : W) → p < length workers.old
        → IsGrown fuel (W.value (slice_index_or workers.old p d)) (W.value (slice_index_or workers.new p d)) }
    ensures shared { IsContinued B.start result }
{
    let locked = Mutex::new(StartedMemory::<B>::new(memory));
    drive_all(rt, workers, &locked, fuel, gate);
    locked.into_inner().into_memory()
}

/// Drives each worker, as many at once as threads can be had.
fn drive_all<
    'i,
    B: StartBrand + Send + Sync,
    W: Worker + Send,
    R: Threads + Wait + Sync,
    G: Gate + Sync,
>(rt: &R, workers: &mut [W], memory: &Mutex<StartedMemory<'i, B>>, fuel: usize, gate: &G)
    requires { All (λ w. fuel ≤ length (W.value w).steps + (W.value w).spare) workers.old }
    ensures { (p : ℕ) (d : W) → p < length workers.old
        → IsGrown fuel (W.value (slice_index_or workers.old p d)) (W.value (slice_index_or workers.new p d)) }
{
    let count = workers.len();
    if count > 0 {
        let go = |_p: usize, worker: &mut W|
            requires { fuel ≤ length (W.value worker.now).steps + (W.value worker.now).spare }
            ensures { IsGrown fuel (W.value worker.entry.now) (W.value worker.exit.now) }
        {
            let mut port = LockPort::new(memory);
            worker.go(rt, &mut port, fuel, gate)
        };
        thread::for_each_mut(rt, workers, count, &go);
    }
}
