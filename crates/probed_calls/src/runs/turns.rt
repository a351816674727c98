//! Calls that run the processors at once, and those that make their table.
ghost use Rattle.memory_lock.specs.Runs.{HaveRoom};

use crate::endings::Ended;
use crate::programs::FUEL;
use crate::runs::threads::{is_new_run, is_whole_run};
use image_file::Image;
use memory_lock::{FreeGate, close_table, open_table, run_by_lock, run_threads, run_two};
use shared_history::{Parts, SharedMemory};
use std::alloc::Global;
use std::sync::Wait;
use std::thread::Threads;
use tag_memory::Word;

/// The history's room in the memory that a table is made for.
const ROOM: usize = 4;

/// Whether it is the memory, which nothing was asked.
fn is_memory(memory: &SharedMemory) -> bool {
    (memory.entries().len(), memory.spare()) == (0, ROOM)
        && memory.word(0) == Word::from_number(5, 1)
}

/// A table that is opened is closed again.
pub(crate) fn of_open_table(alloc: Global, image: &Image) -> Ended {
    let Ok(memory) = SharedMemory::new(alloc, image, ROOM) else {
        return Ended::NotMade;
    };
    match open_table(alloc, memory) {
        Ok((table, seat)) => Ended::answered(is_memory(&close_table(table, seat))),
        Err(memory) => Ended::refused(is_memory(&memory)),
    }
}

/// Whether the parts can be run to their end.
fn is_run<R: Threads + Wait + Sync>(rt: &R, parts: Parts<2>) -> bool
    requires room { HaveRoom parts }
{
    is_whole_run(&run_threads(rt, parts, &FreeGate))
}

/// How a run of new parts ended. Where memory for the turns is refused they are as before, and can be run then.
fn run_ended<R: Threads + Wait + Sync>(rt: &R, parts: Parts<2>) -> Ended
    requires room { HaveRoom parts }
{
    if is_whole_run(&parts) {
        return Ended::Done;
    }
    let is_as_before = is_new_run(&parts);
    Ended::refused(is_run(rt, parts) && is_as_before)
}

/// Runs the parts, which have to be new ones of two processors.
fn run_pair<'i, R: Threads + Wait + Sync>(rt: &R, parts: Parts<'i, 2>) -> Parts<'i, 2>
    requires room { HaveRoom parts }
    ensures room_again { HaveRoom result }
{
    if parts.records().len() == 2 && parts.shared().entries().is_empty() {
        return run_two(rt, parts, &FreeGate);
    }
    parts
}

pub(crate) fn of_run_two<R: AllocGlobal + Threads + Wait + Sync>(rt: &R, image: &Image) -> Ended {
    match Parts::new(rt.alloc(), image, FUEL) {
        Ok(parts) => run_ended(rt, run_pair(rt, parts)),
        Err(_) => Ended::NotMade,
    }
}

pub(crate) fn of_run_threads<R: AllocGlobal + Threads + Wait + Sync>(
    rt: &R,
    image: &Image,
) -> Ended {
    match Parts::new(rt.alloc(), image, FUEL) {
        Ok(parts) => run_ended(rt, run_threads(rt, parts, &FreeGate)),
        Err(_) => Ended::NotMade,
    }
}

/// Through a lock, where no memory is taken: the run is whole in any case.
pub(crate) fn of_run_through_lock<R: AllocGlobal + Threads + Wait + Sync>(
    rt: &R,
    image: &Image,
) -> Ended {
    match Parts::new(rt.alloc(), image, FUEL) {
        Ok(parts) => {
            let parts = run_by_lock(rt, parts, &FreeGate);
            Ended::answered(is_whole_run(&parts))
        }
        Err(_) => Ended::NotMade,
    }
}
