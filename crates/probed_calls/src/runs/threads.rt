//! Calls that run the processors at once and gather what they did.
use crate::endings::Ended;
use crate::programs::{FUEL, STEPS};
use image_file::Image;
use memory_lock::{FreeGate, ThreadsFault, run_threads, threaded};
use processor::Recorded;
use shared_history::{GatherFault, Parts, PartsFault, SharedMemory, Woven, gather};
use std::alloc::Global;
use std::sync::Wait;
use std::thread::Threads;
use tag_memory::Word;

/// Whether there are two records, each with so many steps and pairs, and so much room.
fn have_sizes(records: &[Recorded<2>], sizes: (usize, usize, usize)) -> bool {
    for record in records {
        if (record.steps().len(), record.pairs().len(), record.spare()) != sizes {
            return false;
        }
    }
    records.len() == 2
}

/// Whether the memory has so many entries and so much room, and these words.
fn has_sizes(shared: &SharedMemory, sizes: (usize, usize), words: (u64, u64)) -> bool {
    (shared.entries().len(), shared.spare()) == sizes
        && shared.word(0) == Word::from_number(words.0, 1)
        && shared.word(8) == Word::from_number(words.1, 1)
}

/// Whether no step of the run is taken.
pub(crate) fn is_new_run(parts: &Parts<2>) -> bool {
    have_sizes(parts.records(), (0, 0, FUEL)) && has_sizes(parts.shared(), (0, 2 * FUEL), (5, 6))
}

/// Whether all steps of the run are taken, whichever processor asked first.
pub(crate) fn is_whole_run(parts: &Parts<2>) -> bool {
    have_sizes(parts.records(), (3, 1, FUEL - 3))
        && has_sizes(parts.shared(), (2, 2 * FUEL - 2), (8, 7))
}

/// The parts of a run. None where memory for them or for the turns is refused: no step is taken then.
fn parts<'i, R: AllocGlobal + Threads + Wait + Sync>(
    rt: &R,
    image: &'i Image,
) -> Option<Parts<'i, 2>> {
    let Ok(parts) = Parts::new(rt.alloc(), image, FUEL) else {
        return None;
    };
    let parts = run_threads(rt, parts, &FreeGate);
    if is_whole_run(&parts) {
        Some(parts)
    } else {
        None
    }
}

/// Whether it is the whole run.
fn is_run(woven: &Woven<2>) -> bool {
    (woven.schedule().len(), woven.history().len()) == (STEPS.len(), 2)
        && woven.word(0) == Word::from_number(8, 1)
        && woven.word(8) == Word::from_number(7, 1)
}

/// How the parts of a run are gathered. Where memory is refused they are gathered then; where no step was taken, since
/// memory for the turns was refused, they are new.
fn gather_ended(alloc: Global, gathered: Result<Woven<2>, (Parts<2>, GatherFault)>) -> Ended {
    match gathered {
        Ok(woven) => Ended::answered(is_run(&woven)),
        Err((parts, GatherFault::NoMemory)) => Ended::refused(is_gathered(alloc, parts)),
        Err((parts, GatherFault::Short(0))) => Ended::refused(is_new_run(&parts)),
        Err(_) => Ended::Wrong,
    }
}

fn is_gathered(alloc: Global, parts: Parts<2>) -> bool {
    match gather(alloc, parts) {
        Ok(woven) => is_run(&woven),
        Err(_) => false,
    }
}

pub(crate) fn of_gather<R: AllocGlobal + Threads + Wait + Sync>(rt: &R, image: &Image) -> Ended {
    match parts(rt, image) {
        Some(parts) => gather_ended(rt.alloc(), gather(rt.alloc(), parts)),
        None => Ended::NotMade,
    }
}

/// How a run that returns its schedule ended.
fn threaded_ended<'i>(alloc: Global, run: Result<Woven<'i, 2>, ThreadsFault<'i, 2>>) -> Ended {
    match run {
        Ok(woven) => gather_ended(alloc, Ok(woven)),
        Err(ThreadsFault::Build(fault)) => Ended::refused(matches!(fault, PartsFault::NoMemory)),
        Err(ThreadsFault::Gather(parts, fault)) => gather_ended(alloc, Err((parts, fault))),
    }
}

pub(crate) fn of_threaded<R: AllocGlobal + Threads + Wait + Sync>(rt: &R, image: &Image) -> Ended {
    let run = threaded(rt, rt.alloc(), image, FUEL, &FreeGate);
    threaded_ended(rt.alloc(), run)
}
