//! Runs of processors at once, which together take 1,000,000 steps.
use crate::timed::loops::STEPS;
use image_file::Image;
use memory_lock::{FreeGate, Parts, run_by_lock, run_threads, threaded};
use std::alloc::Global;
use std::sync::Wait;
use std::thread::Threads;

/// How processors run.
#[derive(Clone, Copy)]
pub(crate) enum Way {
    /// Through the lock.
    Lock,
    /// In turn, where they are two.
    Turns,
    /// Through the lock, and the schedule is gathered.
    Schedule,
}

fn steps_of(parts: &Parts<8>) -> usize {
    let mut count = 0usize;
    for record in parts.records() {
        count = count.saturating_add(record.steps().len());
    }
    count
}

/// Runs processors with so many steps each, and gives the number of all their steps.
fn driven<R: Threads + Wait + Sync>(
    rt: &R,
    alloc: Global,
    image: &Image,
    fuel: usize,
    is_in_turn: bool,
) -> Option<usize> {
    let Ok(parts) = Parts::<8>::new(alloc, image, fuel) else {
        return None;
    };
    let parts = if is_in_turn {
        run_threads(rt, parts, &FreeGate)
    } else {
        run_by_lock(rt, parts, &FreeGate)
    };
    Some(steps_of(&parts))
}

/// The same, with their schedule.
fn scheduled<R: Threads + Wait + Sync>(
    rt: &R,
    alloc: Global,
    image: &Image,
    fuel: usize,
) -> Option<usize> {
    match threaded::<R, FreeGate, 8>(rt, alloc, image, fuel, &FreeGate) {
        Ok(woven) => Some(woven.schedule().len()),
        Err(_) => None,
    }
}

/// Runs the processors of an image for so many rounds, and gives the number of steps of each.
pub(crate) fn run_rounds<R: AllocGlobal + Threads + Wait + Sync>(
    rt: &R,
    image: Option<Image>,
    way: Way,
    rounds: u32,
) -> Option<usize> {
    let Some(image) = image else {
        return None;
    };
    let fuel = STEPS.checked_div(image.processors()).unwrap_or(0);
    let mut count = Some(0);
    for _ in 0..rounds {
        count = match way {
            Way::Lock => driven(rt, rt.alloc(), &image, fuel, false),
            Way::Turns => driven(rt, rt.alloc(), &image, fuel, true),
            Way::Schedule => scheduled(rt, rt.alloc(), &image, fuel),
        };
    }
    count
}
