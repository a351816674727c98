//! Calls that make records, and what they are gathered with.
use crate::endings::Ended;
use crate::programs::FUEL;
use image_file::Image;
use processor::{Next, Recorded, Steps};
use shared_history::{Parts, PartsFault, SharedMemory};
use std::alloc::{AllocError, Global};
use tag_memory::{Reply, Word};

/// A record of the image's processor 1; none where there is no memory.
fn record(alloc: Global, image: &Image) -> Option<Recorded<2>> {
    if image.slim() > 2 || image.processors() != 2 {
        return None;
    }
    match Recorded::new(alloc, image, 1) {
        Ok(record) => Some(record),
        Err(AllocError) => None,
    }
}

/// The record's number, and those of its steps and pairs.
fn numbers(record: &Recorded<2>) -> (u8, usize, usize) {
    (record.number(), record.steps().len(), record.pairs().len())
}

pub(crate) fn of_record(alloc: Global, image: &Image) -> Ended {
    match record(alloc, image) {
        Some(record) => Ended::answered(numbers(&record) == (1, 0, 0) && record.any_running()),
        None => Ended::Refused,
    }
}

/// A step, whose request is done.
fn step(record: &mut Recorded<2>) {
    if record.spare() == 0 {
        return;
    }
    match record.next(0) {
        Next::Skip => {}
        Next::Local => {
            record.step_local(0);
        }
        Next::Ask(request) => {
            record.step_reply(0, &request, Reply::Done(0));
        }
    }
}

/// Takes all three steps, where there is memory for them and one more.
fn takes_all(record: &mut Recorded<2>) -> bool {
    let is_reserved = record.reserve(4).is_ok();
    for _ in 0u8..3 {
        step(record);
    }
    is_reserved
}

/// The record of all steps, with room for one more.
fn whole_record(alloc: Global, image: &Image) -> Option<Recorded<2>> {
    let Some(mut record) = record(alloc, image) else {
        return None;
    };
    if takes_all(&mut record) {
        Some(record)
    } else {
        None
    }
}

/// Whether it is that of all steps, with at least so much room.
fn is_whole(record: &Recorded<2>, room: usize) -> bool {
    numbers(record) == (1, 3, 1) && !record.any_running() && record.spare() >= room
}

fn reserve_ended(record: &mut Recorded<2>) -> Ended {
    match record.reserve(1_000) {
        Ok(()) => Ended::answered(is_whole(record, 1_000)),
        Err(AllocError) => Ended::refused(is_whole(record, 1) && record.spare() < 1_000),
    }
}

pub(crate) fn of_record_reserve(alloc: Global, image: &Image) -> Ended {
    match whole_record(alloc, image) {
        Some(mut record) => reserve_ended(&mut record),
        None => Ended::NotMade,
    }
}

fn clone_ended(record: &Recorded<2>) -> Ended {
    match record.try_clone() {
        Ok(clone) => Ended::answered(is_whole(&clone, 0) && clone.spare() == 0),
        Err(AllocError) => Ended::refused(is_whole(record, 1)),
    }
}

pub(crate) fn of_record_clone(alloc: Global, image: &Image) -> Ended {
    match whole_record(alloc, image) {
        Some(record) => clone_ended(&record),
        None => Ended::NotMade,
    }
}

/// Whether they are five steps of stream 3, with this room.
fn are_five(steps: &Steps, room: usize) -> bool {
    (steps.len(), steps.get(4), steps.spare()) == (5, Some(3), room)
}

pub(crate) fn of_steps_reserve(alloc: Global) -> Ended {
    let mut steps = Steps::of_run(alloc, 3, 5);
    match steps.reserve(100) {
        Ok(()) => Ended::answered(are_five(&steps, 100)),
        Err(_) => Ended::refused(are_five(&steps, 0)),
    }
}

/// Whether it has the program's second word, no entry, and this room.
fn is_new(shared: &SharedMemory, room: usize) -> bool {
    (shared.spare(), shared.entries().len()) == (room, 0)
        && shared.word(8) == Word::from_number(6, 1)
}

pub(crate) fn of_shared_memory(alloc: Global, image: &Image) -> Ended {
    match SharedMemory::new(alloc, image, 4) {
        Ok(shared) => Ended::answered(is_new(&shared, 4)),
        Err(AllocError) => Ended::Refused,
    }
}

pub(crate) fn of_parts(alloc: Global, image: &Image) -> Ended {
    match Parts::<2>::new(alloc, image, FUEL) {
        Ok(parts) => Ended::answered(
            (parts.fuel(), parts.records().len()) == (FUEL, 2) && is_new(parts.shared(), 2 * FUEL),
        ),
        Err(fault) => Ended::refused(matches!(fault, PartsFault::NoMemory)),
    }
}
