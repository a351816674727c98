//! A schedule that is gathered of two records and a history, made by hand.
use crate::records::step;
use crate::sources::image_of;
use image_file::Image;
use processor::{Recorded, Step};
use shared_history::{Parts, SharedMemory, Woven, gather};
use std::alloc::Global;
use tag_memory::{Reply, Word};

/// Processor 0 adds 1 to word 0, which holds 5, and then what it read; processor 1 writes 7 to it, and waits for word 1.
const TWO: &str =
    ".slim 1\n.entry 0\n.entry 4\nLIT r1, 1\nFADD.N r1, r0, 0\nFADD.N r1, r0, 0\nQUIT\n\
    LIT r1, 7\nSTORE.N r1, r0, 0\nLOAD.S r2, r0, 1\n.data 5\n.data 0, 0\n";

/// The processors that step: 5 and 1 are 6, then 7 is written, and 7 and 5 are 12.
const TURNS: [usize; 8] = [1, 0, 0, 1, 0, 1, 0, 1];

/// The same steps in the order of the history: before each request the steps of its processor, and at last the others.
const SCHEDULE: [Step; 8] = [
    Step { p: 0, s: 0 },
    Step { p: 0, s: 0 },
    Step { p: 1, s: 0 },
    Step { p: 1, s: 0 },
    Step { p: 0, s: 0 },
    Step { p: 1, s: 0 },
    Step { p: 1, s: 0 },
    Step { p: 0, s: 0 },
];

/// The replies of the history.
const REPLIES: [Reply; 5] = [
    Reply::Done(5),
    Reply::Done(0),
    Reply::Done(7),
    Reply::Blocked(8),
    Reply::Blocked(8),
];

fn take_turn(shared: &mut SharedMemory, records: &mut [Recorded<1>], p: usize) {
    if let Some(record) = records.get_mut(p) {
        step(shared, record);
    }
}

fn after_turns<'i>(parts: Parts<'i, 1>) -> Parts<'i, 1> {
    let (fuel, mut shared, mut records) = parts.into_parts();
    for p in TURNS {
        take_turn(&mut shared, &mut records, p);
    }
    Parts::of(fuel, shared, records)
}

/// What is gathered of four steps of each processor.
fn woven_of(alloc: Global, image: &Image) -> Option<Woven<1>> {
    let parts = Parts::new(alloc, image, 4).ok()?;
    gather(alloc, after_turns(parts)).ok()
}

fn has_the_schedule(woven: &Woven<1>) -> bool {
    woven.schedule() == SCHEDULE.as_slice()
}

fn has_the_replies(woven: &Woven<1>) -> bool {
    let replies = woven.history().iter().map(|entry| entry.reply);
    replies.eq(REPLIES)
}

fn has_the_words(woven: &Woven<1>) -> bool {
    woven.word(0) == Word::from_number(12, 1) && woven.word(8) == Word::from_number(0, 0)
}

fn has_the_counts(woven: &Woven<1>) -> bool {
    woven.counts(0) == Some((0, 0)) && woven.counts(1) == Some((1, 1))
}

/// Whether the schedule alone is the same.
fn ends_with_the_schedule(woven: Woven<1>) -> bool {
    woven.into_schedule().as_slice() == SCHEDULE.as_slice()
}

fn is_right(woven: Woven<1>) -> bool {
    has_the_schedule(&woven)
        && has_the_replies(&woven)
        && has_the_words(&woven)
        && has_the_counts(&woven)
        && ends_with_the_schedule(woven)
}

fn is_gathered(alloc: Global, image: &Image) -> bool {
    match woven_of(alloc, image) {
        Some(woven) => is_right(woven),
        None => false,
    }
}

#[test]
fn the_schedule_keeps_the_order_of_the_history(rt: HostRuntime) {
    let image = image_of(rt.alloc(), TWO);
    let is_gathered = match &image {
        Some(image) => is_gathered(rt.alloc(), image),
        None => false,
    };
    assert!(rt; is_gathered);
}
