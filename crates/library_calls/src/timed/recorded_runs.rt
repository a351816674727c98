//! Recorded steps of a loop, and the schedule that is gathered of them.
use crate::timed::loops::{ARITHMETIC, EACH_THIRD, PROCESSORS, STEPS, TWO_STREAMS, image_of};
use image_file::Image;
use processor::{Next, Recorded};
use shared_history::{Parts, SharedMemory, gather};
use std::alloc::Global;
use tag_memory::{Reply, Request};

/// The steps of the first stream of two before the other is there.
const BEGINNING: usize = 4;

/// Whose turn it is on each processor.
#[derive(Clone, Copy)]
pub(crate) enum Turning {
    /// Stream 0 runs alone.
    Alone,
    /// Stream 0 and stream 1 in turn, so that no two steps that follow each other are of one stream.
    Alternating,
    /// Stream 0 runs alone on one processor, and asks nothing.
    Local,
}

impl Turning {
    fn image(self, alloc: Global) -> Option<Image> {
        match self {
            Turning::Alone => image_of(alloc, PROCESSORS, 1, &EACH_THIRD, 1),
            Turning::Alternating => image_of(alloc, PROCESSORS, 2, &TWO_STREAMS, 1),
            Turning::Local => image_of(alloc, 1, 1, &ARITHMETIC, 1),
        }
    }

    /// The steps of each processor; all take 1,000,000.
    fn fuel(self) -> usize {
        match self {
            Turning::Alone | Turning::Alternating => STEPS / PROCESSORS,
            Turning::Local => STEPS,
        }
    }

    /// The stream that takes this step.
    fn stream(self, step: usize) -> u8 {
        match self {
            Turning::Alternating if step >= BEGINNING => (step % 2) as u8,
            Turning::Alone | Turning::Alternating | Turning::Local => 0,
        }
    }
}

/// Whose turn it is by this name.
pub(crate) fn turning_of(name: &str) -> Turning {
    match name {
        "alternating" => Turning::Alternating,
        "local" => Turning::Local,
        _ => Turning::Alone,
    }
}

/// Records so many runs, and gathers them or not; gives the number of steps and entries of each.
pub(crate) fn record_rounds(
    alloc: Global,
    turning: Turning,
    is_gathered: bool,
    rounds: u32,
) -> Option<usize> {
    let Some(image) = turning.image(alloc) else {
        return None;
    };
    let mut count = Some(0);
    for _ in 0..rounds {
        count = round(alloc, &image, turning, is_gathered);
    }
    count
}

/// Records a run, and gathers it or not.
fn round(alloc: Global, image: &Image, turning: Turning, is_gathered: bool) -> Option<usize> {
    match recorded(alloc, image, turning) {
        Some(parts) if is_gathered => gathered_count(alloc, parts),
        Some(parts) => Some(count_of(&parts)),
        None => None,
    }
}

/// The number of steps and entries of parts that are gathered.
fn gathered_count(alloc: Global, parts: Parts<8>) -> Option<usize> {
    let count = count_of(&parts);
    match gather(alloc, parts) {
        Ok(woven) => Some(count.max(woven.schedule().len())),
        Err(_) => None,
    }
}

fn count_of(parts: &Parts<8>) -> usize {
    let mut count = parts.shared().entries().len();
    for record in parts.records() {
        count = count.saturating_add(record.steps().len());
    }
    count
}

/// Parts whose processors took their steps in turn.
fn recorded<'i>(alloc: Global, image: &'i Image, turning: Turning) -> Option<Parts<'i, 8>> {
    match Parts::new(alloc, image, turning.fuel()) {
        Ok(parts) => Some(stepped(parts, turning)),
        Err(_) => None,
    }
}

fn stepped<'i>(parts: Parts<'i, 8>, turning: Turning) -> Parts<'i, 8> {
    let (fuel, mut shared, mut records) = parts.into_parts();
    for step in 0..fuel {
        take_steps(&mut shared, &mut records, turning.stream(step));
    }
    Parts::of(fuel, shared, records)
}

/// A step of stream `s` of each processor.
fn take_steps(shared: &mut SharedMemory, records: &mut [Recorded<8>], s: u8) {
    for record in records {
        take_step(shared, record, s);
    }
}

/// A step of stream `s`, where there is room for it.
fn take_step(shared: &mut SharedMemory, record: &mut Recorded<8>, s: u8) {
    if record.spare() == 0 {
        return;
    }
    match record.next_short(s) {
        Some(short) => {
            record.finish_short(s, &short);
        }
        None => take_long_step(shared, record, s),
    }
}

/// The same of a step that has no short form.
fn take_long_step(shared: &mut SharedMemory, record: &mut Recorded<8>, s: u8) {
    if record.spare() == 0 {
        return;
    }
    let step = record.next_step(s);
    match &step.next {
        Next::Skip => {}
        Next::Local => {
            record.finish_local(s, &step);
        }
        Next::Ask(request) => {
            if let Some(reply) = asked(shared, record.number(), s, request) {
                record.finish_reply(s, &step, request, reply);
            }
        }
    }
}

/// What the memory replies, where it has room for an entry.
fn asked(shared: &mut SharedMemory, p: u8, s: u8, request: &Request) -> Option<Reply> {
    if usize::from(p) >= shared.image().processors() {
        return None;
    }
    match shared.ask(p, s, request) {
        Ok(reply) => Some(reply),
        Err(_) => None,
    }
}
