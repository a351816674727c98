//! Runs of all processors at once, and what is gathered of them.
use crate::sources;
use image_file::Image;
use memory_lock::{Gate, Port, Woven, drive, threaded};
use processor::Recorded;
use std::alloc::Global;
use std::sync::Wait;
use std::thread::Threads;
use tag_memory::Word;

/// What a run came to: how many requests and steps it had, how many of the first requests were of processors 0 and 1 in
/// turn, and its second word.
#[derive(Clone, Copy)]
pub(super) struct Came {
    pub(super) requests: usize,
    pub(super) steps: usize,
    pub(super) alternating: usize,
    pub(super) second: Option<Word>,
}

/// The image of a source text in two pieces; none where it has a fault.
pub(super) fn image_of(alloc: Global, head: &str, program: &str) -> Option<Image> {
    let mut source = String::new(alloc);
    source.push_str(head).ok()?;
    source.push_str(program).ok()?;
    sources::image_of(alloc, source.as_str())
}

/// A record of the image's processor of this number, with room for so many steps.
pub(super) fn record_of(
    alloc: Global,
    image: &Image,
    number: u8,
    room: usize,
) -> Option<Recorded<2>> {
    if image.slim() > 2 || usize::from(number) >= image.processors() {
        return None;
    }
    let mut record = Recorded::new(alloc, image, number).ok()?;
    record.reserve(room).ok()?;
    Some(record)
}

/// Whether the record is driven to its end, or to so many steps.
pub(super) fn is_driven<R: Wait, P: Port, G: Gate>(
    rt: &R,
    record: &mut Recorded<2>,
    port: &mut P,
    fuel: usize,
    gate: &G,
) -> bool {
    record.spare() >= fuel && drive(rt, record, port, fuel, gate).is_ok()
}

fn alternating(woven: &Woven<1>) -> usize {
    let mut count = 0usize;
    for entry in woven.history() {
        if usize::from(entry.p) != count % 2 {
            return count;
        }
        count = count.saturating_add(1);
    }
    count
}

fn came_to(woven: &Woven<1>) -> Came {
    Came {
        requests: woven.history().len(),
        steps: woven.schedule().len(),
        alternating: alternating(woven),
        second: woven.word(8),
    }
}

/// What a run of a program came to, whose processors, one for each line of `entries`, have one stream; none where it was
/// refused. Two processors ask in turn, others go through a lock.
pub(super) fn run_under<R: AllocGlobal + Threads + Wait + Sync, G: Gate + Sync>(
    rt: &R,
    entries: &str,
    program: &str,
    fuel: usize,
    gate: &G,
) -> Option<Came> {
    let image = image_of(rt.alloc(), entries, program)?;
    let woven = threaded(rt, rt.alloc(), &image, fuel, gate).ok()?;
    Some(came_to(&woven))
}
