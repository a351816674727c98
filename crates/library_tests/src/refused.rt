//! Parts that are refused, made by hand: what a run through a lock could leave, and no command is known to.
use crate::records::{asked, replied, request_of};
use crate::sources::{WAITING, image_of};
use image_file::Image;
use processor::Recorded;
use shared_history::{GatherFault, Parts, SharedMemory, gather};
use std::alloc::Global;
use tag_memory::Reply;

/// Two processors that each wait.
const TWO: &str = ".slim 1\n.entry 0\n.entry 0\nLOAD.S r3, r0, 0\n.data 0, 0\n";

/// The program of [`WAITING`] with another retry limit.
const OTHER: &str = ".slim 1\n.retry 3\n.trap 2\n.entry 0\nLOAD.S r3, r2, 1\nQUIT\nXGET r4\nQUIT\n\
    .data 0\n.data 0, 0\n";

/// What is done to new parts.
#[derive(Clone, Copy, Debug)]
enum Made {
    /// Nothing.
    New,
    /// The memory is asked, and the record has another reply.
    Torn,
    /// The record has a reply of a memory that was not asked.
    Invented,
    /// The records of the processors change places.
    Swapped,
    /// The record of the last processor is left out.
    Shortened,
}

impl Made {
    fn make(self, shared: &mut SharedMemory, records: &mut Vec<Recorded<1>>) {
        match self {
            Made::New => {}
            Made::Torn => tear(shared, records),
            Made::Invented => invent(records),
            Made::Swapped => records.reverse(),
            Made::Shortened => {
                records.pop();
            }
        }
    }
}

fn tear(shared: &mut SharedMemory, records: &mut [Recorded<1>]) {
    if let Some(request) = records.first().and_then(request_of) {
        asked(shared, 0, &request);
        invent(records);
    }
}

fn invent(records: &mut [Recorded<1>]) {
    if let Some(record) = records.first_mut() {
        replied(record, Reply::Done(9));
    }
}

/// The fault of the parts; `Some(None)` where they are gathered.
fn fault_of(alloc: Global, parts: Parts<1>) -> Option<Option<GatherFault>> {
    match gather(alloc, parts) {
        Ok(_) => Some(None),
        Err((_, fault)) => Some(Some(fault)),
    }
}

/// The fault of what is made of the new parts of a program's run.
fn fault_of_made(
    alloc: Global,
    source: &str,
    fuel: usize,
    made: Made,
) -> Option<Option<GatherFault>> {
    let image = image_of(alloc, source)?;
    let parts = Parts::<1>::new(alloc, &image, fuel).ok()?;
    let (fuel, mut shared, mut records) = parts.into_parts();
    made.make(&mut shared, &mut records);
    fault_of(alloc, Parts::of(fuel, shared, records))
}

#[test]
fn the_first_fault_of_the_least_processor(rt: HostRuntime) {
    for (source, fuel, made, fault) in [
        (WAITING, 0, Made::New, None),
        (WAITING, 1, Made::New, Some(GatherFault::Short(0))),
        (WAITING, 1, Made::Torn, Some(GatherFault::Torn(0))),
        (WAITING, 1, Made::Invented, Some(GatherFault::Torn(0))),
        (WAITING, 2, Made::Torn, Some(GatherFault::Short(0))),
        (TWO, 1, Made::Torn, Some(GatherFault::Short(1))),
        (TWO, 1, Made::Swapped, Some(GatherFault::Foreign(0))),
        (TWO, 1, Made::Shortened, Some(GatherFault::Foreign(1))),
    ] {
        let found = fault_of_made(rt.alloc(), source, fuel, made);
        assert!(rt; found == Some(fault), "{made:?} {fuel}");
    }
}

/// The fault of the memory of one program beside the records of another.
fn fault_of_both(alloc: Global, source: &str, other: &str) -> Option<Option<GatherFault>> {
    let image = image_of(alloc, source)?;
    let other = image_of(alloc, other)?;
    fault_of_images(alloc, &image, &other)
}

fn fault_of_images<'i>(
    alloc: Global,
    image: &'i Image,
    other: &'i Image,
) -> Option<Option<GatherFault>> {
    let shared = SharedMemory::new(alloc, image, 0).ok()?;
    let parts = Parts::<1>::new(alloc, other, 0).ok()?;
    fault_of(alloc, with_memory(parts, shared))
}

/// The parts with another memory.
fn with_memory<'i>(parts: Parts<'i, 1>, shared: SharedMemory<'i>) -> Parts<'i, 1> {
    let (fuel, _, records) = parts.into_parts();
    Parts::of(fuel, shared, records)
}

#[test]
fn images_are_compared_whole(rt: HostRuntime) {
    let foreign = Some(GatherFault::Foreign(0));
    assert!(rt; fault_of_both(rt.alloc(), WAITING, OTHER) == Some(foreign));
    // an equal image in another place is the same
    assert!(rt; fault_of_both(rt.alloc(), WAITING, WAITING) == Some(None));
}
