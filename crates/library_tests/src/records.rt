//! Records that take steps by hand.
use crate::sources::{WAITING, image_of};
use image_file::Image;
use processor::{Next, Recorded};
use shared_history::SharedMemory;
use std::alloc::Global;
use tag_memory::{Reply, Request};

/// A step of a stream, whose request the memory answers. Whether there was one.
pub(crate) fn step(shared: &mut SharedMemory, record: &mut Recorded<1>) -> bool {
    match needs(record) {
        Next::Skip => false,
        Next::Local => takes(record),
        Next::Ask(request) => match asked(shared, record.number(), &request) {
            Some(reply) => replied(record, reply),
            None => false,
        },
    }
}

/// What the next step of stream 0 needs, where there is room for it.
fn needs(record: &Recorded<1>) -> Next {
    if record.spare() == 0 {
        return Next::Skip;
    }
    record.next(0)
}

/// Whether the step is taken, where it is local.
fn takes(record: &mut Recorded<1>) -> bool {
    if record.spare() == 0 || record.next(0) != Next::Local {
        return false;
    }
    record.step_local(0);
    true
}

/// Whether the step is taken with this reply, whatever the memory says.
pub(crate) fn replied(record: &mut Recorded<1>, reply: Reply) -> bool {
    if record.spare() == 0 {
        return false;
    }
    let Next::Ask(request) = record.next(0) else {
        return false;
    };
    record.step_reply(0, &request, reply);
    true
}

/// The request of the next step, if it has one.
pub(crate) fn request_of(record: &Recorded<1>) -> Option<Request> {
    match record.next(0) {
        Next::Ask(request) => Some(request),
        Next::Skip | Next::Local => None,
    }
}

/// What the memory replies to the processor, where it is one and there is room.
pub(crate) fn asked(shared: &mut SharedMemory, p: u8, request: &Request) -> Option<Reply> {
    if usize::from(p) >= shared.image().processors() {
        return None;
    }
    shared.ask(p, 0, request).ok()
}

/// A record of the image's first processor, with room for two steps.
fn record_of(alloc: Global, image: &Image) -> Option<Recorded<1>> {
    if image.slim() != 1 || image.processors() != 1 {
        return None;
    }
    let mut record = Recorded::new(alloc, image, 0).ok()?;
    record.reserve(2).ok()?;
    Some(record)
}

fn clone_of<'i>(record: &Recorded<'i, 1>) -> Option<Recorded<'i, 1>> {
    record.try_clone().ok()
}

fn has_room(record: &mut Recorded<1>) -> bool {
    record.reserve(1).is_ok()
}

/// How many steps and pairs there are.
fn counts(record: &Recorded<1>) -> (usize, usize) {
    (record.steps().len(), record.pairs().len())
}

fn are_streams_same(one: &Recorded<1>, other: &Recorded<1>) -> bool {
    one.stream(0).copied() == other.stream(0).copied()
}

/// Whether the third step has the third pair.
fn ends_with_its_pair(record: &Recorded<1>) -> bool {
    record.steps().get(2) == Some(0) && record.place(2) == Some(2)
}

const BLOCKED: Reply = Reply::Blocked(8);

fn do_records_go(record: &mut Recorded<1>, clone: &mut Recorded<1>) -> bool {
    clone.spare() == 0
        && counts(clone) == (2, 2)
        && has_room(record)
        && replied(record, BLOCKED)
        && counts(clone) == (2, 2)
        && !are_streams_same(record, clone)
        && has_room(clone)
        && replied(clone, BLOCKED)
        && are_streams_same(record, clone)
        && (counts(record), counts(clone)) == ((3, 3), (3, 3))
        && ends_with_its_pair(record)
        && ends_with_its_pair(clone)
}

fn does_a_record_go(alloc: Global, image: &Image) -> Option<bool> {
    let mut record = record_of(alloc, image)?;
    let is_blocked = is_blocked_twice(&mut record);
    let mut clone = clone_of(&record)?;
    Some(is_blocked && do_records_go(&mut record, &mut clone))
}

fn is_blocked_twice(record: &mut Recorded<1>) -> bool {
    replied(record, BLOCKED) && replied(record, BLOCKED)
}

#[test]
fn a_clone_goes_on_by_itself(rt: HostRuntime) {
    let image = image_of(rt.alloc(), WAITING);
    let goes = match &image {
        Some(image) => does_a_record_go(rt.alloc(), image),
        None => None,
    };
    assert!(rt; goes == Some(true));
}
