//! A processor driven through ports that no thread shares.
ghost use Rattle.std.specs.Prelude.{None};

use super::runs::{image_of, is_driven, record_of};
use image_file::Image;
use memory_lock::{FreeGate, LockPort, NoRoom, Port, SharedMemory};
use processor::Recorded;
use std::sync::{Mutex, Wait};
use tag_memory::{Reply, Request};

/// Adds, and adds what it read.
const ADDING: &str = "LIT r1, 2\nFADD.N r1, r0, 0\nADD r1, r1, 1\nFADD.N r1, r0, 0\n\
    FADD.N r1, r0, 0\nQUIT\n.data 5\n";

/// A port that replies as its table says, and refuses where that says none, and past its end.
#[derive(Drop)]
struct TablePort<'t> {
    replies: &'t [Option<Reply>],
    refused: bool,
}

impl<'t> Port for TablePort<'t> {
    ghost made = { λ _. None };

    ghost is_refused = { λ port. port.refused };

    fn ask<R: Wait>(
        &mut self,
        _rt: &R,
        _p: u8,
        _s: u8,
        _request: &Request,
    ) -> Result<Reply, NoRoom> {
        let Some((first, rest)) = self.replies.split_first() else {
            self.refused = true;
            return Err(NoRoom);
        };
        self.replies = rest;
        if first.is_none() {
            self.refused = true;
        }
        first.ok_or(NoRoom)
    }

    fn refused(&self) -> bool {
        self.refused
    }
}

/// How many steps and pairs there are, what register 1 of stream 0 holds, and whether a stream runs.
fn seen(record: &Recorded<2>) -> (usize, usize, Option<u64>, bool) {
    let register = match record.stream(0) {
        Some(stream) => stream.reg(1),
        None => None,
    };
    (
        record.steps().len(),
        record.pairs().len(),
        register,
        record.any_running(),
    )
}

/// Whether a drive is refused after the first two requests, and a later one through the same port asks again and goes
/// on to the end.
fn goes_on<R: AllocGlobal + Wait>(rt: &R, image: &Image) -> Option<bool> {
    let mut record = record_of(rt.alloc(), image, 0, 18)?;
    let mut port = TablePort {
        replies: &[
            Some(Reply::Done(5)),
            Some(Reply::Done(7)),
            None,
            Some(Reply::Blocked(0)),
            Some(Reply::Done(14)),
        ],
        refused: false,
    };
    // r1 is 5, and 5 + 1; then 7
    let is_refused = !is_driven(rt, &mut record, &mut port, 9, &FreeGate)
        && port.refused
        && seen(&record) == (4, 2, Some(7), true);
    let is_ended = is_driven(rt, &mut record, &mut port, 9, &FreeGate)
        && port.replies.is_empty()
        && seen(&record) == (7, 4, Some(0), false);
    Some(is_refused && is_ended)
}

#[test]
fn a_refused_request_ends_a_drive_and_is_asked_again(rt: HostRuntime) {
    let image = image_of(rt.alloc(), ".slim 1\n.entry 0\n", ADDING);
    let goes = match &image {
        Some(image) => goes_on(&rt, image),
        None => None,
    };
    assert!(rt; goes == Some(true));
}

/// What a drive leaves if the memory in a lock has no room for an entry.
fn left_without_room<R: AllocGlobal + Wait>(
    rt: &R,
    image: &Image,
) -> Option<(usize, usize, Option<u64>, bool)> {
    let mut record = record_of(rt.alloc(), image, 0, 18)?;
    let memory = Mutex::new(SharedMemory::new(rt.alloc(), image, 0).ok()?);
    let mut port = LockPort::new(&memory);
    if is_driven(rt, &mut record, &mut port, 9, &FreeGate) || !port.refused() {
        return None;
    }
    Some(seen(&record))
}

#[test]
fn a_memory_without_room_ends_a_drive(rt: HostRuntime) {
    let image = image_of(rt.alloc(), ".slim 1\n.entry 0\n", ADDING);
    let left = match &image {
        Some(image) => left_without_room(&rt, image),
        None => None,
    };
    assert!(rt; left == Some((1, 0, Some(2), true)));
}
