//! How many requests a memory has room for, of which processors, and of which streams.
use super::runs::image_of;
use image_file::Image;
use memory_lock::{FreeGate, LockPort, Parts, Port, SharedMemory, run_threads};
use processor::Entry;
use std::alloc::Global;
use std::sync::{Mutex, Wait};
use std::thread::Threads;
use tag_memory::{Acc, MemOp, Pointer, Reply, Request, RequestMask};

/// A processor that begins at 0 asks twice; one that begins at `q` ends at once.
pub(super) const ASKING: &str = "FADD.N r1, r0, 0\nFADD.N r1, r0, 0\nq: QUIT\n.data 0\n";

/// In a processor that begins at 0, stream 0 starts all others, each of the 128 waits 400 steps, by when all are started,
/// and adds once: 51,968 steps. One that begins at `q` ends at once.
const EACH_STREAM: &str =
    "LIT r1, 127\nRESERVE r2, r1\nTLIT t1, c\nCREATE t1, r1\nSUB.T r1, r1, 1\nSKIP NE, 0, -3\n\
    c: LIT r3, 200\nSUB.T r3, r3, 1\nSKIP NE, 0, -2\nFADD.N r1, r0, 0\nq: QUIT\n.data 0\n";

fn has_asked(entries: &[Entry], p: u8, s: u8) -> bool {
    for entry in entries {
        if entry.p == p && entry.s == s {
            return true;
        }
    }
    false
}

fn has_each_asked(entries: &[Entry]) -> bool {
    for s in 0..128u8 {
        if !has_asked(entries, 0, s) || !has_asked(entries, 1, s) {
            return false;
        }
    }
    true
}

/// How many requests there were, and whether each of the 128 streams of processors 0 and 1 asked.
fn asked_by_each<R: AllocGlobal + Threads + Wait + Sync>(
    rt: &R,
    entries: &str,
) -> Option<(usize, bool)> {
    let image = image_of(rt.alloc(), entries, EACH_STREAM)?;
    let parts = Parts::<128>::new(rt.alloc(), &image, 51_968).ok()?;
    let parts = run_threads(rt, parts, &FreeGate);
    let history = parts.shared().entries();
    Some((history.len(), has_each_asked(history)))
}

#[test]
fn each_stream_may_ask(rt: HostRuntime) {
    for entries in [
        ".slim 128\n.entry 0\n.entry 0\n",
        ".slim 128\n.entry 0\n.entry 0\n.entry q\n",
    ] {
        assert!(rt; asked_by_each(&rt, entries) == Some((256, true)));
    }
}

/// Adds 3 to word 0.
pub(super) fn request() -> Request {
    Request {
        pointer: Pointer::new(0),
        value: 3,
        op: MemOp::Fadd,
        acc: Acc::Normal,
        masked: RequestMask {
            trap0: false,
            trap1: false,
        },
    }
}

/// Whether a port through the lock of a memory with room for one entry answers so to a request of processor `p`.
fn answers<R: AllocGlobal + Wait>(
    rt: &R,
    image: &Image,
    asks: &[(u8, Option<Reply>)],
) -> Option<bool> {
    let memory = Mutex::new(SharedMemory::new(rt.alloc(), image, 1).ok()?);
    let mut port = LockPort::new(&memory);
    let mut is_so = !port.refused();
    for (p, wanted) in asks {
        let was_refused = port.refused();
        let reply = port.ask(rt, *p, 5, &request()).ok();
        is_so = is_so && reply == *wanted && port.refused() == (was_refused || wanted.is_none());
    }
    Some(is_so)
}

/// The image of two processors, and what a port to its memory answers.
fn answers_so<R: AllocGlobal + Wait>(rt: &R, asks: &[(u8, Option<Reply>)]) -> Option<bool> {
    let image = image_of(rt.alloc(), ".slim 1\n.entry 0\n.entry 0\n", ASKING)?;
    answers(rt, &image, asks)
}

/// No processor 2: nothing is asked, and the room is left; then the one place is taken.
const ASKS: [(u8, Option<Reply>); 5] = [
    (2, None),
    (255, None),
    (1, Some(Reply::Done(0))),
    (1, None),
    (0, None),
];

#[test]
fn a_port_through_a_lock_is_refused_at_its_limits(rt: HostRuntime) {
    assert!(rt; answers_so(&rt, &ASKS) == Some(true));
}
