//! What is reported to the gate of the command `threads`.
use super::logs::Kind::{After, Before, Local};
use super::logs::{Call, Log};
use super::runs::image_of;
use image_file::write_image;
use mta_engines::threads_engine;
use std::sync::Wait;
use std::thread::Threads;

/// In a processor that begins at 0, stream 0 starts stream 1, which stores; then stream 0 loads, and both end. One that
/// begins at `q` ends at once.
const OF_TWO_STREAMS: &str =
    "LIT r1, 1\nRESERVE r2, r1\nTLIT t1, c\nCREATE t1, r1\nLOAD.S r3, r0, 0\nq: QUIT\n\
    c: STORE.S r1, r0, 0\nQUIT\n.data 0, 0\n";

/// All that is reported to a gate of processor 0 if it begins at 0.
const OF_ZERO: [Call; 10] = [
    Call {
        kind: Local,
        p: 0,
        s: 0,
    },
    Call {
        kind: Local,
        p: 0,
        s: 0,
    },
    Call {
        kind: Local,
        p: 0,
        s: 0,
    },
    Call {
        kind: Local,
        p: 0,
        s: 0,
    },
    Call {
        kind: Before,
        p: 0,
        s: 1,
    },
    Call {
        kind: After,
        p: 0,
        s: 1,
    },
    Call {
        kind: Before,
        p: 0,
        s: 0,
    },
    Call {
        kind: After,
        p: 0,
        s: 0,
    },
    Call {
        kind: Local,
        p: 0,
        s: 1,
    },
    Call {
        kind: Local,
        p: 0,
        s: 0,
    },
];

/// The same of processor 1.
const OF_ONE: [Call; 10] = [
    Call {
        kind: Local,
        p: 1,
        s: 0,
    },
    Call {
        kind: Local,
        p: 1,
        s: 0,
    },
    Call {
        kind: Local,
        p: 1,
        s: 0,
    },
    Call {
        kind: Local,
        p: 1,
        s: 0,
    },
    Call {
        kind: Before,
        p: 1,
        s: 1,
    },
    Call {
        kind: After,
        p: 1,
        s: 1,
    },
    Call {
        kind: Before,
        p: 1,
        s: 0,
    },
    Call {
        kind: After,
        p: 1,
        s: 0,
    },
    Call {
        kind: Local,
        p: 1,
        s: 1,
    },
    Call {
        kind: Local,
        p: 1,
        s: 0,
    },
];

/// What is reported to it of processor 0 if that ends at once.
const ENDING: [Call; 1] = [Call {
    kind: Local,
    p: 0,
    s: 0,
}];

/// Whether the engine runs the program of these processors, and reports to its gate just these calls for processor 0,
/// and for processor 1.
fn reports_just<R: AllocGlobal + Threads + Wait + Sync>(
    rt: &R,
    head: &str,
    zero: &[Call],
    one: &[Call],
) -> Option<bool> {
    let image = image_of(rt.alloc(), head, OF_TWO_STREAMS)?;
    let bytes = write_image(rt.alloc(), &image).ok()?;
    let log = Log::new(rt.alloc());
    Some(is_run(rt, &bytes, &log) && log.is_of(rt, 0, zero) && log.is_of(rt, 1, one))
}

/// Whether the engine runs an image.
fn is_run<R: AllocGlobal + Threads + Wait + Sync>(rt: &R, mut bytes: &[u8], gate: &Log) -> bool {
    let mut schedule = Vec::new(rt.alloc());
    let mut report = Vec::new(rt.alloc());
    threads_engine(
        rt,
        rt.alloc(),
        &mut bytes,
        9,
        gate,
        &mut schedule,
        &mut report,
    )
    .is_ok()
}

#[test]
fn the_engine_hands_on_its_gate(rt: HostRuntime) {
    // with room for 8 streams, and for more; in turn with another processor
    for (head, zero, one) in [
        (".slim 2\n.entry 0\n", OF_ZERO.as_slice(), [].as_slice()),
        (".slim 9\n.entry 0\n", OF_ZERO.as_slice(), [].as_slice()),
        (
            ".slim 2\n.entry q\n.entry 0\n",
            ENDING.as_slice(),
            OF_ONE.as_slice(),
        ),
    ] {
        assert!(rt; reports_just(&rt, head, zero, one) == Some(true));
    }
}
