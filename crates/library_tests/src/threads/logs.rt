//! What is reported to a gate while a processor is driven.
ghost use Rattle.std.specs.Prelude.{None};

use super::logs::Kind::{After, Ask, Before, Local};
use super::runs::{image_of, is_driven, record_of};
use memory_lock::{Gate, NoRoom, Port};
use std::alloc::Global;
use std::sync::{Mutex, Wait};
use tag_memory::{Reply, Request};

/// Processor 0 ends at once. In processor 1 stream 0 starts stream 1, which stores; then stream 0 loads, and both end.
const OF_TWO_STREAMS: &str =
    ".slim 2\n.entry q\n.entry 0\nLIT r1, 1\nRESERVE r2, r1\nTLIT t1, c\nCREATE t1, r1\n\
    LOAD.S r3, r0, 0\nq: QUIT\nc: STORE.S r1, r0, 0\nQUIT\n.data 0, 0\n";

/// What happened: a call of the gate, or of the port.
#[derive(Clone, Copy, Debug, PartialEq, Eq)]
pub(super) enum Kind {
    Local,
    Before,
    Ask,
    After,
}

/// For which processor and stream it was.
#[derive(Clone, Copy, Debug, PartialEq, Eq)]
pub(super) struct Call {
    pub(super) kind: Kind,
    pub(super) p: u8,
    pub(super) s: u8,
}

/// All that happened, in order.
#[derive(Drop)]
pub(super) struct Log {
    calls: Mutex<Vec<Call>>,
}

impl Log {
    pub(super) fn new(alloc: Global) -> Log {
        Log {
            calls: Mutex::new(Vec::new(alloc)),
        }
    }

    /// Writes a call down. Where there is no memory it is missing.
    fn note<R: Wait>(&self, rt: &R, kind: Kind, p: u8, s: u8) {
        let mut calls = self.calls.lock(rt);
        let _ = calls.push(Call { kind, p, s });
    }

    fn is(&self, rt: &impl Wait, wanted: &[Call]) -> bool {
        let calls = self.calls.lock(rt);
        calls.as_slice() == wanted
    }

    /// Whether these are the calls for processor `p`, in order.
    pub(super) fn is_of(&self, rt: &impl Wait, p: u8, wanted: &[Call]) -> bool {
        let calls = self.calls.lock(rt);
        calls.iter().filter(|call| call.p == p).eq(wanted)
    }
}

impl Gate for Log {
    fn local<R: Wait>(&self, rt: &R, p: u8, s: u8) {
        self.note(rt, Local, p, s);
    }

    fn before<R: Wait>(&self, rt: &R, p: u8, s: u8) {
        self.note(rt, Before, p, s);
    }

    fn after<R: Wait>(&self, rt: &R, p: u8, s: u8) {
        self.note(rt, After, p, s);
    }
}

/// A port that writes into the gate's log, and answers each request but the one of this number.
#[derive(Drop)]
struct LogPort<'l> {
    log: &'l Log,
    asks: usize,
    refuses: usize,
    refused: bool,
}

impl<'l> Port for LogPort<'l> {
    ghost made = { λ _. None };

    ghost is_refused = { λ port. port.refused };

    fn ask<R: Wait>(&mut self, rt: &R, p: u8, s: u8, _request: &Request) -> Result<Reply, NoRoom> {
        self.log.note(rt, Ask, p, s);
        self.asks = self.asks.saturating_add(1);
        if self.asks == self.refuses {
            self.refused = true;
            return Err(NoRoom);
        }
        Ok(Reply::Done(1))
    }

    fn refused(&self) -> bool {
        self.refused
    }
}

/// Whether processor 1, driven until it is refused or ends, and then, if it is refused, once more, leaves this log.
fn has_log<R: AllocGlobal + Wait>(rt: &R, refuses: usize, wanted: &[Call]) -> Option<bool> {
    let image = image_of(rt.alloc(), OF_TWO_STREAMS, "")?;
    let mut record = record_of(rt.alloc(), &image, 1, 20)?;
    let log = Log::new(rt.alloc());
    let mut port = LogPort {
        log: &log,
        asks: 0,
        refuses,
        refused: false,
    };
    let is_driven = is_driven(rt, &mut record, &mut port, 10, &log)
        || is_driven(rt, &mut record, &mut port, 10, &log);
    Some(is_driven && log.is(rt, wanted))
}

/// What happens where nothing is refused.
const TOLD: [Call; 12] = [
    Call {
        kind: Local,
        p: 1,
        s: 0,
    },
    Call {
        kind: Local,
        p: 1,
        s: 0,
    },
    Call {
        kind: Local,
        p: 1,
        s: 0,
    },
    Call {
        kind: Local,
        p: 1,
        s: 0,
    },
    Call {
        kind: Before,
        p: 1,
        s: 1,
    },
    Call {
        kind: Ask,
        p: 1,
        s: 1,
    },
    Call {
        kind: After,
        p: 1,
        s: 1,
    },
    Call {
        kind: Before,
        p: 1,
        s: 0,
    },
    Call {
        kind: Ask,
        p: 1,
        s: 0,
    },
    Call {
        kind: After,
        p: 1,
        s: 0,
    },
    Call {
        kind: Local,
        p: 1,
        s: 1,
    },
    Call {
        kind: Local,
        p: 1,
        s: 0,
    },
];

/// What happens where the second request is refused, and asked once more.
const TOLD_ONCE_MORE: [Call; 14] = [
    Call {
        kind: Local,
        p: 1,
        s: 0,
    },
    Call {
        kind: Local,
        p: 1,
        s: 0,
    },
    Call {
        kind: Local,
        p: 1,
        s: 0,
    },
    Call {
        kind: Local,
        p: 1,
        s: 0,
    },
    Call {
        kind: Before,
        p: 1,
        s: 1,
    },
    Call {
        kind: Ask,
        p: 1,
        s: 1,
    },
    Call {
        kind: After,
        p: 1,
        s: 1,
    },
    Call {
        kind: Before,
        p: 1,
        s: 0,
    },
    Call {
        kind: Ask,
        p: 1,
        s: 0,
    },
    // refused, and driven once more
    Call {
        kind: Before,
        p: 1,
        s: 0,
    },
    Call {
        kind: Ask,
        p: 1,
        s: 0,
    },
    Call {
        kind: After,
        p: 1,
        s: 0,
    },
    Call {
        kind: Local,
        p: 1,
        s: 1,
    },
    Call {
        kind: Local,
        p: 1,
        s: 0,
    },
];

#[test]
fn a_gate_sees_each_step_and_request_in_order(rt: HostRuntime) {
    for (refuses, wanted) in [(0, TOLD.as_slice()), (2, TOLD_ONCE_MORE.as_slice())] {
        assert!(rt; has_log(&rt, refuses, wanted) == Some(true));
    }
}
