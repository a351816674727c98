//! Gates that pass only where processors step at once, and where local steps take no lock.
use super::runs::{Came, run_under};
use super::turns::Turns;
use memory_lock::Gate;
use std::sync::Wait;
use std::sync::atomic::{AtomicUsize, Ordering};
use std::thread::Threads;
use std::time::Clock;

/// A processor that begins at 0 asks twice; one that begins at `q` ends at once.
const ASKING: &str = "FADD.N r1, r0, 0\nFADD.N r1, r0, 0\nq: QUIT\n.data 0\n";

/// A processor that begins at 0 takes local steps alone, one that begins at `c` asks, and one that begins at `q` ends at
/// once.
const LOCAL: &str = "LIT r1, 1\nq: QUIT\nc: FADD.N r1, r0, 0\nQUIT\n.data 0\n";

/// Before its second request each of two processors waits until the other stands before its own second request.
#[derive(Drop)]
struct TwoWayGate<'c, C: Clock> {
    turns: Turns<'c, C>,
    first: AtomicUsize,
    second: AtomicUsize,
}

impl<'c, C: Clock> Gate for TwoWayGate<'c, C> {
    fn local<R: Wait>(&self, _rt: &R, _p: u8, _s: u8) {}

    fn before<R: Wait>(&self, _rt: &R, p: u8, _s: u8) {
        let (own, other) = if p == 0 {
            (&self.first, &self.second)
        } else {
            (&self.second, &self.first)
        };
        if own.fetch_add(1, Ordering::SeqCst) == 1 {
            self.turns.until(other, 2);
        }
    }

    fn after<R: Wait>(&self, _rt: &R, _p: u8, _s: u8) {}
}

/// What a run came to, and whether a processor waited in vain.
fn met<R: AllocGlobal + Clock + Threads + Wait + Sync>(
    rt: &R,
    entries: &str,
) -> (Option<Came>, bool) {
    let gate = TwoWayGate {
        turns: Turns::new(rt),
        first: AtomicUsize::new(0),
        second: AtomicUsize::new(0),
    };
    let came = run_under(rt, entries, ASKING, 3, &gate);
    (came, gate.turns.ran_out())
}

/// Whether a run came to so many requests and steps, and a processor waited in vain where it had to.
fn has_come(run: (Option<Came>, bool), requests: usize, steps: usize, in_vain: bool) -> bool {
    let (came, ran_out) = run;
    match came {
        Some(came) => (came.requests, came.steps, ran_out) == (requests, steps, in_vain),
        None => false,
    }
}

#[test]
fn processors_step_at_once(rt: HostRuntime) {
    // in turn, and, with a third processor, through the lock
    for (entries, steps) in [
        (".slim 1\n.entry 0\n.entry 0\n", 6),
        (".slim 1\n.entry 0\n.entry 0\n.entry q\n", 7),
    ] {
        assert!(rt; has_come(met(&rt, entries), 4, steps, false));
    }
    // one alone waits until its gate gives up, and then goes on to its end
    assert!(rt; has_come(met(&rt, ".slim 1\n.entry 0\n"), 2, 3, true));
}

/// Processor 1 waits before its request until processor 0 takes a local step, and that local step until processor 1
/// has its reply.
#[derive(Drop)]
struct LocalGate<'c, C: Clock> {
    turns: Turns<'c, C>,
    locals: AtomicUsize,
    replies: AtomicUsize,
}

impl<'c, C: Clock> Gate for LocalGate<'c, C> {
    fn local<R: Wait>(&self, _rt: &R, p: u8, _s: u8) {
        if p == 0 && self.locals.fetch_add(1, Ordering::SeqCst) == 0 {
            self.turns.until(&self.replies, 1);
        }
    }

    fn before<R: Wait>(&self, _rt: &R, p: u8, _s: u8) {
        if p == 1 {
            self.turns.until(&self.locals, 1);
        }
    }

    fn after<R: Wait>(&self, _rt: &R, p: u8, _s: u8) {
        if p == 1 {
            self.replies.fetch_add(1, Ordering::SeqCst);
        }
    }
}

/// What a run came to, and whether a processor waited in vain.
fn stepped_locally<R: AllocGlobal + Clock + Threads + Wait + Sync>(
    rt: &R,
    entries: &str,
) -> (Option<Came>, bool) {
    let gate = LocalGate {
        turns: Turns::new(rt),
        locals: AtomicUsize::new(0),
        replies: AtomicUsize::new(0),
    };
    let came = run_under(rt, entries, LOCAL, 2, &gate);
    (came, gate.turns.ran_out())
}

#[test]
fn a_local_step_holds_no_lock(rt: HostRuntime) {
    // in turn, and, with a third processor, through the lock
    for (entries, steps) in [
        (".slim 1\n.entry 0\n.entry c\n", 4),
        (".slim 1\n.entry 0\n.entry c\n.entry q\n", 5),
    ] {
        assert!(rt; has_come(stepped_locally(&rt, entries), 1, steps, false));
    }
}
