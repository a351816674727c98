//! A producer and a consumer over one full/empty word, whose requests alternate.
use super::runs::{Came, run_under};
use super::turns::Turns;
use memory_lock::Gate;
use std::sync::Wait;
use std::sync::atomic::{AtomicUsize, Ordering};
use std::thread::Threads;
use std::time::Clock;
use tag_memory::Word;

/// Processor 0 puts 1 to 10 into word 0, one after the other; processor 1 takes them, adds them up, and stores the
/// sum in word 1. A processor that begins at `q` ends at once.
const PUT_AND_TAKE: &str = "LIT r1, 1\n\
    STORE.S r1, r0, 0 | ADD r1, r1, 1\nSUB.T r0, r1, 11\nSKIP NE, 0, -3\nq: QUIT\n\
    c: LIT r3, 10\nLOAD.S r4, r0, 0 | SUB.T r3, r3, 1\nADD r5, r5, r4\nSKIP NE, 0, -3\n\
    STORE.N r5, r0, 1\nQUIT\n.data 0, 0\n.data 0\n";

/// How many requests alternate.
const ALTERNATING: usize = 20;

/// Lets the first requests of two processors alternate, processor 0 first.
#[derive(Drop)]
struct AlternateGate<'c, C: Clock> {
    turns: Turns<'c, C>,
    replies: AtomicUsize,
}

impl<'c, C: Clock> AlternateGate<'c, C> {
    fn new(clock: &'c C) -> AlternateGate<'c, C> {
        AlternateGate {
            turns: Turns::new(clock),
            replies: AtomicUsize::new(0),
        }
    }
}

impl<'c, C: Clock> Gate for AlternateGate<'c, C> {
    fn local<R: Wait>(&self, _rt: &R, _p: u8, _s: u8) {}

    fn before<R: Wait>(&self, _rt: &R, p: u8, _s: u8) {
        let replies = self.replies.load(Ordering::SeqCst);
        if replies < ALTERNATING && replies % 2 != usize::from(p) {
            self.turns.until(&self.replies, replies + 1);
        }
    }

    fn after<R: Wait>(&self, _rt: &R, _p: u8, _s: u8) {
        self.replies.fetch_add(1, Ordering::SeqCst);
    }
}

/// What a run with alternating requests came to; none where a processor waited in vain.
fn alternated<R: AllocGlobal + Clock + Threads + Wait + Sync>(
    rt: &R,
    entries: &str,
) -> Option<Came> {
    let gate = AlternateGate::new(rt);
    let came = run_under(rt, entries, PUT_AND_TAKE, 100, &gate);
    if gate.turns.ran_out() { None } else { came }
}

/// Whether no request was blocked: there were ten puts, ten takes and a store.
fn is_never_blocked(came: Option<Came>, steps: usize) -> bool {
    match came {
        Some(came) => {
            (came.requests, came.steps, came.alternating) == (21, steps, ALTERNATING)
                && came.second == Word::from_number(55, 1)
        }
        None => false,
    }
}

#[test]
fn alternate_requests_are_never_blocked(rt: HostRuntime) {
    // processor 0 takes 32 steps and processor 1 takes 33, in turn; and, with a third, through the lock
    for (entries, steps) in [
        (".slim 1\n.entry 0\n.entry c\n", 65),
        (".slim 1\n.entry 0\n.entry c\n.entry q\n", 66),
    ] {
        assert!(rt; is_never_blocked(alternated(&rt, entries), steps));
    }
}
