//! A gate that lets the requests of two processors alternate.
use memory_lock::Gate;
use std::sync::Wait;
use std::sync::atomic::{AtomicBool, AtomicUsize, Ordering};
use std::thread;
use std::time::{Clock, Duration};

/// How many requests alternate.
const ALTERNATING: usize = 20;

/// The most turns that the gate waits.
const MAX_TURNS: u32 = 10_000;

/// Lets the first requests alternate, processor 0 first. Where a wait runs out of turns it gives up, and waits no more.
#[derive(Drop)]
pub(crate) struct AlternateGate<'c, C: Clock> {
    clock: &'c C,
    replies: AtomicUsize,
    gave_up: AtomicBool,
}

impl<'c, C: Clock> AlternateGate<'c, C> {
    pub(crate) fn new(clock: &'c C) -> AlternateGate<'c, C> {
        AlternateGate {
            clock,
            replies: AtomicUsize::new(0),
            gave_up: AtomicBool::new(false),
        }
    }

    pub(crate) fn gave_up(&self) -> bool {
        self.gave_up.load(Ordering::SeqCst)
    }

    /// Whether processor `p` may ask.
    fn has_turn(&self, p: u8) -> bool {
        let replies = self.replies.load(Ordering::SeqCst);
        replies >= ALTERNATING || replies % 2 == usize::from(p)
    }
}

impl<'c, C: Clock> Gate for AlternateGate<'c, C> {
    fn local<R: Wait>(&self, _rt: &R, _p: u8, _s: u8) {}

    fn before<R: Wait>(&self, _rt: &R, p: u8, _s: u8) {
        for _ in 0..MAX_TURNS {
            if self.gave_up() || self.has_turn(p) {
                return;
            }
            thread::sleep(self.clock, Duration::from_micros(100));
        }
        self.gave_up.store(true, Ordering::SeqCst);
    }

    fn after<R: Wait>(&self, _rt: &R, _p: u8, _s: u8) {
        self.replies.fetch_add(1, Ordering::SeqCst);
    }
}
