//! How the gates of these tests wait for one another.
use std::sync::atomic::{AtomicBool, AtomicUsize, Ordering};
use std::thread;
use std::time::{Clock, Duration};

/// The most turns that a gate waits.
const MAX_TURNS: u32 = 10_000;

/// Waits in turns of a clock's sleep.
#[derive(Drop)]
pub(super) struct Turns<'c, C: Clock> {
    clock: &'c C,
    ran_out: AtomicBool,
}

impl<'c, C: Clock> Turns<'c, C> {
    pub(super) fn new(clock: &'c C) -> Turns<'c, C> {
        Turns {
            clock,
            ran_out: AtomicBool::new(false),
        }
    }

    /// Takes turns until the count is so high. Where it runs out of turns it is marked, and no call waits any more.
    pub(super) fn until(&self, count: &AtomicUsize, wanted: usize) {
        for _ in 0..MAX_TURNS {
            if self.ran_out() || count.load(Ordering::SeqCst) >= wanted {
                return;
            }
            thread::sleep(self.clock, Duration::from_micros(100));
        }
        self.ran_out.store(true, Ordering::SeqCst);
    }

    /// Whether a call ran out of turns.
    pub(super) fn ran_out(&self) -> bool {
        self.ran_out.load(Ordering::SeqCst)
    }
}
