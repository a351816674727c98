//! Whether there is a second thread, which reads while the first one answers.

use std::sync::atomic::{AtomicBool, Ordering};
use std::thread;
use std::thread::Threads;
use std::time::{Clock, Duration};

/// How often is looked whether the thread that reads has begun, with a rest between two looks: five seconds.
const LOOKS: u32 = 5_000;

/// The rest, in milliseconds.
const REST: u64 = 1;

/// Whether the system starts a thread: without one, who reads would wait for who answers, and the other way round.
pub fn has_second_thread<X: Threads>(rt: &X) -> bool {
    match thread::spawn(rt, || ()) {
        Ok(started) => {
            started.join(rt);
            true
        }
        Err(_) => false,
    }
}

/// Whether the thread that reads begins in time. If not, it never will.
pub fn has_begun<X: Clock>(rt: &X, is_begun: &AtomicBool) -> bool {
    for _ in 0..LOOKS {
        if is_begun.load(Ordering::SeqCst) {
            return true;
        }
        thread::sleep(rt, Duration::from_millis(REST));
    }
    is_begun.swap(true, Ordering::SeqCst)
}
