//! How long a thread lets go by between two looks at a memory that another has.

use std::hint::spin_loop;
use std::thread::yield_now;

/// The pauses between two looks, at the start and where none is learned,
const FEWEST_PAUSES: u32 = 64;

/// and the most. A pause takes from some 10 to 140 cycles, as the processor has it.
const MOST_PAUSES: u32 = 4_096;

/// How many looks with pauses between them a thread makes before it lets other threads run between two looks.
const PAUSING_LOOKS: u32 = 4;

/// The pauses of one thread, which learns how many serve: fewer by an eighth where it found the memory free, twice as many
/// where it paused and found it taken again. So whoever has the memory can ask several times before its words and the end of
/// its history go to another core, which takes longer than the answers do.
#[derive(Clone, Copy, Debug)]
pub(crate) struct BackOff {
    pauses: u32,
}

impl BackOff {
    /// With the fewest pauses.
    pub(crate) fn new() -> BackOff {
        BackOff {
            pauses: FEWEST_PAUSES,
        }
    }

    /// The memory was free at the first look.
    #[inline(always)]
    pub(crate) fn was_free(&mut self) {
        if self.pauses > FEWEST_PAUSES {
            self.pauses -= self.pauses / 8;
        }
    }

    /// Lets a while go by after so many looks in vain.
    pub(crate) fn pause(&mut self, looks: u32) {
        if looks >= PAUSING_LOOKS {
            yield_now();
            return;
        }
        for _ in 0..self.pauses {
            spin_loop();
        }
        self.pauses = self.pauses.saturating_mul(2).min(MOST_PAUSES);
    }
}
