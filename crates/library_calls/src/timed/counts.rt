//! Which thing is done again and again, by its name.

use crate::timed::copies::{copy_memories, copy_numbers};
use crate::timed::debugger_runs::debug_rounds;
use crate::timed::image_bytes::image_rounds;
use crate::timed::loops::{EACH_THIRD, loop_of, sixteen_with, two_with};
use crate::timed::machine_steps::machine_rounds;
use crate::timed::recorded_runs::{record_rounds, turning_of};
use crate::timed::threaded_runs::{Way, run_rounds};
use std::sync::Wait;
use std::thread::Threads;

/// Does a thing of this kind for so many rounds, and gives the number of steps, or what else is counted, of each; none
/// where there is no such thing, or no memory.
pub fn count_of<R: AllocGlobal + Threads + Wait + Sync>(
    rt: &R,
    kind: &str,
    which: &str,
    rounds: u32,
) -> Option<usize> {
    let alloc = rt.alloc();
    match kind {
        "machine" => machine_rounds(alloc, loop_of(which), rounds),
        "record" => record_rounds(alloc, turning_of(which), false, rounds),
        "gather" => record_rounds(alloc, turning_of(which), true, rounds),
        "drive" => run_rounds(rt, sixteen_with(alloc, loop_of(which)), Way::Lock, rounds),
        "threaded" => run_rounds(
            rt,
            sixteen_with(alloc, loop_of(which)),
            Way::Schedule,
            rounds,
        ),
        "through_lock" => run_rounds(rt, two_with(alloc, &EACH_THIRD), Way::Lock, rounds),
        "in_turn" => run_rounds(rt, two_with(alloc, &EACH_THIRD), Way::Turns, rounds),
        "debug" => debug_rounds(alloc, which, rounds),
        "copy" if which == "memory" => copy_memories(alloc, rounds),
        "copy" => copy_numbers(alloc, rounds),
        "image" => image_rounds(alloc, which == "read", rounds),
        _ => None,
    }
}
