//! Who can go on: two streams that wait forever, and where.
use crate::sources::image_of;
use machine::Machine;
use processor::Step;
use std::alloc::Global;
use waiting::{Wait, Wanted, is_standstill, running_streams, wait_of};

/// Stream 0 of processor 0 waits for a word to be full, to which word 0 forwards it, and that of processor 1 for a word
/// to be empty. Neither ever traps for it, and no block is counted.
const DEADLOCK: &str =
    ".slim 1\n.retry 0\n.entry 0\n.entry 3\nMASK 4\nLOAD.S r1, r0, 0\nQUIT\nMASK 4\nSTORE.S r1, r0, 2\nQUIT\n\
    .data 8, 3\n.data 0, 0\n.data 7\n";

/// The same, but that one block is counted.
const COUNTED: &str =
    ".slim 1\n.retry 1\n.entry 0\n.entry 3\nMASK 4\nLOAD.S r1, r0, 0\nQUIT\nMASK 4\nSTORE.S r1, r0, 2\nQUIT\n\
    .data 8, 3\n.data 0, 0\n.data 7\n";

/// Takes so many steps, of the two streams in turn.
fn take_turns(machine: &mut Machine<8>, count: u8) {
    for number in 0..count {
        machine.step(number % 2, 0);
    }
}

/// Whether the machine of a source stands still after so many steps.
fn stands_still(alloc: Global, source: &str, count: u8) -> Option<bool> {
    let image = image_of(alloc, source)?;
    let mut machine: Machine<8> = Machine::load(alloc, &image).ok()?;
    take_turns(&mut machine, count);
    Some(is_standstill(&machine))
}

#[test]
fn a_standstill_comes_where_no_count_grows_any_more(rt: HostRuntime) {
    for (source, count, stands) in [
        (DEADLOCK, 0, false),
        (DEADLOCK, 1, false),
        (DEADLOCK, 2, true),
        (COUNTED, 2, false),
        (COUNTED, 3, false),
        (COUNTED, 4, true),
    ] {
        assert!(rt;
            stands_still(rt.alloc(), source, count) == Some(stands),
            "{count}"
        );
    }
}

/// What each of the two streams waits for after so many steps.
fn waits(alloc: Global, count: u8) -> Option<[Option<Wait>; 2]> {
    let image = image_of(alloc, DEADLOCK)?;
    let mut machine: Machine<8> = Machine::load(alloc, &image).ok()?;
    take_turns(&mut machine, count);
    Some([wait_of(&machine, 0, 0), wait_of(&machine, 1, 0)])
}

/// The streams that run at the start.
fn running_at_start(alloc: Global) -> Option<Vec<Step>> {
    let image = image_of(alloc, DEADLOCK)?;
    let machine: Machine<8> = Machine::load(alloc, &image).ok()?;
    running_streams(alloc, &machine).ok()
}

#[test]
fn a_wait_is_for_the_word_after_the_forwarding_one(rt: HostRuntime) {
    let full = Wait {
        address: 8,
        wanted: Wanted::Full,
    };
    let empty = Wait {
        address: 16,
        wanted: Wanted::Empty,
    };
    assert!(rt; waits(rt.alloc(), 0) == Some([None, None]));
    assert!(rt; waits(rt.alloc(), 1) == Some([Some(full), None]));
    assert!(rt; waits(rt.alloc(), 2) == Some([Some(full), Some(empty)]));
}

#[test]
fn both_streams_run(rt: HostRuntime) {
    let running = running_at_start(rt.alloc()).expect(&rt, "no memory");
    assert!(rt; running.as_slice() == [Step { p: 0, s: 0 }, Step { p: 1, s: 0 }].as_slice());
}
