//! Numbers that no command comes to.
use processor::{Step, Steps};
use std::alloc::Global;
use stream_core::{Outcome, TrapKind};
use trace_text::{trace_line, write_schedule};

/// A step less than 32 bits count, with room for three more.
fn steps_before_the_limit(alloc: Global) -> Steps {
    let mut steps = Steps::of_run(alloc, 3, 4_294_967_294);
    // where there is no memory for it there is no room
    let _ = steps.reserve(3);
    steps
}

/// Whether there was room for a step more.
fn is_pushed(steps: &mut Steps, s: u8) -> bool {
    if steps.spare() == 0 {
        return false;
    }
    steps.push(s);
    true
}

fn run_at(steps: &Steps, place: usize) -> Option<(u8, usize)> {
    steps.run_at(place)
}

fn length_and_last(steps: &Steps) -> (usize, Option<u8>) {
    (steps.len(), steps.last())
}

#[test]
fn a_run_of_steps_goes_on_past_32_bits(rt: HostRuntime) {
    let mut steps = steps_before_the_limit(rt.alloc());
    assert!(rt; is_pushed(&mut steps, 3) && is_pushed(&mut steps, 3) && is_pushed(&mut steps, 5));
    assert!(rt; !is_pushed(&mut steps, 5));
    for (place, run) in [
        (0, Some((3, 4_294_967_296))),
        (4_294_967_294, Some((3, 4_294_967_296))),
        (4_294_967_295, Some((3, 4_294_967_296))),
        (4_294_967_296, Some((5, 4_294_967_297))),
        (4_294_967_297, None),
    ] {
        assert!(rt; run_at(&steps, place) == run, "{place}");
    }
    assert!(rt; length_and_last(&steps) == (4_294_967_297, Some(5)));
}

fn is_text(text: Option<String>, wanted: &str) -> bool {
    match text {
        Some(text) => text.as_str() == wanted,
        None => false,
    }
}

/// The text of so many steps of stream 0 of processor 0.
fn schedule_of(alloc: Global, count: usize) -> Option<String> {
    let steps = vec![in alloc; Step { p: 0, s: 0 }; count].ok()?;
    write_schedule(alloc, &steps).ok()
}

#[test]
fn more_than_a_million_steps_are_lines_of_a_million_and_a_rest(rt: HostRuntime) {
    for (count, lines) in [
        (2_000_000, "0 0 1000000\n0 0 1000000\n"),
        (2_000_001, "0 0 1000000\n0 0 1000000\n0 0 1\n"),
    ] {
        assert!(rt; is_text(schedule_of(rt.alloc(), count), lines), "{count}");
    }
}

fn line_of(alloc: Global, number: u64, p: u8, s: u8, outcome: Outcome) -> Option<String> {
    trace_line(alloc, number, Step { p, s }, 0xFFFF_FFFF, outcome).ok()
}

#[test]
fn numbers_wider_than_their_columns(rt: HostRuntime) {
    for (number, p, s, outcome, line) in [
        (
            9_999_999,
            15,
            127,
            Outcome::Skipped,
            "9999999  15 127 FFFFFFFF SKIPPED\n",
        ),
        (
            12_345_678,
            255,
            255,
            Outcome::Trapped(TrapKind::Program),
            "12345678 255 255 FFFFFFFF TRAPPED 01\n",
        ),
    ] {
        assert!(rt;
            is_text(line_of(rt.alloc(), number, p, s, outcome), line),
            "{number}"
        );
    }
}
