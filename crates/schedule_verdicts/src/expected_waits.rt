//! What may go on forever, or wait forever.

ghost use Rattle.std.specs.Prelude.{◌≡◌, ◌↔◌, IsTrue};
ghost use Rattle.std.specs.Option.{option_copied};
ghost use Rattle.processor.specs.Records.{is_running_status};
ghost use Rattle.expectations.specs.Meeting.{stream_in};
ghost use Rattle.schedule_verdicts.specs.RightEnds.{AreWaitsExpected, is_rest_expected, may_wait_at, is_wait_by};
ghost use Rattle.schedule_verdicts.specs.RightEnds.{may_loop, is_loop};

use crate::right_ends::stream;
use expectations::Expectation;
use machine::Machine;
use stream_core::Status;

/// Whether each stream that runs may wait where it stands.
pub fn are_waits_expected<const S: usize>(
    machine: &Machine<'_, S>,
    expected: &[Expectation],
) -> bool
    ensures { IsTrue result ↔ AreWaitsExpected expected.now machine.now.world }
{
    let image = machine.image();
    for p in 0..image.processors() {
        for s in 0..image.slim() {
            if !is_rest_expected(machine, p as u8, s as u8, expected) {
                return false;
            }
        }
    }
    true
}

/// Whether the stream of these numbers does not run, or may wait where it stands.
fn is_rest_expected<const S: usize>(
    machine: &Machine<'_, S>,
    p: u8,
    s: u8,
    expected: &[Expectation],
) -> bool
    ensures { result ≡ is_rest_expected expected.now p s (stream_in machine.now.world p s) }
{
    match stream(machine, p, s) {
        Some(stream) => {
            !is_running(stream.status()) || may_wait_at(expected, p, s, stream.ssw().pc)
        }
        None => true,
    }
}

/// Whether a stream of this status runs.
fn is_running(status: Status) -> bool
    ensures { result ≡ is_running_status status }
{
    match status {
        Status::Running => true,
        Status::Idle | Status::Stopped(_) => false,
    }
}

/// Whether an expectation lets this stream wait at a place.
fn may_wait_at(expected: &[Expectation], p: u8, s: u8, place: u32) -> bool
    ensures { result ≡ may_wait_at expected.now p s place }
{
    expected.iter().any(
        |expectation: &Expectation| -> bool
            ensures { result ≡ is_wait_by p s place expectation.now }
        { is_wait_by(expectation, p, s, place) },
    )
}

/// Whether it lets this stream wait there.
fn is_wait_by(expectation: &Expectation, p: u8, s: u8, place: u32) -> bool
    ensures { result ≡ is_wait_by p s place expectation.now }
{
    match *expectation {
        Expectation::Waits {
            p: of,
            s: stream,
            first,
            last,
        } => of == p && stream == s && first <= place && place <= last,
        Expectation::Word { .. }
        | Expectation::Words { .. }
        | Expectation::Sum { .. }
        | Expectation::Compared { .. }
        | Expectation::Register { .. }
        | Expectation::Finished
        | Expectation::Stopped { .. }
        | Expectation::Loops => false,
    }
}

/// Whether the program may go on forever.
pub fn may_loop(expected: &[Expectation]) -> bool
    ensures { result ≡ may_loop expected.now }
{
    expected.iter().any(
        |expectation: &Expectation| -> bool
            ensures { result ≡ is_loop expectation.now }
        { is_loop(expectation) },
    )
}

/// Whether an expectation lets the program go on forever.
fn is_loop(expectation: &Expectation) -> bool
    ensures { result ≡ is_loop expectation.now }
{
    match *expectation {
        Expectation::Loops => true,
        Expectation::Word { .. }
        | Expectation::Words { .. }
        | Expectation::Sum { .. }
        | Expectation::Compared { .. }
        | Expectation::Register { .. }
        | Expectation::Finished
        | Expectation::Stopped { .. }
        | Expectation::Waits { .. } => false,
    }
}
