//! Whether a run may end so.

ghost use Rattle.std.specs.Prelude.{◌≡◌, ◌↔◌, IsTrue};
ghost use Rattle.std.specs.Option.{option_copied};
ghost use Rattle.expectations.specs.Meeting.{stream_in};
ghost use Rattle.schedule_verdicts.specs.NamedRegisters.{AreOfRegisters};
ghost use Rattle.schedule_verdicts.specs.RightEnds.{IsRightEnd, AreTrapsExpected, are_met, is_trap_expected, is_stop_by, is_stop_expected};

use crate::expected_waits::are_waits_expected;
use expectations::{Expectation, is_met};
use machine::Machine;
use stream_core::{Status, Stream, TrapKind};

/// Whether a run ends right at the world of a machine from which nothing goes on: each stream that runs may wait where it
/// stands, all that is expected is so, and each trap that stopped a stream is one that is expected of it. Then no register
/// is expected to hold something that no stream has.
pub fn is_right_end<const S: usize>(machine: &Machine<'_, S>, expected: &[Expectation]) -> bool
    ensures is { IsTrue result ↔ IsRightEnd expected.now machine.now.world }
    ensures registers { IsTrue result → AreOfRegisters expected.now }
{
    are_waits_expected(machine, expected)
        && are_met(machine, expected)
        && are_traps_expected(machine, expected)
}

/// Whether all that is expected is so.
fn are_met<const S: usize>(machine: &Machine<'_, S>, expected: &[Expectation]) -> bool
    ensures is { result ≡ are_met machine.now.world expected.now }
    ensures registers { IsTrue result → AreOfRegisters expected.now }
{
    for expectation in expected {
        if !is_met(machine, expectation) {
            return false;
        }
    }
    true
}

/// Whether each trap that stopped a stream is expected of it.
pub fn are_traps_expected<const S: usize>(
    machine: &Machine<'_, S>,
    expected: &[Expectation],
) -> bool
    ensures { IsTrue result ↔ AreTrapsExpected expected.now machine.now.world }
{
    let image = machine.image();
    for p in 0..image.processors() {
        for s in 0..image.slim() {
            if !is_stop_expected(machine, p as u8, s as u8, expected) {
                return false;
            }
        }
    }
    true
}

/// Whether no trap stopped the stream of these numbers, or one that is expected of it.
fn is_stop_expected<const S: usize>(
    machine: &Machine<'_, S>,
    p: u8,
    s: u8,
    expected: &[Expectation],
) -> bool
    ensures { result ≡ is_stop_expected expected.now p s (stream_in machine.now.world p s) }
{
    match stream(machine, p, s) {
        Some(stream) => match stream.status() {
            Status::Stopped(kind) => is_trap_expected(expected, p, s, kind),
            Status::Idle | Status::Running => true,
        },
        None => true,
    }
}

/// The stream of these numbers, where the machine has it.
pub(crate) fn stream<'m, const S: usize>(
    machine: &'m Machine<'_, S>,
    p: u8,
    s: u8,
) -> Option<&'m Stream>
    ensures { option_copied result ≡ stream_in machine.now.world p s }
{
    if u16::from(s) >= machine.image().slim() {
        return None;
    }
    machine.stream(p, s)
}

/// Whether it is expected that such a trap stops this stream.
fn is_trap_expected(expected: &[Expectation], p: u8, s: u8, kind: TrapKind) -> bool
    ensures { result ≡ is_trap_expected expected.now p s kind }
{
    expected.iter().any(
        |expectation: &Expectation| -> bool
            ensures { result ≡ is_stop_by p s kind expectation.now }
        { is_stop_by(expectation, p, s, kind) },
    )
}

/// Whether an expectation is that such a trap stops this stream.
fn is_stop_by(expectation: &Expectation, p: u8, s: u8, kind: TrapKind) -> bool
    ensures { result ≡ is_stop_by p s kind expectation.now }
{
    match *expectation {
        Expectation::Stopped {
            p: of,
            s: stream,
            trap,
        } => { of == p && stream == s && trap == kind.number() }
        Expectation::Word { .. }
        | Expectation::Words { .. }
        | Expectation::Sum { .. }
        | Expectation::Compared { .. }
        | Expectation::Register { .. }
        | Expectation::Finished
        | Expectation::Waits { .. }
        | Expectation::Loops => false,
    }
}
