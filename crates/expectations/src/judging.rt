//! Whether a machine is as expected.

ghost use Rattle.std.specs.Prelude.{◌≡◌, ◌<◌, not, IsTrue};
ghost use Rattle.std.specs.List.{position};
ghost use Rattle.std.specs.Option.{option_copied};
ghost use Rattle.std.specs.Prelude.{slice_get};
ghost use Rattle.expectations.specs.Meeting.{is_met, holds_in_register, is_finished, is_stopped_by};
ghost use Rattle.expectations.specs.Meeting.{stream_in, all_idle_at};
ghost use Rattle.expectations.specs.NamedRegisters.{IsOfRegisters};

use crate::expectation::Expectation;
use crate::memory_words::{is_compared, is_word};
use crate::word_ranges::{are_words, is_sum};
use machine::Machine;
use stream_core::{Status, Stream};

/// Whether a machine is as an expectation says. A word or a stream that the machine does not have is not as expected. Each
/// machine is as one says that allows something.
///
/// No stream has a register that is not one of 32.
pub fn is_met<const S: usize>(machine: &Machine<'_, S>, expectation: &Expectation) -> bool
    ensures is { result ≡ is_met machine.now.world expectation.now }
    ensures registers { IsTrue result → IsOfRegisters expectation.now }
{
    match *expectation {
        Expectation::Word {
            address,
            value,
            state,
        } => is_word(machine.word(address), value, state),
        Expectation::Words {
            first,
            last,
            value,
            state,
        } => are_words(machine, first, last, value, state),
        Expectation::Sum { first, last, value } => is_sum(machine, first, last, value),
        Expectation::Compared {
            address,
            relation,
            other,
            more,
        } => is_compared(machine.word(address), relation, machine.word(other), more),
        Expectation::Register {
            p,
            s,
            number,
            value,
        } => holds_in_register(stream(machine, p, s), number, value),
        Expectation::Finished => is_finished(machine),
        Expectation::Stopped { p, s, trap } => is_stopped_by(stream(machine, p, s), trap),
        Expectation::Waits { .. } | Expectation::Loops => true,
    }
}

/// The first of some expectations that a machine does not meet, counted from 0.
pub fn first_missed<const S: usize>(
    machine: &Machine<'_, S>,
    expectations: &[Expectation],
) -> Option<usize>
    ensures { result ≡ position (λ e. not (is_met machine.now.world e)) expectations.now }
{
    expectations.iter().position(
        |expectation: &Expectation| -> bool
            ensures { result ≡ not (is_met machine.entry.now.world expectation.now) }
        { !is_met(machine, expectation) },
    )
}

/// The stream of these numbers, where the machine has it.
fn stream<'m, const S: usize>(machine: &'m Machine<'_, S>, p: u8, s: u8) -> Option<&'m Stream>
    ensures { option_copied result ≡ stream_in machine.now.world p s }
{
    if u16::from(s) >= machine.image().slim() {
        return None;
    }
    machine.stream(p, s)
}

fn holds_in_register(stream: Option<&Stream>, number: u8, value: u64) -> bool
    ensures is { result ≡ holds_in_register number value (option_copied stream.entry) }
    ensures below { IsTrue result → number < 32 }
{
    match stream {
        Some(stream) => match stream.reg(number) {
            Some(held) => held == value,
            None => false,
        },
        None => false,
    }
}

fn is_stopped_by(stream: Option<&Stream>, trap: u8) -> bool
    ensures { result ≡ is_stopped_by trap (option_copied stream.entry) }
{
    match stream {
        Some(stream) => match stream.status() {
            Status::Stopped(kind) => kind.number() == trap,
            Status::Idle | Status::Running => false,
        },
        None => false,
    }
}

/// Whether no stream runs and none was stopped.
fn is_finished<const S: usize>(machine: &Machine<'_, S>) -> bool
    ensures { result ≡ is_finished machine.now.world }
{
    let count = machine.image().processors() as u8;
    for p in 0..count {
        if !is_at_rest(machine, p) {
            return false;
        }
    }
    true
}

/// Whether each stream of a processor is idle.
fn is_at_rest<const S: usize>(machine: &Machine<'_, S>, p: u8) -> bool
    ensures { result ≡ all_idle_at (slice_get machine.now.world.processors p) }
{
    match machine.counts(p) {
        Some((current, _)) => current == 0,
        None => true,
    }
}
