//! What the end of the run that decides shows in place of what is expected.

ghost use Rattle.std.specs.Prelude.{◌≡◌, MatchOption};
ghost use Rattle.exercise_advice.specs.Shortfalls.{IsMet, IsShortfallOf};

use crate::observing::ShownMistake;
use expectations::{Expectation, FullEmpty, is_met};
use image_file::Image;
use image_machines::{by_room, loaded};
use judgements::MissedLine;
use machine::Machine;
use processor::Step;
use std::alloc::{AllocError, Global};
use stream_core::{Status, Stream, TrapKind};

/// What stands at the end of a run in the place of what is expected.
#[derive(Clone, Copy, Debug)]
pub enum FoundInstead {
    /// This word; of a range it is the first that is not as expected.
    Word {
        /// Its byte address.
        address: u64,
        /// Its value.
        value: u64,
        /// Whether it is full.
        is_full: bool,
    },
    /// No word at this byte address.
    NoWord {
        /// The byte address.
        address: u64,
    },
    /// The sum of the words of a range, modulo 2^64.
    Sum(u64),
    /// The values of two words that are compared.
    Values {
        /// That of the word which is expected to be something.
        one: u64,
        /// That of the other one.
        other: u64,
    },
    /// What a register holds.
    Register(u64),
    /// No such stream.
    NoStream,
    /// A stream that runs.
    Running(Step),
    /// A stream that a trap stopped.
    Stopped {
        /// The stream.
        stream: Step,
        /// The trap.
        trap: TrapKind,
    },
    /// A stream that does not run, and that no trap stopped.
    Idle,
}

/// An expectation that the end of a run does not meet, and what is found there.
#[derive(Clone, Copy, Debug)]
pub struct Shortfall {
    /// What is expected.
    pub expectation: Expectation,
    /// What is found instead.
    pub found: FoundInstead,
}

/// The expectation that the end of the run which decides does not meet, and what is found instead. None if no expectation of an
/// end decides, or if this end meets it.
pub fn shortfall_of(
    alloc: Global,
    shown: ShownMistake<'_>,
) -> Result<Option<Shortfall>, AllocError> {
    let Some(MissedLine::End(place)) = shown.judgement.missed() else {
        return Ok(None);
    };
    match shown.required.ends().get(place) {
        Some(expectation) => by_room!(
            shown.image,
            shortfall_after(alloc, shown.image, shown.steps, *expectation)
        ),
        None => Ok(None),
    }
}

/// The same after these steps of an image, on machines with room for `S` streams a processor.
fn shortfall_after<const S: usize>(
    alloc: Global,
    image: &Image,
    steps: &[Step],
    expectation: Expectation,
) -> Result<Option<Shortfall>, AllocError> {
    let mut machine = loaded::<S>(alloc, image)?;
    machine.run(steps);
    Ok(shortfall_at(&machine, expectation))
}

/// What a machine shows in place of what is expected; None if it is as expected.
fn shortfall_at<const S: usize>(
    machine: &Machine<'_, S>,
    expectation: Expectation,
) -> Option<Shortfall>
    ensures { MatchOption result (IsMet machine.now.world expectation) (λ s. IsShortfallOf machine.now.world expectation s) }
{
    if is_met(machine, &expectation) {
        return None;
    }
    Some(Shortfall {
        expectation,
        found: found_at(machine, expectation),
    })
}

/// What a machine shows where an expectation looks.
fn found_at<const S: usize>(machine: &Machine<'_, S>, expectation: Expectation) -> FoundInstead {
    match expectation {
        Expectation::Word { address, .. } => word_at(machine, address),
        Expectation::Words {
            first,
            last,
            value,
            state,
        } => word_among(machine, first, last, value, state),
        Expectation::Sum { first, last, .. } => sum_of(machine, first, last),
        Expectation::Compared { address, other, .. } => values_of(machine, address, other),
        Expectation::Register { p, s, number, .. } => register_of(machine, p, s, number),
        Expectation::Finished | Expectation::Loops => first_left(machine),
        Expectation::Stopped { p, s, .. } | Expectation::Waits { p, s, .. } => {
            stream_at(machine, Step { p, s })
        }
    }
}

/// The word at a byte address.
fn word_at<const S: usize>(machine: &Machine<'_, S>, address: u64) -> FoundInstead {
    match machine.word(address) {
        Some(word) => FoundInstead::Word {
            address,
            value: word.value(),
            is_full: word.is_full(),
        },
        None => FoundInstead::NoWord { address },
    }
}

/// The first word of a range that has not this value and this state; the first of all if there is none.
fn word_among<const S: usize>(
    machine: &Machine<'_, S>,
    first: u64,
    last: u64,
    value: u64,
    state: Option<FullEmpty>,
) -> FoundInstead {
    let count = last.saturating_sub(first) / 8;
    for number in 0..=count {
        let address = first.saturating_add(number.saturating_mul(8));
        let one = Expectation::Word {
            address,
            value,
            state,
        };
        if !is_met(machine, &one) {
            return word_at(machine, address);
        }
    }
    word_at(machine, first)
}

/// The sum of the words of a range, or the first one that is not there.
fn sum_of<const S: usize>(machine: &Machine<'_, S>, first: u64, last: u64) -> FoundInstead {
    let mut sum = 0u64;
    let count = last.saturating_sub(first) / 8;
    for number in 0..=count {
        let address = first.saturating_add(number.saturating_mul(8));
        match machine.word(address) {
            Some(word) => sum = sum.wrapping_add(word.value()),
            None => return FoundInstead::NoWord { address },
        }
    }
    FoundInstead::Sum(sum)
}

/// The values of two words, or the first of them that is not there.
fn values_of<const S: usize>(machine: &Machine<'_, S>, address: u64, other: u64) -> FoundInstead {
    match (machine.word(address), machine.word(other)) {
        (Some(one), Some(two)) => FoundInstead::Values {
            one: one.value(),
            other: two.value(),
        },
        (None, _) => FoundInstead::NoWord { address },
        (Some(_), None) => FoundInstead::NoWord { address: other },
    }
}

/// What a register of a stream holds.
fn register_of<const S: usize>(machine: &Machine<'_, S>, p: u8, s: u8, number: u8) -> FoundInstead {
    match stream_of(machine, Step { p, s }) {
        Some(stream) => match stream.reg(number) {
            Some(held) => FoundInstead::Register(held),
            None => FoundInstead::NoStream,
        },
        None => FoundInstead::NoStream,
    }
}

/// The first stream that runs or that a trap stopped, in the order of processor and stream.
fn first_left<const S: usize>(machine: &Machine<'_, S>) -> FoundInstead {
    for p in 0..machine.image().processors() {
        for s in 0..machine.image().slim() {
            let stream = Step {
                p: p as u8,
                s: s as u8,
            };
            match stream_at(machine, stream) {
                FoundInstead::Idle | FoundInstead::NoStream => {}
                found => return found,
            }
        }
    }
    FoundInstead::Idle
}

/// Whether a stream runs, or which trap stopped it.
fn stream_at<const S: usize>(machine: &Machine<'_, S>, stream: Step) -> FoundInstead {
    match stream_of(machine, stream) {
        None => FoundInstead::NoStream,
        Some(found) => match found.status() {
            Status::Running => FoundInstead::Running(stream),
            Status::Stopped(trap) => FoundInstead::Stopped { stream, trap },
            Status::Idle => FoundInstead::Idle,
        },
    }
}

/// A stream, if the machine has it.
fn stream_of<'m, const S: usize>(machine: &'m Machine<'_, S>, stream: Step) -> Option<&'m Stream> {
    if u16::from(stream.s) >= machine.image().slim() {
        return None;
    }
    machine.stream(stream.p, stream.s)
}
