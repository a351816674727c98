//! What a line about streams expects of the end of a run, or allows there.

ghost use Rattle.std.specs.Prelude.{◌≡◌, ℕ, List, length};
ghost use Rattle.expectation_files.specs.Values.{stream_named, register_named, value_named, trap_named};
ghost use Rattle.expectation_files.specs.EndLines.{register_said, register_of, finished_said, stopped_said, stopped_of};
ghost use Rattle.expectation_files.specs.EndLines.{waits_said, waits_of, loops_said};
ghost use Rattle.expectation_files.specs.Addresses.{places_said};
ghost use Rattle.expectation_files.specs.OperandsSeen.{AreOperands};
ghost use Rattle.expectation_files.specs.Seen.{names_in};

use crate::addresses::{KnownNames, places_said};
use crate::claim_streams::has_stream;
use crate::faults::{LineFault, LineFaultKind, LineForm};
use crate::values::{register_named, stream_named, trap_named, value_named};
use crate::words::Operands;
use expectations::Expectation;
use image_file::Image;
use processor::Step;

/// `P.S rN VALUE`
pub(crate) fn read_register(operands: &Operands) -> Result<Expectation, LineFault>
    ensures { (os : List (List ℕ)) → AreOperands operands.now os → result ≡ register_said os }
{
    match *operands {
        Operands::Three(stream, number, value) => register(stream, number, value),
        Operands::Zero | Operands::One(_) | Operands::Two(..) | Operands::More(..) => {
            Err(LineFault::at(0, LineFaultKind::Form(LineForm::Register)))
        }
    }
}

fn register(stream: &[u8], number: &[u8], value: &[u8]) -> Result<Expectation, LineFault>
    ensures { result ≡ register_of (stream_named stream.now) (register_named number.now) (value_named value.now) }
{
    let stream = stream_named(stream).ok_or(LineFault::at(1, LineFaultKind::Stream))?;
    let number = register_named(number).ok_or(LineFault::at(2, LineFaultKind::Register))?;
    let value = value_named(value).ok_or(LineFault::at(3, LineFaultKind::Number))?;
    Ok(Expectation::Register {
        p: stream.p,
        s: stream.s,
        number,
        value,
    })
}

/// No operand.
pub(crate) fn read_finished(operands: &Operands) -> Result<Expectation, LineFault>
    ensures { (os : List (List ℕ)) → AreOperands operands.now os → result ≡ finished_said os }
{
    match *operands {
        Operands::Zero => Ok(Expectation::Finished),
        Operands::One(_) | Operands::Two(..) | Operands::Three(..) | Operands::More(..) => {
            Err(LineFault::at(0, LineFaultKind::Form(LineForm::Finished)))
        }
    }
}

/// `P.S TRAP`
pub(crate) fn read_stopped(operands: &Operands) -> Result<Expectation, LineFault>
    ensures { (os : List (List ℕ)) → AreOperands operands.now os → result ≡ stopped_said os }
{
    match *operands {
        Operands::Two(stream, trap) => stopped(stream, trap),
        Operands::Zero | Operands::One(_) | Operands::Three(..) | Operands::More(..) => {
            Err(LineFault::at(0, LineFaultKind::Form(LineForm::Stopped)))
        }
    }
}

fn stopped(stream: &[u8], trap: &[u8]) -> Result<Expectation, LineFault>
    ensures { result ≡ stopped_of (stream_named stream.now) (trap_named trap.now) }
{
    let stream = stream_named(stream).ok_or(LineFault::at(1, LineFaultKind::Stream))?;
    let trap = trap_named(trap).ok_or(LineFault::at(2, LineFaultKind::Trap))?;
    Ok(Expectation::Stopped {
        p: stream.p,
        s: stream.s,
        trap,
    })
}

/// `P.S in FIRST..LAST`: the stream may wait forever at program words of the range.
pub(crate) fn read_waits(
    names: KnownNames<'_, '_, '_>,
    image: &Image,
    operands: &Operands,
) -> Result<Expectation, LineFault>
    ensures { (os : List (List ℕ)) → AreOperands operands.now os
        → result ≡ waits_said (names_in names.entry) image.now os }
{
    let form = LineFaultKind::Form(LineForm::Waits);
    match *operands {
        Operands::Three(stream, word, range) => {
            if word == b"in".as_slice() {
                return waits(names, image, stream_named(stream), range);
            }
            Err(LineFault::at(2, form))
        }
        Operands::Zero | Operands::One(_) | Operands::Two(..) | Operands::More(..) => {
            Err(LineFault::at(0, form))
        }
    }
}

fn waits(
    names: KnownNames<'_, '_, '_>,
    image: &Image,
    stream: Option<Step>,
    range: &[u8],
) -> Result<Expectation, LineFault>
    ensures { result ≡ waits_of image.now stream
        (places_said (names_in names.entry) (length image.now.program) range.now) }
{
    let stream = stream.ok_or(LineFault::at(1, LineFaultKind::Stream))?;
    if !has_stream(image, stream) {
        return Err(LineFault::at(1, LineFaultKind::MissingStream));
    }
    match places_said(names, image.program().len(), range) {
        Ok(range) => Ok(Expectation::Waits {
            p: stream.p,
            s: stream.s,
            first: range.first,
            last: range.last,
        }),
        Err(kind) => Err(LineFault::at(3, kind)),
    }
}

/// No operand.
pub(crate) fn read_loops(operands: &Operands) -> Result<Expectation, LineFault>
    ensures { (os : List (List ℕ)) → AreOperands operands.now os → result ≡ loops_said os }
{
    match *operands {
        Operands::Zero => Ok(Expectation::Loops),
        Operands::One(_) | Operands::Two(..) | Operands::Three(..) | Operands::More(..) => {
            Err(LineFault::at(0, LineFaultKind::Form(LineForm::Loops)))
        }
    }
}
