//! Which steps of a run `view` shows.

use command_parts::texts::{ProgramNames, plural};
use command_parts::{LabFault, Program};
use image_file::Image;
use lab_requests::ViewRequest;
use processor::Step;
use std::alloc::{AllocError, Global};
use step_views::{Place, StepView};

/// Of which steps alone is shown; of all where nothing is asked.
#[derive(Clone, Copy)]
pub(crate) struct Only {
    /// Those of this stream.
    pub stream: Option<Step>,
    /// Those that use the word at this byte address.
    pub word: Option<u64>,
}

/// The stream of whose steps alone is shown, where one is asked.
pub(crate) fn stream_asked(alloc: Global, request: &ViewRequest) -> Result<Option<Step>, LabFault> {
    match request.only {
        Some(name) => Ok(Some(stream_named(alloc, name)?)),
        None => Ok(None),
    }
}

/// Which steps of a program are shown: those of this stream, and those that use the word that is asked.
pub(crate) fn only_asked(
    alloc: Global,
    request: &ViewRequest,
    stream: Option<Step>,
    program: &Program,
) -> Result<Only, LabFault> {
    check_stream(alloc, stream, &program.image)?;
    let word = match request.word {
        Some(text) => Some(word_named(alloc, text, program)?),
        None => None,
    };
    Ok(Only { stream, word })
}

/// The streams of a schedule in the order of processor and stream, where each is to have a column.
pub(crate) fn lanes_of(
    alloc: Global,
    request: &ViewRequest,
    steps: &[Step],
) -> Result<Vec<Step>, AllocError> {
    let mut lanes = Vec::new(alloc);
    if !request.columns {
        return Ok(lanes);
    }
    for step in steps {
        if !lanes.contains(step) {
            lanes.push(*step)?;
        }
    }
    lanes.sort_by_key(|step: &Step| (step.p, step.s))?;
    Ok(lanes)
}

/// The stream that a name such as `2.0` names.
fn stream_named(alloc: Global, name: &str) -> Result<Step, LabFault> {
    if let Some((p, s)) = name.split_once('.')
        && let (Ok(p), Ok(s)) = (p.parse::<u8>(), s.parse::<u8>())
    {
        return Ok(Step { p, s });
    }
    Err(LabFault::Words(format!(in alloc;
        "--only takes a processor and a stream, as 2.0, and not {name}"
    )?))
}

/// Refuses steps that end before they begin.
pub(crate) fn check_range(alloc: Global, request: &ViewRequest) -> Result<(), LabFault> {
    let (from, to) = (request.from, request.to);
    if from <= to {
        return Ok(());
    }
    Err(LabFault::Words(format!(in alloc; "--from {from} is after --to {to}: no step is shown")?))
}

/// Refuses a stream that the image has not.
fn check_stream(alloc: Global, only: Option<Step>, image: &Image) -> Result<(), LabFault> {
    let Some(Step { p, s }) = only else {
        return Ok(());
    };
    let (processors, slim) = (image.processors(), image.slim());
    if usize::from(p) < processors && u16::from(s) < slim {
        return Ok(());
    }
    let (many, each) = (plural(processors), plural(usize::from(slim)));
    Err(LabFault::Words(format!(in alloc;
        "--only {p}.{s}: the program has no such stream, but {processors} processor{many} of {slim} stream{each}"
    )?))
}

/// The byte address of the word of a program that a text says, by its address or its name.
fn word_named(alloc: Global, text: &str, program: &Program) -> Result<u64, LabFault> {
    let address = address_named(alloc, text, program)?;
    let bytes = (program.image.cells().len() as u64).saturating_mul(8);
    if address % 8 == 0 && address < bytes {
        return Ok(address);
    }
    Err(LabFault::Words(format!(in alloc;
        "--word {address}: the memory has no such word: multiples of 8 below {bytes}"
    )?))
}

/// The byte address that a text says by a number, or by a name of a program.
fn address_named(alloc: Global, text: &str, program: &Program) -> Result<u64, LabFault> {
    let names = ProgramNames::of(alloc, &program.text)?;
    match names.address_of(text) {
        Some(address) => Ok(address),
        None => Err(no_address(alloc, text, &names)?),
    }
}

/// That a text says no byte address.
fn no_address(alloc: Global, text: &str, names: &ProgramNames<'_>) -> Result<LabFault, AllocError> {
    let mut words = String::from_str(alloc, "--word: ")?;
    names.push_no_address(alloc, &mut words, text)?;
    Ok(LabFault::Words(words))
}

/// Whether the step of this number is shown.
pub(crate) fn is_shown(request: &ViewRequest, only: Only, number: usize, view: &StepView) -> bool {
    if number < request.from || number > request.to {
        return false;
    }
    if let Some(stream) = only.stream
        && stream != view.step
    {
        return false;
    }
    match only.word {
        Some(address) => meets(view, address),
        None => true,
    }
}

/// Whether a step met the word at a byte address.
fn meets(view: &StepView, address: u64) -> bool {
    let is_asked = match view.reference {
        Some(reference) => reference.address == address,
        None => false,
    };
    is_asked
        || view.changes.iter().any(|change| {
            change.place == Place::Value { address } || change.place == Place::Tags { address }
        })
}

/// Adds that there is no step of a stream, or none that uses a word, and between which steps; and how many steps the run
/// has where the first of these is past its end.
pub(crate) fn push_no_step(
    out: &mut String,
    names: &ProgramNames<'_>,
    request: &ViewRequest,
    only: Only,
    steps: usize,
) -> Result<(), AllocError> {
    out.push_str("there is no step")?;
    if let Some(Step { p, s }) = only.stream {
        write!(out, " of {p}.{s}")?;
    }
    if let Some(address) = only.word {
        out.push_str(" that uses ")?;
        names.push_address(out, address)?;
    }
    let (from, to) = (request.from, request.to);
    match (from, to) {
        (0..=1, usize::MAX) => {}
        (0..=1, _) => write!(out, " up to step {to}")?,
        (_, usize::MAX) => write!(out, " from step {from} on")?,
        _ => write!(out, " from step {from} to step {to}")?,
    }
    if from > steps {
        let some_steps = plural(steps);
        write!(out, ": the run has {steps} step{some_steps}")?;
    }
    out.push_str("\n")
}
