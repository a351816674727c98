//! Which streams poll, among the states of a search that has all.

use crate::endless::is_of_rest;
use expectation_files::Requirements;
use image_machines::by_room;
use processor::memories::MemOp;
use processor::{Next, Step};
use search_texts::ends_in_words::space::{Edge, Space};
use search_texts::searches::claims::ClaimForm;
use search_texts::searches::endless::KeptConditions;
use search_texts::searches::endless::answered::{RunAnswer, RunCondition};
use search_texts::searches::endless::waits_of_streams::machines::{LoadFault, Machine};
use std::alloc::{AllocError, Global};

/// A stream that polls: from some state its own steps alone lead back to that state, and all that they ask of the memory is to
/// read.
#[derive(Clone, Copy, Debug)]
pub(crate) struct PollingStream {
    /// The stream.
    pub stream: Step,
    /// The lowest program address at which it reads in such a loop: in the first one that is found.
    pub place: u32,
}

/// The streams that poll by the states of a space that has all, in the order of processor and stream.
pub(crate) fn polling_streams(
    alloc: Global,
    space: &Space<'_>,
) -> Result<Vec<PollingStream>, AllocError> {
    by_room!(space.image(), polling_on(alloc, space))
}

/// The same on machines with room for `S` streams a processor.
fn polling_on<const S: usize>(
    alloc: Global,
    space: &Space<'_>,
) -> Result<Vec<PollingStream>, AllocError> {
    let mut polling = Vec::new(alloc);
    for stream in &moving_streams(alloc, space.edges())? {
        if let Some(place) = polled_place::<S>(alloc, space, *stream)? {
            let stream = *stream;
            polling.push(PollingStream { stream, place })?;
        }
    }
    Ok(polling)
}

/// The streams whose steps these are, in the order of processor and stream.
fn moving_streams(alloc: Global, edges: &[Edge]) -> Result<Vec<Step>, AllocError> {
    let mut streams: Vec<Step> = Vec::new(alloc);
    for edge in edges {
        if !streams.contains(&edge.step) {
            streams.push(edge.step)?;
        }
    }
    streams.sort_by_key(|stream: &Step| (stream.p, stream.s))?;
    Ok(streams)
}

/// The lowest address at which a stream reads in the first loop by which it polls; None if it does not.
fn polled_place<const S: usize>(
    alloc: Global,
    space: &Space<'_>,
    stream: Step,
) -> Result<Option<u32>, AllocError> {
    let count = space.len();
    let own = own_steps(alloc, space.edges(), count, stream)?;
    let mut walks: Vec<usize> = vec![in alloc; 0; count]?;
    for place in 0..count {
        if let Some(begin) = loop_after(&own, &mut walks, place)
            && let Some(read) = read_in_loop::<S>(alloc, space, stream, &own, begin)?
        {
            return Ok(Some(read));
        }
    }
    Ok(None)
}

/// For each of so many states the one to which a step of a stream leads from it; None if it leads to no other.
fn own_steps(
    alloc: Global,
    edges: &[Edge],
    count: usize,
    stream: Step,
) -> Result<Vec<Option<u32>>, AllocError> {
    let mut own: Vec<Option<u32>> = vec![in alloc; None; count]?;
    for edge in edges {
        if edge.step == stream
            && let Some(to) = own.get_mut(edge.from as usize)
        {
            *to = Some(edge.to);
        }
    }
    Ok(own)
}

/// The state to which these steps come back that they lead to from a place; None if they come back to none, or if an earlier
/// walk was there. Each state on the way is marked by this walk.
fn loop_after(own: &[Option<u32>], walks: &mut [usize], place: usize) -> Option<usize> {
    let this = place.saturating_add(1);
    let mut here = place;
    for _ in 0..walks.len().saturating_add(1) {
        let walk = walks.get_mut(here)?;
        if *walk == this {
            return Some(here);
        }
        if *walk != 0 {
            return None;
        }
        *walk = this;
        here = next_of(own, here)?;
    }
    None
}

/// The state to which the step leads from one.
fn next_of(own: &[Option<u32>], here: usize) -> Option<usize> {
    match own.get(here) {
        Some(Some(to)) => Some(*to as usize),
        Some(None) | None => None,
    }
}

/// The lowest address at which a stream reads in its loop from a state; None if it reads nothing there, or asks the memory for
/// something else.
fn read_in_loop<const S: usize>(
    alloc: Global,
    space: &Space<'_>,
    stream: Step,
    own: &[Option<u32>],
    begin: usize,
) -> Result<Option<u32>, AllocError> {
    let mut lowest: Option<u32> = None;
    let Some(mut machine) = machine_at::<S>(alloc, space, begin)? else {
        return Ok(None);
    };
    let mut here = begin;
    for _ in 0..own.len() {
        match machine.next(stream.p, stream.s) {
            Next::Ask(request) => match request.op {
                MemOp::Load | MemOp::TagGet => {
                    lowest = lower(lowest, address_of(&machine, stream));
                }
                MemOp::Store | MemOp::Fadd | MemOp::TagSet | MemOp::Purge => return Ok(None),
            },
            Next::Skip | Next::Local => {}
        }
        machine.step(stream.p, stream.s);
        match next_of(own, here) {
            Some(to) if to != begin => here = to,
            _ => break,
        }
    }
    Ok(lowest)
}

/// A machine at the state of a place of a space; None if it has none.
fn machine_at<'i, const S: usize>(
    alloc: Global,
    space: &Space<'i>,
    place: usize,
) -> Result<Option<Machine<'i, S>>, AllocError> {
    if place >= space.len() {
        return Ok(None);
    }
    match space.machine::<S>(alloc, place) {
        Ok(machine) => Ok(Some(machine)),
        Err(LoadFault::NoMemory | LoadFault::Streams) => Err(AllocError),
    }
}

/// The lower of two addresses, if there is a first one.
fn lower(lowest: Option<u32>, address: u32) -> Option<u32> {
    match lowest {
        Some(known) => Some(known.min(address)),
        None => Some(address),
    }
}

/// The program address at which a stream stands.
fn address_of<const S: usize>(machine: &Machine<'_, S>, stream: Step) -> u32 {
    match machine.stream(stream.p, stream.s) {
        Some(found) => found.ssw().pc,
        None => 0,
    }
}

/// Those of these streams of which no line says whether they get further: they may rest nowhere, and no line that says to what
/// the places of one lead was decided.
pub(crate) fn open_polling(
    alloc: Global,
    polling: &[PollingStream],
    required: &Requirements,
    kept: &Option<KeptConditions>,
) -> Result<Vec<PollingStream>, AllocError> {
    let mut open = Vec::new(alloc);
    for found in polling {
        let may_rest = is_of_rest(required.rests(), found.stream);
        if !may_rest && !is_decided(required, kept, found.stream) {
            open.push(*found)?;
        }
    }
    Ok(open)
}

/// Whether a line that says to what places of a stream lead was decided.
fn is_decided(required: &Requirements, kept: &Option<KeptConditions>, stream: Step) -> bool {
    let Some(KeptConditions::Answered(answers)) = kept else {
        return false;
    };
    for (condition, answer) in required.run_conditions().iter().zip(answers) {
        match answer {
            RunAnswer::Evaded(_) | RunAnswer::Kept if leads_from(condition, stream) => return true,
            RunAnswer::Evaded(_) | RunAnswer::Kept | RunAnswer::Undecided => {}
        }
    }
    false
}

/// Whether a condition says to what places of a stream lead.
fn leads_from(condition: &RunCondition, stream: Step) -> bool {
    match condition {
        RunCondition::Leads { leads, .. } => match &leads.from {
            ClaimForm::Streams { groups, .. } => {
                groups.iter().any(|group| group.streams.contains(&stream))
            }
            ClaimForm::Word { .. } | ClaimForm::Compared { .. } => false,
        },
        RunCondition::Overtaken(_) => false,
    }
}
