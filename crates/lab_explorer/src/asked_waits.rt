//! Of which programs it is asked who can wait forever, and among which states.

use crate::endless::is_spinning;
use crate::polling::{PollingStream, polling_streams};
use expectation_files::Requirements;
use image_file::Image;
use lab_requests::{Bounds, ExploreRequest};
use processor::Step;
use search_texts::parts::LabFault;
use search_texts::search_fault;
use search_texts::searches::endless::answered::Rest;
use search_texts::searches::endless::{EndlessWaits, MOST_STATES};
use search_texts::searches::{Console, Explored, ProgramSearch, endless_waits_of, explore_program};
use std::alloc::Global;
use std::io::Write;
use std::time::Clock;

/// A program whose schedules are looked for.
#[derive(Clone, Copy)]
pub(crate) struct SearchedProgram<'a> {
    /// Its image.
    pub image: &'a Image,
    /// The steps that all schedules begin with.
    pub begin: &'a [Step],
    /// Which streams may rest.
    pub rests: &'a [Rest],
}

/// Whether a search leaves open who can wait forever in a program with an endless loop: no line requires an answer.
pub(crate) fn is_left_open(found: &Explored<'_>) -> bool {
    found.waits.is_none() && found.ends.iter().any(|end| is_spinning(end))
}

/// Who can wait forever in a program, and who polls.
#[derive(Drop)]
pub(crate) struct AskedWaits {
    /// Who can wait forever; None if it is not asked, or if a search of all states for it came to its bounds.
    pub waits: Option<EndlessWaits>,
    /// Who polls; nobody if it has no answer who can wait forever, or if objects are printed, which do not say it.
    pub polling: Vec<PollingStream>,
}

impl AskedWaits {
    /// Who can wait forever, if it is asked, and who polls among the states of a search. If that is required, the search says itself
    /// who can wait forever.
    fn of(
        alloc: Global,
        found: &Explored<'_>,
        waits: Option<EndlessWaits>,
        is_json: bool,
    ) -> Result<AskedWaits, LabFault> {
        let polling = match waits.as_ref().or(found.waits.as_ref()) {
            Some(EndlessWaits::Answered(_)) if !is_json => polling_streams(alloc, &found.space)?,
            Some(EndlessWaits::Answered(_) | EndlessWaits::Unanswered(_)) | None => Vec::new(alloc),
        };
        Ok(AskedWaits { waits, polling })
    }
}

/// Who can wait forever in a program of which this search was made, and who polls: if it is asked, and in lines for people also if
/// the program has an endless loop.
pub(crate) fn waits_asked<C: Clock, E: Write>(
    alloc: Global,
    request: &ExploreRequest,
    program: SearchedProgram<'_>,
    found: &Explored<'_>,
    console: &mut Console<'_, C, E>,
) -> Result<AskedWaits, LabFault> {
    let is_of_loops = !request.shown.json && is_left_open(found);
    if request.asks_who_waits || (is_of_loops && found.is_of_all_worlds) {
        let waits = endless_waits_of(alloc, found, program.rests)?;
        return AskedWaits::of(alloc, found, Some(waits), request.shown.json);
    }
    if is_of_loops {
        return waits_in_all(alloc, program, request.bounds, console);
    }
    AskedWaits::of(alloc, found, None, request.shown.json)
}

/// Who can wait forever in a program, and who polls, by a search of all states within these bounds, and of no more than
/// [`MOST_STATES`].
fn waits_in_all<C: Clock, E: Write>(
    alloc: Global,
    program: SearchedProgram<'_>,
    bounds: Bounds,
    console: &mut Console<'_, C, E>,
) -> Result<AskedWaits, LabFault> {
    let nothing = Requirements::none(alloc);
    let asked = ProgramSearch {
        required: &nothing,
        begin: program.begin,
        bounds: Bounds {
            worlds: bounds.worlds.min(MOST_STATES),
            ..bounds
        },
        is_plain: true,
    };
    waits_by_search(alloc, program, &asked, console)
}

/// Who can wait forever in a program, and who polls, by this search of all states.
fn waits_by_search<C: Clock, E: Write>(
    alloc: Global,
    program: SearchedProgram<'_>,
    asked: &ProgramSearch<'_>,
    console: &mut Console<'_, C, E>,
) -> Result<AskedWaits, LabFault> {
    match explore_program(alloc, program.image, asked, console) {
        Ok(found) => waits_if_complete(alloc, &found, program.rests),
        Err(fault) => Err(search_fault(alloc, fault)?),
    }
}

/// Who can wait forever by a search of all states, and who polls; without an answer if it is not complete.
fn waits_if_complete(
    alloc: Global,
    found: &Explored<'_>,
    rests: &[Rest],
) -> Result<AskedWaits, LabFault> {
    let waits = if found.is_complete {
        Some(endless_waits_of(alloc, found, rests)?)
    } else {
        None
    };
    AskedWaits::of(alloc, found, waits, false)
}
