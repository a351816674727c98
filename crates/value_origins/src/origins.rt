//! The steps that values come from.

ghost use Rattle.std.specs.Prelude.{◌≡◌, ◌≤◌, ◌<◌, length, map, IfOk};
ghost use Rattle.value_origins.specs.Origins.{IsLastWriter, AreSources};
ghost use Rattle.value_origins.specs.Tables.{AreStarts};

use crate::locations::{Location, writes_at};
use crate::reading::locations_read;
use crate::streams::Starts;
use run_findings::Action;
use std::alloc::{AllocError, Global};

/// What a step read.
#[derive(Clone, Copy, Debug, PartialEq, Eq)]
pub struct Source {
    /// Where it read.
    pub location: Location,
    /// The last step before it that wrote there, from 0; None where the value is the image's, or the zero with which the
    /// stream begins.
    pub step: Option<usize>,
}

/// The last step before another that wrote a location; None where none did. Steps count from 0, and the starts are those of
/// these steps.
pub fn last_writer(
    actions: &[Action],
    starts: &Starts,
    location: Location,
    before: usize,
) -> Option<usize>
    requires before_in { before ≤ length actions.now }
    requires starts { AreStarts actions.now starts.now }
    ensures { IsLastWriter actions.now location before result }
{
    let mut step = before;
    while step > 0 {
        step -= 1;
        if writes_at(actions, starts, step, location) {
            return Some(step);
        }
    }
    None
}

/// What a step read for what it wrote into a location, each with the last step before that wrote it: a word first, then
/// registers by the order of the operands, each once.
pub fn sources_of(
    alloc: Global,
    actions: &[Action],
    starts: &Starts,
    location: Location,
    step: usize,
) -> Result<Vec<Source>, AllocError>
    requires step_in { step < length actions.now }
    requires starts { AreStarts actions.now starts.now }
    ensures { IfOk result (λ sources. AreSources actions.now location step sources.items) }
{
    let places = locations_read(alloc, &actions[step], location)?;
    let mut sources = Vec::with_capacity(alloc, places.len())?;
    for place in &places {
        let writer = last_writer(actions, starts, *place, step);
        sources.push(Source {
            location: *place,
            step: writer,
        })?;
    }
    Ok(sources)
}
