//! The chain of steps that a value comes from.

ghost use Rattle.std.specs.Prelude.{◌≤◌, length};
ghost use Rattle.value_origins.specs.Tables.{AreStarts};

use crate::locations::Location;
use crate::origins::{last_writer, sources_of};
use crate::streams::Starts;
use run_findings::Action;
use std::alloc::{AllocError, Global};

/// A step of a chain, and what it wrote of which later ones made theirs.
#[derive(Clone, Copy, Debug, PartialEq, Eq)]
pub struct Link {
    /// The step, from 0.
    pub step: usize,
    /// What it wrote.
    pub location: Location,
}

/// The chain of steps that a value comes from.
#[derive(Drop)]
pub struct Chain {
    /// The newest first, each once for each location that it wrote.
    pub links: Vec<Link>,
    /// Whether these are all.
    pub is_whole: bool,
}

/// The chain that the value of a location comes from before a step: the last step that wrote it, those that wrote last
/// what that one read for it, and so on, `most` links at most and then the newest. The starts are those of these steps.
pub fn chain_of(
    alloc: Global,
    actions: &[Action],
    starts: &Starts,
    location: Location,
    before: usize,
    most: usize,
) -> Result<Chain, AllocError>
    requires before_in { before ≤ length actions.now }
    requires starts { AreStarts actions.now starts.now }
{
    let mut links = Vec::new(alloc);
    let mut pending = Vec::new(alloc);
    let writer = last_writer(actions, starts, location, before);
    add_writer(&mut pending, location, writer)?;
    for _ in 0..most {
        let Some(link) = take_newest(&mut pending) else {
            break;
        };
        links.push(link)?;
        add_sources(alloc, actions, starts, link, &mut pending)?;
    }
    Ok(Chain {
        links,
        is_whole: pending.is_empty(),
    })
}

/// Adds the steps that wrote last what a step read.
fn add_sources(
    alloc: Global,
    actions: &[Action],
    starts: &Starts,
    link: Link,
    pending: &mut Vec<Link>,
) -> Result<(), AllocError>
    requires { AreStarts actions.now starts.now }
{
    if link.step >= actions.len() {
        return Ok(());
    }
    let sources = sources_of(alloc, actions, starts, link.location, link.step)?;
    for source in &sources {
        add_writer(pending, source.location, source.step)?;
    }
    Ok(())
}

/// Adds the step that wrote a location, where there is one and it is not there yet.
fn add_writer(
    pending: &mut Vec<Link>,
    location: Location,
    step: Option<usize>,
) -> Result<(), AllocError> {
    if let Some(step) = step {
        let link = Link { step, location };
        if !pending.contains(&link) {
            pending.push(link)?;
        }
    }
    Ok(())
}

/// Takes out the one of the newest step.
fn take_newest(pending: &mut Vec<Link>) -> Option<Link> {
    let mut newest: Option<Link> = None;
    let mut place: usize = 0;
    for (index, link) in pending.iter().enumerate() {
        let is_newer = match newest {
            Some(other) => other.step < link.step,
            None => true,
        };
        if is_newer {
            newest = Some(*link);
            place = index;
        }
    }
    if place < pending.len() {
        Some(pending.swap_remove(place))
    } else {
        None
    }
}
