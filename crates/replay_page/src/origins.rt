//! What the steps of a run wrote, and what each of these values comes from, as JSON.

ghost use Rattle.std.specs.Prelude.{◌<◌, length};
ghost use Rattle.value_origins.specs.Tables.{AreStarts};

use crate::MOST_ASKED_STEPS;
use crate::written::{Written, written_by};
use processor::Step;
use run_findings::Action;
use std::alloc::{AllocError, Global};
use step_views::StepView;
use value_origins::{Location, Starts, last_writer, sources_of};

/// Adds of each step of a run what it wrote, with what it read for that and who wrote it (docs/LAB_REFERENCE.md, "Why a
/// value is there"); null of a run that has too many steps. The actions are those of the same steps from the start.
pub(crate) fn push_origins(
    alloc: Global,
    json: &mut String,
    views: &[StepView],
    actions: &[Action],
) -> Result<(), AllocError> {
    json.push_str(",\n\"why\":")?;
    if actions.len() > MOST_ASKED_STEPS {
        return json.push_str("null");
    }
    let starts = Starts::of(alloc, actions)?;
    json.push_str("[")?;
    for step in 0..actions.len() {
        json.push_str(if step == 0 { "\n[" } else { ",\n[" })?;
        if let Some(view) = views.get(step) {
            let written = written_by(alloc, view, &actions[step])?;
            push_lists(alloc, json, &written, actions, &starts, step)?;
        }
        json.push_str("]")?;
    }
    json.push_str("]")
}

/// Adds a list for each location that a step wrote.
fn push_lists(
    alloc: Global,
    json: &mut String,
    written: &[Written],
    actions: &[Action],
    starts: &Starts,
    step: usize,
) -> Result<(), AllocError>
    requires step_in { step < length actions.now }
    requires starts { AreStarts actions.now starts.now }
{
    for (index, one) in written.iter().enumerate() {
        json.push_str(if index == 0 { "[" } else { ",[" })?;
        match one {
            Written::At(location) => push_list(alloc, json, *location, actions, starts, step)?,
            Written::AllOf(stream) => push_stream(json, *stream)?,
        }
        json.push_str("]")?;
    }
    Ok(())
}

/// Adds a location that a step wrote, then each location that it read for that, and the number of the step that wrote
/// this one last before; 0 where none had.
fn push_list(
    alloc: Global,
    json: &mut String,
    location: Location,
    actions: &[Action],
    starts: &Starts,
    step: usize,
) -> Result<(), AllocError>
    requires step_in { step < length actions.now }
    requires starts { AreStarts actions.now starts.now }
{
    let own = actions[step].stream;
    push_location(json, own, location)?;
    let sources = sources_of(alloc, actions, starts, location, step)?;
    for source in &sources {
        push_source(json, own, source.location, source.step)?;
    }
    Ok(())
}

/// Adds a location that was read, and the number of the step that wrote it last before.
fn push_source(
    json: &mut String,
    own: Step,
    location: Location,
    step: Option<usize>,
) -> Result<(), AllocError> {
    json.push_str(",")?;
    push_location(json, own, location)?;
    let number = match step {
        Some(before) => before.saturating_add(1),
        None => 0,
    };
    write!(json, ",{number}")
}

/// Adds the name of a location, without that of the step's own stream.
fn push_location(json: &mut String, own: Step, location: Location) -> Result<(), AllocError> {
    match location {
        Location::Register { stream, register } => push_part(json, own, stream, "r", register),
        Location::Target { stream, target } => push_part(json, own, stream, "t", target),
        Location::Word { address } => write!(json, "\"[{address}]\""),
    }
}

/// Adds the name of a register of a stream.
fn push_part(
    json: &mut String,
    own: Step,
    stream: Step,
    kind: &str,
    number: u8,
) -> Result<(), AllocError> {
    json.push_str("\"")?;
    if stream != own {
        push_stream_name(json, stream)?;
        json.push_str(".")?;
    }
    write!(json, "{kind}{number}\"")
}

/// Adds the name of a stream.
fn push_stream_name(json: &mut String, stream: Step) -> Result<(), AllocError> {
    let Step { p, s } = stream;
    write!(json, "{p}.{s}")
}

/// Adds the name of a stream as JSON.
fn push_stream(json: &mut String, stream: Step) -> Result<(), AllocError> {
    json.push_str("\"")?;
    push_stream_name(json, stream)?;
    json.push_str("\"")
}
