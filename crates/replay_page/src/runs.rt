//! Runs as JSON.

use crate::marked_rounds::MarkedRound;
use crate::origins::push_origins;
use crate::run_verdicts::JudgedRun;
use crate::waits::RunWait;
use crate::whole_run::WholeRun;
use image_file::Image;
use lab_json::texts::{ProgramNames, RunEnd, wanted_word};
use lab_json::{
    List, Object, RunTitle, difference_value, end_part, findings_value, head_value, step_part,
    stream_value,
};
use machine::{LoadFault, Machine};
use processor::Step;
use run_findings::Action;
use serde_json::Value;
use std::alloc::{AllocError, Global};
use step_views::StepView;
use whole_runs::first_difference;

/// What a run is called.
#[derive(Clone, Copy, Debug)]
pub struct RunNames<'a> {
    /// The program.
    pub program: &'a str,
    /// The schedule.
    pub schedule: &'a str,
}

/// What two runs of a program are called.
#[derive(Clone, Copy, Debug)]
pub struct PairNames<'a> {
    /// The program.
    pub program: &'a str,
    /// The schedule of the one.
    pub one: &'a str,
    /// The schedule of the other.
    pub other: &'a str,
}

/// A run as one JSON object: the program with this text, the world at the start, each step with its changes, the waits,
/// the findings and the end, with how that was judged (docs/LAB_REFERENCE.md, "The data of a page"). The machine has
/// taken no step.
pub(crate) fn run_json<const S: usize>(
    alloc: Global,
    names: RunNames,
    judged: JudgedRun<'_>,
    text: &[u8],
    start: &Machine<'_, S>,
    schedule: &[Step],
) -> Result<String, AllocError> {
    let mut json = open_run(alloc, names, text, start, schedule)?;
    judged.push_members(alloc, &mut json)?;
    json.push_str("}\n")?;
    Ok(json)
}

/// The same of a run whose last steps are a round, and whose end was not judged.
pub(crate) fn round_json<const S: usize>(
    alloc: Global,
    names: RunNames,
    round: MarkedRound,
    text: &[u8],
    start: &Machine<'_, S>,
    schedule: &[Step],
) -> Result<String, AllocError> {
    let mut json = open_run(alloc, names, text, start, schedule)?;
    round.push_member(alloc, &mut json)?;
    json.push_str("}\n")?;
    Ok(json)
}

/// The members of a run, as an object that is not closed, so that others can follow.
fn open_run<const S: usize>(
    alloc: Global,
    names: RunNames,
    text: &[u8],
    start: &Machine<'_, S>,
    schedule: &[Step],
) -> Result<String, AllocError> {
    let title = RunTitle {
        object: "page",
        program: names.program,
        schedule: names.schedule,
    };
    let mut json = open_head(alloc, title, text, start)?;
    push_run(alloc, &mut json, start, schedule)?;
    Ok(json)
}

/// Two runs of a program as one JSON object: what a run has of the program and the world at the start; the first
/// position at which the worlds of the two differ, and in what; of each its schedule's name, and what a run has beside
/// that (docs/LAB_REFERENCE.md, "The data of a page"). The machine has taken no step.
pub(crate) fn pair_json<const S: usize>(
    alloc: Global,
    names: PairNames,
    text: &[u8],
    start: &Machine<'_, S>,
    one: &[Step],
    other: &[Step],
) -> Result<String, AllocError> {
    let mut json = open_pair(alloc, names, text, start)?;
    push_pair(alloc, &mut json, names, start, one, other)?;
    Ok(json)
}

/// The head of two runs, as an object that is not closed.
fn open_pair<const S: usize>(
    alloc: Global,
    names: PairNames,
    text: &[u8],
    start: &Machine<'_, S>,
) -> Result<String, AllocError> {
    let schedules = both_names(alloc, names)?;
    let title = RunTitle {
        object: "pair",
        program: names.program,
        schedule: &schedules,
    };
    open_head(alloc, title, text, start)
}

/// Adds in what two runs differ, and both, and ends the object.
fn push_pair<const S: usize>(
    alloc: Global,
    json: &mut String,
    names: PairNames,
    start: &Machine<'_, S>,
    one: &[Step],
    other: &[Step],
) -> Result<(), AllocError> {
    push_difference::<S>(alloc, json, start.image(), one, other)?;
    json.push_str(",\n\"runs\":[")?;
    push_named_run(alloc, json, names.one, start, one)?;
    json.push_str(",\n")?;
    push_named_run(alloc, json, names.other, start, other)?;
    json.push_str("]}\n")
}

/// Adds the first position at which two runs differ, and in what.
fn push_difference<const S: usize>(
    alloc: Global,
    json: &mut String,
    image: &Image,
    one: &[Step],
    other: &[Step],
) -> Result<(), AllocError> {
    let difference = pair_difference::<S>(alloc, image, one, other)?;
    push_member(alloc, json, "difference", &difference)
}

/// The names of the schedules of two runs.
pub(crate) fn both_names(alloc: Global, names: PairNames) -> Result<String, AllocError> {
    let one = names.one;
    let other = names.other;
    format!(in alloc; "{one} and {other}")
}

/// The head of a run, and how many streams a processor has, as an object that is not closed, so that its other members
/// can follow.
fn open_head<const S: usize>(
    alloc: Global,
    title: RunTitle,
    text: &[u8],
    start: &Machine<'_, S>,
) -> Result<String, AllocError> {
    let mut json = head_text(alloc, title, text, start)?;
    json.pop();
    push_slim(&mut json, start.image().slim())?;
    Ok(json)
}

/// The head of a run as an object.
fn head_text<const S: usize>(
    alloc: Global,
    title: RunTitle,
    text: &[u8],
    start: &Machine<'_, S>,
) -> Result<String, AllocError> {
    let places = ProgramNames::of(alloc, text)?;
    let head = head_value(alloc, title, text, &places, start)?;
    head.to_string(alloc)
}

/// Adds how many streams a processor has, after other members.
fn push_slim(json: &mut String, slim: u16) -> Result<(), AllocError> {
    write!(json, ",\n\"slim\":{slim}")
}

/// The first position at which the runs of an image by two schedules differ, and in what; null where there is none.
fn pair_difference<const S: usize>(
    alloc: Global,
    image: &Image,
    one: &[Step],
    other: &[Step],
) -> Result<Value, AllocError> {
    match first_difference::<S>(alloc, image, one, other) {
        Ok(Some(found)) => difference_value(alloc, found.position, &found.places),
        Ok(None) => Ok(Value::Null),
        Err(LoadFault::NoMemory | LoadFault::Streams) => Err(AllocError),
    }
}

/// Adds a run of two, with the name of its schedule.
fn push_named_run<const S: usize>(
    alloc: Global,
    json: &mut String,
    schedule: &str,
    start: &Machine<'_, S>,
    steps: &[Step],
) -> Result<(), AllocError> {
    json.push_str("{\"schedule\":")?;
    push_quoted(alloc, json, schedule)?;
    push_run(alloc, json, start, steps)?;
    json.push_str("}")
}

/// Adds a text as JSON.
fn push_quoted(alloc: Global, json: &mut String, text: &str) -> Result<(), AllocError> {
    let value = Value::String(String::from_str(alloc, text)?);
    let quoted = value.to_string(alloc)?;
    json.push_str(&quoted)
}

/// Adds the members of a run: its steps, waits, findings, what its values come from, and its end.
fn push_run<const S: usize>(
    alloc: Global,
    json: &mut String,
    start: &Machine<'_, S>,
    schedule: &[Step],
) -> Result<(), AllocError> {
    let run = WholeRun::of(alloc, start, schedule)?;
    push_whole(alloc, json, &run)
}

/// Adds the members of a whole run.
fn push_whole(alloc: Global, json: &mut String, run: &WholeRun) -> Result<(), AllocError> {
    push_steps(alloc, json, &run.views)?;
    push_waits(alloc, json, &run.waits)?;
    push_findings(alloc, json, &run.actions)?;
    push_origins(alloc, json, &run.views, &run.actions)?;
    push_end(alloc, json, &run.end)
}

/// Adds the waits of a run.
fn push_waits(alloc: Global, json: &mut String, waits: &[RunWait]) -> Result<(), AllocError> {
    let value = waits_value(alloc, waits)?;
    push_member(alloc, json, "waits", &value)
}

/// Adds the findings of a run with these steps.
fn push_findings(alloc: Global, json: &mut String, actions: &[Action]) -> Result<(), AllocError> {
    let value = findings_value(alloc, actions)?;
    push_member(alloc, json, "findings", &value)
}

/// Adds the end of a run.
fn push_end(alloc: Global, json: &mut String, end: &RunEnd) -> Result<(), AllocError> {
    let value = end_part(alloc, end)?;
    push_member(alloc, json, "end", &value)
}

/// Adds a member after others.
pub(crate) fn push_member(
    alloc: Global,
    run: &mut String,
    name: &str,
    value: &Value,
) -> Result<(), AllocError> {
    let text = value.to_string(alloc)?;
    run.push_str(",\n\"")?;
    run.push_str(name)?;
    run.push_str("\":")?;
    run.push_str(&text)
}

/// Adds the steps, a line each.
fn push_steps(alloc: Global, run: &mut String, views: &[StepView]) -> Result<(), AllocError> {
    run.push_str(",\n\"steps\":[")?;
    for (index, view) in views.iter().enumerate() {
        run.push_str(if index == 0 { "\n" } else { ",\n" })?;
        push_step(alloc, run, view)?;
    }
    run.push_str("]")
}

/// Adds a step.
fn push_step(alloc: Global, run: &mut String, view: &StepView) -> Result<(), AllocError> {
    let value = step_part(alloc, view)?;
    let text = value.to_string(alloc)?;
    run.push_str(&text)
}

/// The waits of a run.
fn waits_value(alloc: Global, waits: &[RunWait]) -> Result<Value, AllocError> {
    let mut values = List::new(alloc);
    for wait in waits {
        values.put(wait_value(alloc, wait));
    }
    values.whole()
}

/// A wait.
fn wait_value(alloc: Global, wait: &RunWait) -> Result<Value, AllocError> {
    let to = match wait.to {
        Some(number) => Value::from(number),
        None => Value::Null,
    };
    let mut fields = Object::new(alloc);
    fields.put("stream", stream_value(alloc, wait.stream));
    fields.put_number("word", wait.wait.address);
    fields.put_text("for", wanted_word(wait.wait.wanted));
    fields.put_number("from", wait.from as u64);
    fields.put_number("tries", wait.tries as u64);
    fields.put_number("made", wait.made as u64);
    fields.put("to", Ok(to));
    fields.put_number("met", wait.met as u64);
    fields.whole()
}
