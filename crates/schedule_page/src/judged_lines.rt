//! Lines about runs as JSON, each with a run that does not keep it, if there is one.

use crate::ends::schedule_text;
use processor::Step;
use replay_page::json_values::{List, Object};
use serde_json::Value;
use std::alloc::{AllocError, Global};

/// A line about runs that was judged.
#[derive(Clone, Copy)]
pub struct JudgedLine<'a> {
    /// It as it is written.
    pub words: &'a str,
    /// A run that does not keep it; None if all runs keep it.
    pub run: Option<BreakingRun<'a>>,
}

/// A run that does not keep a line.
#[derive(Clone, Copy)]
pub struct BreakingRun<'a> {
    /// The schedule that it begins with, from the start of the program.
    pub stem: &'a [Step],
    /// The steps after it.
    pub way: &'a [Step],
    /// What follows them.
    pub follows: Following<'a>,
}

/// What follows the steps of a run.
#[derive(Clone, Copy)]
pub enum Following<'a> {
    /// These steps, again and again.
    Round(&'a [Step]),
    /// Nothing: no stream has to go on.
    Nothing,
    /// Anything: the steps show enough.
    Anything,
}

/// The lines as JSON; of each run the steps after so many that all schedules begin with.
pub(crate) fn lines_json(
    alloc: Global,
    lines: &[JudgedLine<'_>],
    begin: usize,
) -> Result<Value, AllocError> {
    let mut values = List::new(alloc);
    for line in lines {
        values.put(line_json(alloc, line, begin));
    }
    values.whole()
}

/// A line as JSON.
fn line_json(alloc: Global, line: &JudgedLine<'_>, begin: usize) -> Result<Value, AllocError> {
    let mut fields = Object::new(alloc);
    fields.put_text("line", line.words);
    fields.put("kept", Ok(Value::Bool(line.run.is_none())));
    if let Some(run) = &line.run {
        put_run(alloc, &mut fields, run, begin)?;
    }
    fields.whole()
}

/// Puts the parts of a run.
fn put_run(
    alloc: Global,
    fields: &mut Object,
    run: &BreakingRun<'_>,
    begin: usize,
) -> Result<(), AllocError> {
    let mut steps = Vec::from_slice(alloc, run.stem.get(begin..).unwrap_or(&[]))?;
    steps.extend_from_slice(run.way)?;
    fields.put("schedule", schedule_text(alloc, &steps));
    let (follows, round) = match run.follows {
        Following::Round(round) => ("round", round),
        Following::Nothing => ("nothing", [].as_slice()),
        Following::Anything => ("anything", [].as_slice()),
    };
    fields.put("round", schedule_text(alloc, round));
    fields.put_text("follows", follows);
    Ok(())
}
