//! The end of a run.

use crate::fields::{Fields, object_of, put_text};
use crate::findings::put_findings;
use crate::streams::{put_streams, stream_value};
use crate::values::Object;
use crate::word_changes::put_words;
use lab_texts::waiting_streams::StreamWait;
use lab_texts::{RunEnd, StoppedStream, wanted_word};
use machine::Machine;
use processor::Step;
use serde_json::{Map, Value};
use std::alloc::{AllocError, Global};

/// The end of a run by these steps, which led the machine to its world: its kind, of whom it is, the words that differ from
/// the image, and the findings.
pub fn end_value<const S: usize>(
    alloc: Global,
    end: &RunEnd,
    machine: &Machine<'_, S>,
    steps: &[Step],
) -> Result<Value, AllocError> {
    let mut fields = object_of(alloc, "end")?;
    put_text(alloc, &mut fields, "kind", end.kind.json_name())?;
    put_end(alloc, &mut fields, end)?;
    put_words(alloc, &mut fields, machine)?;
    put_findings::<S>(alloc, &mut fields, machine.image(), steps)?;
    Ok(Value::Object(fields))
}

/// The end of a run as a part of the object of the whole run: its kind, and of whom it is.
pub fn end_part(alloc: Global, end: &RunEnd) -> Result<Value, AllocError> {
    let mut fields = Map::new(alloc);
    put_text(alloc, &mut fields, "kind", end.kind.json_name())?;
    put_end(alloc, &mut fields, end)?;
    Ok(Value::Object(fields))
}

/// Puts who waits for what, a circle, who could go on, who has quit, who was stopped.
pub(crate) fn put_end(alloc: Global, fields: &mut Fields, end: &RunEnd) -> Result<(), AllocError> {
    put_waits(alloc, fields, &end.waits)?;
    put_streams(alloc, fields, "circle", &end.circle)?;
    put_streams(alloc, fields, "able", &end.able)?;
    put_streams(alloc, fields, "fresh", &end.fresh)?;
    put_streams(alloc, fields, "quit", &end.quit)?;
    put_stopped(alloc, fields, &end.stopped)
}

/// Puts the streams that wait.
fn put_waits(alloc: Global, fields: &mut Fields, waits: &[StreamWait]) -> Result<(), AllocError> {
    let mut waiting = Vec::with_capacity(alloc, waits.len())?;
    for wait in waits {
        waiting.push(wait_value(alloc, wait)?)?;
    }
    serde_json::put(fields, alloc, "waiting", Value::Array(waiting))
}

/// Puts the streams that traps stopped.
fn put_stopped(
    alloc: Global,
    fields: &mut Fields,
    streams: &[StoppedStream],
) -> Result<(), AllocError> {
    let mut stopped = Vec::with_capacity(alloc, streams.len())?;
    for stream in streams {
        stopped.push(stopped_value(alloc, stream)?)?;
    }
    serde_json::put(fields, alloc, "stopped", Value::Array(stopped))
}

/// A stream that waits: for which word, for which state, since which try, and who left the word so in which step.
fn wait_value(alloc: Global, wait: &StreamWait) -> Result<Value, AllocError> {
    let made = match wait.turn {
        Some(turn) => turn.number,
        None => 0,
    };
    let mut fields = Object::new(alloc);
    fields.put("stream", stream_value(alloc, wait.stream));
    fields.put_number("word", wait.wait.address);
    fields.put_text("for", wanted_word(wait.wait.wanted));
    fields.put_number("since", wait.since as u64);
    fields.put_number("made", made as u64);
    fields.put("by", turner_value(alloc, wait));
    fields.whole()
}

/// The stream that left the word of a wait as it is; null if the program began so.
fn turner_value(alloc: Global, wait: &StreamWait) -> Result<Value, AllocError> {
    match wait.turn {
        Some(turn) => stream_value(alloc, turn.step),
        None => Ok(Value::Null),
    }
}

/// A stream that a trap stopped.
fn stopped_value(alloc: Global, stopped: &StoppedStream) -> Result<Value, AllocError> {
    let mut fields = Object::new(alloc);
    fields.put("stream", stream_value(alloc, stopped.stream));
    fields.put_number("trap", u64::from(stopped.trap.number()));
    fields.put_number("address", stopped.address);
    fields.whole()
}
