//! Names of places and what stands in them.

use serde_json::Value;
use std::alloc::{AllocError, Global};
use step_views::{Content, Place, StreamPart};
use stream_core::{Outcome, Status};

/// The name of a place: `2.0.r5`, `2.0.pc`, `2.scur`, `[8].value`.
pub fn place_name(alloc: Global, place: Place) -> Result<String, AllocError> {
    match place {
        Place::Stream { p, s, part } => stream_place_name(alloc, p, s, part),
        Place::Current { p } => format!(in alloc; "{p}.scur"),
        Place::Reserved { p } => format!(in alloc; "{p}.sres"),
        Place::Value { address } => format!(in alloc; "[{address}].value"),
        Place::Tags { address } => format!(in alloc; "[{address}].tags"),
    }
}

/// The name of a place of a stream.
fn stream_place_name(alloc: Global, p: u8, s: u8, part: StreamPart) -> Result<String, AllocError> {
    let mut name = format!(in alloc; "{p}.{s}.")?;
    push_part(&mut name, part)?;
    Ok(name)
}

/// Adds the name of a part of a stream.
fn push_part(name: &mut String, part: StreamPart) -> Result<(), AllocError> {
    match part {
        StreamPart::Pc => name.push_str("pc"),
        StreamPart::Codes => name.push_str("codes"),
        StreamPart::Mask => name.push_str("mask"),
        StreamPart::InTrap => name.push_str("trap"),
        StreamPart::TrapRegister => name.push_str("xr"),
        StreamPart::Retries => name.push_str("retries"),
        StreamPart::Status => name.push_str("status"),
        StreamPart::Register(number) => push_numbered(name, "r", number),
        StreamPart::Target(number) => push_numbered(name, "t", number),
    }
}

/// Adds a letter with a number.
fn push_numbered(name: &mut String, letter: &str, number: u8) -> Result<(), AllocError> {
    write!(name, "{letter}{number}")
}

/// What stands in a place.
pub fn content_value(alloc: Global, place: Place, content: Content) -> Result<Value, AllocError> {
    match content {
        Content::Status(status) => status_value(alloc, status),
        Content::Number(number) if !is_small(place) => digits(alloc, number),
        Content::Target(word) => digits(alloc, word.bits()),
        _ => Ok(Value::from(content.number().unwrap_or(0))),
    }
}

/// Whether the numbers of a place have fewer than 64 bits.
fn is_small(place: Place) -> bool {
    match place {
        Place::Stream { part, .. } => part == StreamPart::Pc || part == StreamPart::Retries,
        Place::Current { .. } | Place::Reserved { .. } => true,
        Place::Value { .. } | Place::Tags { .. } => false,
    }
}

/// A 64-bit value, as a string of its decimal digits.
pub fn digits(alloc: Global, value: u64) -> Result<Value, AllocError> {
    Ok(Value::String(format!(in alloc; "{value}")?))
}

/// A stream's status: `idle`, `running`, or `stopped` and the trap.
fn status_value(alloc: Global, status: Status) -> Result<Value, AllocError> {
    let text = match status {
        Status::Idle => String::from_str(alloc, "idle")?,
        Status::Running => String::from_str(alloc, "running")?,
        Status::Stopped(trap) => {
            let number = trap.number();
            format!(in alloc; "stopped {number}")?
        }
    };
    Ok(Value::String(text))
}

/// How a step came out: `done`, `blocked`, `skipped`, `trapped` or `stopped` and the trap.
pub fn outcome_name(alloc: Global, outcome: Outcome) -> Result<String, AllocError> {
    match outcome {
        Outcome::Skipped => String::from_str(alloc, "skipped"),
        Outcome::Done => String::from_str(alloc, "done"),
        Outcome::Blocked => String::from_str(alloc, "blocked"),
        Outcome::Trapped(trap) => {
            let number = trap.number();
            format!(in alloc; "trapped {number}")
        }
        Outcome::Stopped(trap) => {
            let number = trap.number();
            format!(in alloc; "stopped {number}")
        }
    }
}
