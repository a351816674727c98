//! Steps.

use crate::places::{content_value, digits, outcome_name, place_name};
use crate::values::{List, Object, text_value};
use serde_json::Value;
use std::alloc::{AllocError, Global};
use step_views::{Change, Reference, StepView};
use stream_core::Outcome;
use tag_memory::{Acc, MemOp, Reply, Request};

/// A step.
pub fn step_value(alloc: Global, view: &StepView) -> Result<Value, AllocError> {
    let mut step = Object::of_kind(alloc, "step");
    put_step(alloc, &mut step, view);
    step.whole()
}

/// A step as a part of the object of a whole run.
pub fn step_part(alloc: Global, view: &StepView) -> Result<Value, AllocError> {
    let mut step = Object::new(alloc);
    put_step(alloc, &mut step, view);
    step.whole()
}

/// Puts `p`, `s`, `pc`, the outcome `o`, `ref` where the memory was asked, and the changes `ch`.
fn put_step(alloc: Global, fields: &mut Object, view: &StepView) {
    fields.put_number("p", u64::from(view.step.p));
    fields.put_number("s", u64::from(view.step.s));
    fields.put_number("pc", u64::from(view.pc));
    fields.put("o", outcome_value(alloc, view.outcome));
    if let Some(reference) = view.reference {
        fields.put("ref", reference_value(alloc, &reference));
    }
    fields.put("ch", changes_value(alloc, &view.changes));
}

/// How a step came out.
fn outcome_value(alloc: Global, outcome: Outcome) -> Result<Value, AllocError> {
    Ok(Value::String(outcome_name(alloc, outcome)?))
}

/// Changes, a list a change.
pub(crate) fn changes_value(alloc: Global, changes: &[Change]) -> Result<Value, AllocError> {
    let mut values = List::new(alloc);
    for change in changes {
        values.put(change_value(alloc, change));
    }
    values.whole()
}

/// A change: the place, what was, what is.
fn change_value(alloc: Global, change: &Change) -> Result<Value, AllocError> {
    let name = place_name(alloc, change.place)?;
    let mut parts = List::new(alloc);
    parts.put(Ok(Value::String(name)));
    parts.put(content_value(alloc, change.place, change.before));
    parts.put(content_value(alloc, change.place, change.after));
    parts.whole()
}

/// A reference: operation, control, the address asked, that of the word that answered, the value given, the reply.
pub fn reference_value(alloc: Global, reference: &Reference) -> Result<Value, AllocError> {
    let request = reference.request;
    let mut parts = List::new(alloc);
    parts.put(text_value(alloc, operation_name(request.op)));
    parts.put(text_value(alloc, control_name(request.acc)));
    parts.put_number(request.pointer.address());
    parts.put_number(reference.address);
    parts.put(given_value(alloc, &request));
    parts.put(reply_value(alloc, reference.reply));
    parts.whole()
}

/// The value that a request gives; null if it gives none.
fn given_value(alloc: Global, request: &Request) -> Result<Value, AllocError> {
    match request.op {
        MemOp::Load | MemOp::TagGet => Ok(Value::Null),
        MemOp::Store | MemOp::Fadd | MemOp::TagSet | MemOp::Purge => digits(alloc, request.value),
    }
}

/// The value of a reply; null if it has none.
fn reply_value(alloc: Global, reply: Reply) -> Result<Value, AllocError> {
    match reply {
        Reply::Done(value) => digits(alloc, value),
        Reply::Blocked(_) | Reply::Trap(_, _) => Ok(Value::Null),
    }
}

/// The name of a memory operation.
fn operation_name(op: MemOp) -> &'static str {
    match op {
        MemOp::Load => "LOAD",
        MemOp::Store => "STORE",
        MemOp::Fadd => "FADD",
        MemOp::TagGet => "TAGGET",
        MemOp::TagSet => "TAGSET",
        MemOp::Purge => "PURGE",
    }
}

/// The letter of a control; empty where it is the pointer's.
fn control_name(acc: Acc) -> &'static str {
    match acc {
        Acc::FromPointer => "",
        Acc::Normal => "N",
        Acc::Future => "F",
        Acc::Sync => "S",
    }
}
