//! The end of a run: what it means for the exit status, and as JSON.

use command_parts::push_object;
use command_parts::texts::RunEnd;
use end_kinds::{Status, status_of};
use lab_json::end_value;
use machine::Machine;
use processor::Step;
use std::alloc::{AllocError, Global};

/// The exit status of an end of which nothing is expected: so each trap that stopped a stream was not.
pub(crate) fn status_of_run(end: &RunEnd) -> Status {
    status_of(end.kind, false, !end.stopped.is_empty())
}

/// Adds how the run of these steps ended in the world of this machine as JSON.
pub(crate) fn push_end_object<const S: usize>(
    alloc: Global,
    out: &mut String,
    end: &RunEnd,
    machine: &Machine<'_, S>,
    steps: &[Step],
) -> Result<(), AllocError> {
    let value = end_value(alloc, end, machine, steps)?;
    push_object(alloc, out, &value)
}
