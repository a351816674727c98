//! Schedules, read from their text.

ghost use Rattle.std.specs.Prelude.{◌≡◌, ◌≢◌, ◌≤◌, ◌+◌, ◌++◌, Ok, Err, IfOk, IfErr, OnOk, replicate, vec_len};
ghost use Rattle.processor.specs.World.{most_steps};
ghost use Rattle.trace_text.specs.Schedules.{schedule_of};
ghost use Rattle.trace_text.specs.LineRuns.{IsLineRun};
ghost use Rattle.trace_text.specs.ScheduleLines.{values_of};
ghost use Rattle.trace_text.specs.declared.schedule_fault.ScheduleFaultKind.TheVariants.{NoMemory};

use crate::line_numbers::LineNumbers;
use crate::runs::StepRun;
use crate::schedule_fault::{ScheduleFault, ScheduleFaultKind};
use processor::{MAX_STEPS, Step};
use std::alloc::{AllocError, Global};
use text_parts::split_line;

/// The steps that a text says, line by line ("Schedules", docs/FORMATS.md).
///
/// The fault is the least line that has one, with the first fault of that line; refused memory may come in place
/// of it.
pub fn read_schedule(alloc: Global, text: &[u8]) -> Result<Vec<Step>, ScheduleFault>
    ensures steps { IfOk result (λ steps. schedule_of text.now ≡ Ok steps.items) }
    ensures fault { IfErr result (λ fault. fault.kind ≢ NoMemory → schedule_of text.now ≡ Err fault) }
    ensures no_memory { IfErr result (λ fault. fault.kind ≡ NoMemory → fault.line ≡ 0) }
{
    let mut steps = Vec::new(alloc);
    let mut rest = text;
    let mut number = 0;
    while !rest.is_empty() {
        let (line, after) = split_line(rest);
        number += 1;
        match read_run(line, steps.len()) {
            Ok(run) => append_run(&mut steps, run)?,
            Err(kind) => return Err(ScheduleFault { line: number, kind }),
        }
        rest = after;
    }
    Ok(steps)
}

/// The steps of a line before which so many steps stand, or its first fault.
fn read_run(line: &[u8], before: usize) -> Result<StepRun, ScheduleFaultKind>
    requires { before ≤ most_steps }
    ensures { IsLineRun before (values_of line.now) result }
{
    let numbers = LineNumbers::read(line).ok_or(ScheduleFaultKind::Form)?;
    let run = numbers.run().ok_or(ScheduleFaultKind::Number)?;
    if run.times > MAX_STEPS - before {
        return Err(ScheduleFaultKind::Limit);
    }
    Ok(run)
}

/// Appends the steps of a run.
fn append_run(steps: &mut Vec<Step>, run: StepRun) -> Result<(), AllocError>
    requires { vec_len steps.old + run.times ≤ most_steps }
    ensures items { OnOk result (steps.new.items ≡ steps.old.items ++ replicate run.times run.step) }
    ensures len { OnOk result (vec_len steps.new ≡ vec_len steps.old + run.times) }
{
    steps.resize(steps.len() + run.times, run.step)
}
