//! Schedules as written text.

ghost use Rattle.std.specs.Prelude.{◌≡◌, ◌++◌, IfOk, OnOk, string_bytes};
ghost use Rattle.trace_text.specs.Runs.{schedule_line, schedule_run_text, schedule_text};

use processor::{MAX_STEPS, Step};
use std::alloc::{AllocError, Global};
use std::fmt::Write;
use text_parts::run_length;

/// The text of a schedule: one line `p s n` for each run of equal steps that is as long as it can be, and for a run
/// of more than [`MAX_STEPS`] steps lines of so many and one of the rest ("Schedules", docs/FORMATS.md).
pub fn write_schedule(alloc: Global, steps: &[Step]) -> Result<String, AllocError>
    ensures { IfOk result (λ text. string_bytes text ≡ schedule_text steps.now) }
{
    let mut text = String::new(alloc);
    let mut rest = steps;
    while let Some(first) = rest.first() {
        let times = run_length(rest, first);
        write_run(&mut text, *first, times)?;
        let (_, after) = rest.split_at(times);
        rest = after;
    }
    Ok(text)
}

#[tactic(auto, unfolding(crate::specs::Runs::schedule_run_text))]
fn write_run(text: &mut String, step: Step, times: usize) -> Result<(), AllocError>
    ensures { OnOk result (string_bytes text.new
        ≡ string_bytes text.old ++ schedule_run_text (record { thing = step; times = times })) }
{
    for _full in 0..times / MAX_STEPS {
        write_line(text, step, MAX_STEPS)?;
    }
    let last = times % MAX_STEPS;
    if last != 0 {
        write_line(text, step, last)?;
    }
    Ok(())
}

#[tactic(auto, unfolding(crate::specs::Runs::schedule_line))]
fn write_line(text: &mut String, step: Step, times: usize) -> Result<(), AllocError>
    ensures { OnOk result (string_bytes text.new
        ≡ string_bytes text.old ++ schedule_line (record { thing = step; times = times })) }
{
    let p = step.p;
    let s = step.s;
    writeln!(text, "{p} {s} {times}")
}
