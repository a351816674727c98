//! The schedule of a history and of records.

ghost use Rattle.std.specs.Prelude.{◌≡◌, ◌≤◌, ◌-◌, ◌+◌, ◌^◌, ◌++◌, min, map, length, IfOk, vec_len, vec_capacity};
ghost use Rattle.std.specs.Prelude.{slice_range, replicate};
ghost use Rattle.shared_history.specs.Parts.{AllBelong, AllHaveEntries};
ghost use Rattle.processor.specs.Histories.{step_by};
ghost use Rattle.shared_history.specs.Schedule.{IsWoven, count_steps};

use crate::SharedMemory;
use processor::{Recorded, Step, Steps};
use std::alloc::{AllocError, Global};

/// How many steps the records have together; the greatest number where they are more.
fn count_steps<const S: usize>(records: &[Recorded<S>]) -> usize
    ensures { result ≡ min (count_steps records.now) (2 ^ 64 - 1) }
{
    let mut count: usize = 0;
    for record in records {
        count = count.saturating_add(record.steps().len());
    }
    count
}

/// Adds a processor's steps from one place up to another, run by run; there is room for them.
fn push_steps(schedule: &mut Vec<Step>, p: u8, steps: &Steps, from: usize, upto: usize)
    requires order { from ≤ upto }
    requires within { upto ≤ length steps.now.numbers }
    requires room { vec_len schedule.old + (upto - from) ≤ vec_capacity schedule.old }
    ensures items { schedule.new.items
        ≡ schedule.old.items ++ map (step_by p) (slice_range steps.now.numbers from upto) }
    ensures len { vec_len schedule.new ≡ vec_len schedule.old + (upto - from) }
    ensures capacity { vec_capacity schedule.new ≡ vec_capacity schedule.old }
{
    let mut place = from;
    while place < upto {
        let Some((s, end)) = steps.run_at(place) else {
            unreachable!();
        };
        let next = end.min(upto);
        push_run(schedule, Step { p, s }, next - place);
        place = next;
    }
}

/// Adds a step so many times, for which there is room.
fn push_run(schedule: &mut Vec<Step>, step: Step, count: usize)
    requires room { vec_len schedule.old + count ≤ vec_capacity schedule.old }
    ensures items { schedule.new.items ≡ schedule.old.items ++ replicate count step }
    ensures len { vec_len schedule.new ≡ vec_len schedule.old + count }
    ensures capacity { vec_capacity schedule.new ≡ vec_capacity schedule.old }
{
    for _ in 0..count {
        schedule.push_reserved(step);
    }
}

/// The schedule of a history and of records whose pairs are its entries. For each entry its processor goes on up to
/// the step that asked; then come the steps that are left. All memory is taken before the first step is added.
pub(crate) fn weave<const S: usize>(
    alloc: Global,
    shared: &SharedMemory,
    records: &[Recorded<S>],
) -> Result<Vec<Step>, AllocError>
    requires belong { AllBelong shared.now records.now }
    requires entries { AllHaveEntries shared.now records.now }
    ensures { IfOk result (λ v.
        IsWoven (record { schedule = v.items; shared = shared.now; records = records.now })) }
{
    let mut schedule = Vec::with_capacity(alloc, count_steps(records))?;
    // of each record, how many steps are in the schedule, and how many pairs they took
    let mut done = vec![in alloc; 0usize; records.len()]?;
    let mut taken = vec![in alloc; 0usize; records.len()]?;
    for entry in shared.entries() {
        let p = entry.p as usize;
        let record = &records[p];
        let steps = record.steps();
        let from = done[p];
        let pair = taken[p];
        let upto = record.place(pair).unwrap() + 1;
        push_steps(&mut schedule, entry.p, steps, from, upto);
        done[p] = upto;
        taken[p] = pair + 1;
    }
    for p in 0..records.len() {
        let record = &records[p];
        let steps = record.steps();
        let from = done[p];
        let upto = steps.len();
        push_steps(&mut schedule, record.number(), steps, from, upto);
        done[p] = upto;
    }
    Ok(schedule)
}
