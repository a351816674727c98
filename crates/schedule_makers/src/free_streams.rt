//! Which streams are free: they run, and the memory would not block their next step.

ghost use Rattle.std.specs.Prelude.{◌≡◌, count_by, filter, slice_get};
ghost use Rattle.machine.specs.MachineValue.{next_in};
ghost use Rattle.schedule_makers.specs.Randomness.{step_by_word};
ghost use Rattle.schedule_makers.specs.Free.{is_blocked_reply, would_block, is_free, is_free_but};

use crate::random_choice::place_by;
use crate::steps_at::is_of_stream;
use machine::Machine;
use processor::{Next, Step};
use tag_memory::Reply;
use waiting::runs;

/// Whether the stream that a step names is free.
pub(crate) fn is_free<const S: usize>(machine: &Machine<'_, S>, step: Step) -> bool
    ensures { result ≡ is_free machine.now.image machine.now.world step }
{
    runs(machine, step.p, step.s) && !would_block(machine, step)
}

/// Whether the memory would reply Blocked to what a step needs.
fn would_block<const S: usize>(machine: &Machine<'_, S>, step: Step) -> bool
    ensures { result ≡ would_block machine.now.world (next_in machine.now step) }
{
    match machine.next(step.p, step.s) {
        Next::Skip | Next::Local => false,
        Next::Ask(request) => is_blocked_reply(machine.ending(&request).reply),
    }
}

fn is_blocked_reply(reply: Reply) -> bool
    ensures { result ≡ is_blocked_reply reply }
{
    match reply {
        Reply::Blocked(_) => true,
        Reply::Done(_) | Reply::Trap(_, _) => false,
    }
}

/// Whether the stream that a step names is free, and another than that of a step, if there is one.
pub(crate) fn is_free_but<const S: usize>(
    out: Option<Step>,
    machine: &Machine<'_, S>,
    step: Step,
) -> bool
    ensures { result ≡ is_free_but out machine.now.image machine.now.world step }
{
    !is_of_stream(out, step) && is_free(machine, step)
}

/// The free one of these streams, but that of a step, if there is one, that a word of 64 bits stands for.
pub(crate) fn free_by_word<const S: usize>(
    word: u64,
    out: Option<Step>,
    machine: &Machine<'_, S>,
    steps: &[Step],
) -> Option<Step>
    ensures { result ≡ step_by_word word (filter (is_free_but out machine.now.image machine.now.world) steps.now) }
{
    let place = place_by(word, count_free(out, machine, steps));
    free_at(out, machine, steps, place)
}

/// How many of these streams are free, but that of a step.
fn count_free<const S: usize>(out: Option<Step>, machine: &Machine<'_, S>, steps: &[Step]) -> usize
    ensures { result ≡ count_by (is_free_but out machine.now.image machine.now.world) steps.now }
{
    steps
        .iter()
        .filter(
            |step: &&Step| -> bool
                ensures { result ≡ is_free_but out machine.entry.now.image machine.entry.now.world step.now.now }
            { is_free_but(out, machine, **step) },
        )
        .count()
}

/// The free one of these streams, but that of a step, at a place of their order.
fn free_at<const S: usize>(
    out: Option<Step>,
    machine: &Machine<'_, S>,
    steps: &[Step],
    place: usize,
) -> Option<Step>
    ensures { result ≡ slice_get (filter (is_free_but out machine.now.image machine.now.world) steps.now) place }
{
    let mut left = place;
    for step in steps {
        if is_free_but(out, machine, *step) {
            if left == 0 {
                return Some(*step);
            }
            left -= 1;
        }
    }
    None
}
