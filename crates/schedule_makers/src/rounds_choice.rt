//! The running streams in rounds.

ghost use Rattle.std.specs.Prelude.{◌≡◌, find};
ghost use Rattle.schedule_makers.specs.Rules.{is_behind, is_after_last, next_after, choice_in_rounds};

use crate::steps_at::step_at;
use processor::Step;

/// The next one after the last step in the order of processor and stream, and from the first again.
pub(crate) fn next_in_rounds(made: &[Step], running: &[Step]) -> Option<Step>
    ensures { result ≡ choice_in_rounds made.now running.now }
{
    next_after(made.last().copied(), running)
}

/// The first of the running streams that comes after the last step, else the first of them.
fn next_after(last: Option<Step>, running: &[Step]) -> Option<Step>
    ensures { result ≡ next_after is_behind last running.now }
{
    first_after(last, running).or(step_at(running, 0))
}

fn first_after(last: Option<Step>, running: &[Step]) -> Option<Step>
    ensures { result ≡ find (is_after_last is_behind last) running.now }
{
    running.iter().copied().find(|u| is_after_last(last, *u))
}

/// Whether a step comes after the last one in the order of processor and stream.
pub(crate) fn is_after_last(last: Option<Step>, step: Step) -> bool
    ensures { result ≡ is_after_last is_behind last step }
{
    match last {
        None => true,
        Some(last) => last.p < step.p || (last.p == step.p && last.s < step.s),
    }
}
