//! The running streams, a processor after the other.

ghost use Rattle.std.specs.Prelude.{◌≡◌, ◌==◌, ◌∷◌, ◌++◌, [], None, IfSome, find, slice_index_or};
ghost use Rattle.schedule_makers.specs.Rules.{is_behind, is_of_later, is_after_last, next_after, fair_choice, of_processor};
ghost use Rattle.schedule_makers.specs.Fair.{AreLast};

use crate::rounds_choice::is_after_last;
use crate::steps_at::step_at;
use processor::Step;

/// Takes the processors in turn, and of each its streams in turn. It keeps the last step of each processor.
#[derive(Drop)]
pub(crate) struct Fair {
    lasts: [Option<Step>; 256],
}

impl Fair {
    pub(crate) fn new() -> Fair
        ensures { AreLast result.lasts [] }
    {
        Fair { lasts: [None; 256] }
    }

    /// The processor's last step.
    fn last_of(&self, p: u8) -> Option<Step>
        ensures { result ≡ slice_index_or self.now.lasts p None }
    {
        self.lasts[usize::from(p)]
    }

    /// The step that the rule takes of the running streams after the steps that were made.
    pub(crate) fn choose(&mut self, made: &[Step], running: &[Step]) -> Option<Step>
        requires { AreLast self.old.lasts made.now }
        ensures is { result ≡ fair_choice made.now running.now }
        ensures follows { IfSome result (λ t. AreLast self.new.lasts (made.now ++ t ∷ [])) }
    {
        let first = next_of_later(made.last().copied(), running)?;
        let next = next_of(first.p, self.last_of(first.p), running)?;
        self.lasts[usize::from(next.p)] = Some(next);
        Some(next)
    }
}

/// The first of the running streams whose processor comes after that of the last step, else the first of them.
fn next_of_later(last: Option<Step>, running: &[Step]) -> Option<Step>
    ensures { result ≡ next_after is_of_later last running.now }
{
    first_of_later(last, running).or(step_at(running, 0))
}

fn first_of_later(last: Option<Step>, running: &[Step]) -> Option<Step>
    ensures { result ≡ find (is_after_last is_of_later last) running.now }
{
    running.iter().copied().find(|u| is_of_later(last, *u))
}

/// Whether a step's processor comes after that of the last one.
fn is_of_later(last: Option<Step>, step: Step) -> bool
    ensures { result ≡ is_after_last is_of_later last step }
{
    match last {
        None => true,
        Some(last) => last.p < step.p,
    }
}

/// The first of the processor's running streams that comes after its last step, else the first of them.
fn next_of(p: u8, last: Option<Step>, running: &[Step]) -> Option<Step>
    ensures { result ≡ next_after is_behind last (of_processor p running.now) }
{
    next_own(p, last, running).or(first_own(p, running))
}

fn next_own(p: u8, last: Option<Step>, running: &[Step]) -> Option<Step>
    ensures { result ≡ find (is_after_last is_behind last) (of_processor p running.now) }
{
    running
        .iter()
        .copied()
        .filter(|u| u.p == p)
        .find(|u| is_after_last(last, *u))
}

fn first_own(p: u8, running: &[Step]) -> Option<Step>
    ensures { result ≡ find (λ u. u.p == p) running.now }
{
    running.iter().copied().find(|u| u.p == p)
}
