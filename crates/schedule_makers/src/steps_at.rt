//! Steps by their places, and by their streams.

ghost use Rattle.std.specs.Prelude.{◌≡◌, slice_get};
ghost use Rattle.schedule_makers.specs.Rules.{is_of_stream};

use processor::Step;

/// The step at a place.
pub(crate) fn step_at(steps: &[Step], place: usize) -> Option<Step>
    ensures { result ≡ slice_get steps.now place }
{
    steps.get(place).copied()
}

/// Whether a step, which may be missing, is of the same stream as another.
pub(crate) fn is_of_stream(one: Option<Step>, step: Step) -> bool
    ensures { result ≡ is_of_stream one step }
{
    match one {
        None => false,
        Some(one) => one.p == step.p && one.s == step.s,
    }
}
