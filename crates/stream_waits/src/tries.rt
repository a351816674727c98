//! Since when a stream is tried in vain.

ghost use Rattle.std.specs.Prelude.{◌≡◌, ◌↔◌, IsTrue};
ghost use Rattle.stream_waits.specs.Tries.{IsSince};

use processor::Step;
use step_views::StepView;
use stream_core::Outcome;

/// The number, from 1, of the first try of the row of tries in vain with which a stream's steps end; 0 where its last
/// step was not blocked, or there is none.
pub(crate) fn first_try(views: &[StepView], stream: Step) -> usize
    ensures { IsSince views.now stream result }
{
    let mut since = 0;
    for index in (0..views.len()).rev() {
        let view = &views[index];
        if view.step == stream {
            if !is_blocked(view.outcome) {
                return since;
            }
            since = index + 1;
        }
    }
    since
}

/// Whether a step was blocked.
fn is_blocked(outcome: Outcome) -> bool
    ensures { IsTrue result ↔ (outcome ≡ Outcome.Blocked) }
{
    match outcome {
        Outcome::Blocked => true,
        Outcome::Skipped | Outcome::Done | Outcome::Trapped(_) | Outcome::Stopped(_) => false,
    }
}
