//! Which step turned a word last.

ghost use Rattle.std.specs.Prelude.{◌≡◌, ◌↔◌, IsTrue, MatchOption};
ghost use Rattle.step_views.specs.FullBits.{FillsOrEmpties};
ghost use Rattle.stream_waits.specs.Turns.{Turns, IsLastTurn, NoneTurns};

use processor::Step;
use step_views::{Change, StepView};

/// The last step that filled or emptied a word.
#[derive(Clone, Copy, Debug, PartialEq, Eq)]
pub struct LastTurn {
    /// The number of the step, from 1.
    pub number: usize,
    /// Whose step it was.
    pub step: Step,
}

/// The last step that filled or emptied the word at a byte address; None where none did.
pub(crate) fn last_turn(views: &[StepView], address: u64) -> Option<LastTurn>
    ensures { MatchOption result (NoneTurns views.now address) (IsLastTurn views.now address) }
{
    for index in (0..views.len()).rev() {
        let view = &views[index];
        if turns(view, address) {
            return Some(LastTurn {
                number: index + 1,
                step: view.step,
            });
        }
    }
    None
}

/// Whether a step filled or emptied the word at a byte address.
fn turns(view: &StepView, address: u64) -> bool
    ensures { IsTrue result ↔ Turns view.now address }
{
    for change in &view.changes {
        if is_turn(change, address) {
            return true;
        }
    }
    false
}

/// Whether a change filled or emptied the word at a byte address.
fn is_turn(change: &Change, address: u64) -> bool
    ensures { IsTrue result ↔ FillsOrEmpties address change.now }
{
    match change.word_filled_or_emptied() {
        Some(word) => word == address,
        None => false,
    }
}
