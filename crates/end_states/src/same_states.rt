//! Whether ends show the same.

ghost use Rattle.std.specs.Prelude.{◌≡◌, ◌↔◌, IsTrue};
ghost use Rattle.end_states.specs.EndStates.{AreSameStates};

use crate::states::{EndState, TrapStop, WaitingStream};
use changed_words::ChangedWord;

/// Whether ends show the same: the same streams were stopped, by the same traps, the same streams wait for the same words,
/// and the same words changed in the same way.
pub fn are_same_states(one: &EndState, other: &EndState) -> bool
    ensures { IsTrue result ↔ AreSameStates one.now other.now }
{
    are_same_stops(&one.stopped, &other.stopped)
        && are_same_waits(&one.waiting, &other.waiting)
        && are_same_words(&one.changed, &other.changed)
}

/// Whether the streams that traps stopped are the same, and their traps.
fn are_same_stops(one: &[TrapStop], other: &[TrapStop]) -> bool
    ensures { IsTrue result ↔ (one.now ≡ other.now) }
{
    one == other
}

/// Whether the streams that wait are the same, and what they wait for.
fn are_same_waits(one: &[WaitingStream], other: &[WaitingStream]) -> bool
    ensures { IsTrue result ↔ (one.now ≡ other.now) }
{
    one == other
}

/// Whether the changed words are the same.
fn are_same_words(one: &[ChangedWord], other: &[ChangedWord]) -> bool
    ensures { IsTrue result ↔ (one.now ≡ other.now) }
{
    one == other
}
