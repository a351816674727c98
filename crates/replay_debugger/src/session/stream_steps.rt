//! The positions at which a stream has just stepped.

ghost use Rattle.std.specs.Prelude.{◌≡◌, ◌≤◌, length, IfSome, IfNone};
ghost use Rattle.replay_debugger.specs.StreamSteps.{is_of_stream, has_just_stepped};
ghost use Rattle.replay_debugger.specs.Stops.{IsLeastAbove, NoneAbove, IsGreatestBelow, NoneBelow};

use crate::session::Session;
use processor::Step;

impl<'i, const S: usize> Session<'i, S> {
    /// The nearest position above the session's at which this stream of this processor has just stepped: the step
    /// before that position is one of it. None where the stream steps no more.
    pub fn next_of(&self, p: u8, s: u8) -> Option<u64>
        ensures found { IfSome result (λ k. IsLeastAbove (has_just_stepped self.now.schedule p s) self.now.position
            (length self.now.schedule) k) }
        ensures none { IfNone result (NoneAbove (has_just_stepped self.now.schedule p s) self.now.position
            (length self.now.schedule)) }
    {
        let place = next_place(self.schedule(), self.replay.position, p, s)?;
        Some(place as u64)
    }

    /// The nearest position below the session's at which this stream of this processor has just stepped. None where
    /// it has not stepped before.
    pub fn last_of(&self, p: u8, s: u8) -> Option<u64>
        ensures found { IfSome result (λ k. IsGreatestBelow (has_just_stepped self.now.schedule p s)
            self.now.position k) }
        ensures none { IfNone result (NoneBelow (has_just_stepped self.now.schedule p s) self.now.position) }
    {
        let place = last_place(self.schedule(), self.replay.position, p, s)?;
        Some(place as u64)
    }
}

/// Whether a step is one of this stream.
fn is_of(step: Step, p: u8, s: u8) -> bool
    ensures { result ≡ is_of_stream p s (Some step) }
{
    step.p == p && step.s == s
}

/// The nearest position above one at which a stream has just stepped.
fn next_place(schedule: &[Step], position: usize, p: u8, s: u8) -> Option<usize>
    requires { position ≤ length schedule.now }
    ensures found { IfSome result (λ k. IsLeastAbove (has_just_stepped schedule.now p s) position
        (length schedule.now) k) }
    ensures none { IfNone result (NoneAbove (has_just_stepped schedule.now p s) position (length schedule.now)) }
{
    for place in position..schedule.len() {
        if is_of(schedule[place], p, s) {
            return Some(place + 1);
        }
    }
    None
}

/// The nearest position below one at which a stream has just stepped.
fn last_place(schedule: &[Step], position: usize, p: u8, s: u8) -> Option<usize>
    requires { position ≤ length schedule.now }
    ensures found { IfSome result (λ k. IsGreatestBelow (has_just_stepped schedule.now p s) position k) }
    ensures none { IfNone result (NoneBelow (has_just_stepped schedule.now p s) position) }
{
    for place in (0..position.saturating_sub(1)).rev() {
        if is_of(schedule[place], p, s) {
            return Some(place + 1);
        }
    }
    None
}
