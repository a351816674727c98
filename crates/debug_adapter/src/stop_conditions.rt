//! Looking for steps that no point of a session stops at.

use machine::Machine;
use processor::Step;
use stream_core::{Outcome, Status};

/// What is looked for.
#[derive(Clone, Copy)]
pub(crate) struct StopConditions {
    /// Steps that trap.
    pub traps: bool,
    /// Steps that are blocked.
    pub blocked: bool,
    /// A step with which this stream no longer runs.
    pub end_of: Option<Step>,
    /// A step after which a stream runs and stands at a program word.
    pub place: Option<(Step, u32)>,
}

/// What was found.
#[derive(Clone, Copy, PartialEq, Eq)]
pub(crate) enum Match {
    /// A step that trapped, or was blocked.
    Exception,
    /// The end of the stream, or the place, that was looked for.
    Goal,
}

impl StopConditions {
    /// Nothing.
    pub(crate) fn nothing() -> StopConditions {
        StopConditions {
            traps: false,
            blocked: false,
            end_of: None,
            place: None,
        }
    }

    /// Whether anything is looked for.
    pub(crate) fn is_any(&self) -> bool {
        self.traps || self.blocked || self.end_of.is_some() || self.place.is_some()
    }

    /// What a step is of this, given the machine after it.
    fn find(&self, machine: &Machine<'_, 128>, step: Step, outcome: Outcome) -> Option<Match> {
        let is_exception = match outcome {
            Outcome::Trapped(_) | Outcome::Stopped(_) => self.traps,
            Outcome::Blocked => self.blocked,
            Outcome::Done | Outcome::Skipped => false,
        };
        if is_exception {
            return Some(Match::Exception);
        }
        if self.end_of == Some(step) && !runs(machine, step) {
            return Some(Match::Goal);
        }
        let (stream, word) = self.place?;
        if stands_at(machine, stream, word) {
            Some(Match::Goal)
        } else {
            None
        }
    }
}

/// Whether a stream runs.
pub(crate) fn runs(machine: &Machine<'_, 128>, stream: Step) -> bool {
    match machine.stream(stream.p, stream.s) {
        Some(stream) => stream.status() == Status::Running,
        None => false,
    }
}

/// Whether a stream runs and stands at a program word.
fn stands_at(machine: &Machine<'_, 128>, stream: Step, word: u32) -> bool {
    match machine.stream(stream.p, stream.s) {
        Some(stream) => stream.status() == Status::Running && stream.ssw().pc == word,
        None => false,
    }
}

/// Takes steps on a machine up to the first that meets the conditions: how many those are, and what was found.
pub(crate) fn first_found(
    machine: &mut Machine<'_, 128>,
    steps: &[Step],
    conditions: &StopConditions,
) -> Option<(usize, Match)> {
    let mut count: usize = 0;
    for step in steps {
        let outcome = machine.step(step.p, step.s);
        count = count.saturating_add(1);
        if let Some(found) = conditions.find(machine, *step, outcome) {
            return Some((count, found));
        }
    }
    None
}

/// Takes all of the steps on a machine: how many lead up to and with the last that meets the conditions, and what was found.
pub(crate) fn last_found(
    machine: &mut Machine<'_, 128>,
    steps: &[Step],
    conditions: &StopConditions,
) -> Option<(usize, Match)> {
    let mut count: usize = 0;
    let mut last = None;
    for step in steps {
        let outcome = machine.step(step.p, step.s);
        count = count.saturating_add(1);
        if let Some(found) = conditions.find(machine, *step, outcome) {
            last = Some((count, found));
        }
    }
    last
}
