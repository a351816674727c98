//! What is known of the ends of all schedules.

ghost use Rattle.std.specs.Prelude.{◌≡◌, IsTrue, IfOk};
ghost use Rattle.space_ends.specs.Judging.{is_end_kind, judgement_of, expected_end, end_status};
ghost use Rattle.space_ends.specs.Spinning.{are_spinning};
ghost use Rattle.space_ends.specs.Words.{name_of, json_name_of, worlds_in, can_run, running_in};

use crate::going::{Going, GoingStream};
use end_kinds::{EndKind, Status};
use end_states::{EndJudgement, EndState};
use processor::Step;
use std::alloc::{AllocError, Global};

/// What worlds of a space are.
#[derive(Clone, Copy, Debug, PartialEq, Eq)]
pub enum SpaceEndKind {
    /// Ends of this kind; `Spinning` or `Looping` where no schedule from there comes to an end.
    End(EndKind),
    /// Worlds of which a claim does not hold.
    Broken {
        /// The place of the claim among all.
        claim: usize,
    },
    /// The first world from which a stream loops by its own steps alone, where none is to.
    Busy,
}

impl SpaceEndKind {
    /// Its name in tables.
    pub fn name(self) -> &'static str
        ensures { result.now ≡ name_of self }
    {
        match self {
            SpaceEndKind::End(kind) => kind.name(),
            SpaceEndKind::Broken { .. } | SpaceEndKind::Busy => "broken",
        }
    }

    /// Its name in JSON.
    pub fn json_name(self) -> &'static str
        ensures { result.now ≡ json_name_of self }
    {
        match self {
            SpaceEndKind::End(kind) => kind.json_name(),
            SpaceEndKind::Broken { .. } | SpaceEndKind::Busy => "broken",
        }
    }

    /// Whether they are ends, or worlds from which none can be reached: not worlds that break a claim.
    pub fn is_end(self) -> bool
        ensures { result ≡ is_end_kind self }
    {
        match self {
            SpaceEndKind::End(_) => true,
            SpaceEndKind::Broken { .. } | SpaceEndKind::Busy => false,
        }
    }

    /// Whether it goes on forever from these worlds: no schedule leads from there to an end.
    pub fn is_endless(self) -> bool
        ensures { result ≡ are_spinning self }
    {
        match self {
            SpaceEndKind::End(EndKind::Spinning | EndKind::Looping) => true,
            SpaceEndKind::End(
                EndKind::Finished
                | EndKind::Stopped
                | EndKind::Deadlock
                | EndKind::Waiting
                | EndKind::OutOfSteps,
            )
            | SpaceEndKind::Broken { .. }
            | SpaceEndKind::Busy => false,
        }
    }

    /// Whether they are ends of a kind.
    pub(crate) fn is_end_of(self, kind: EndKind) -> bool
        ensures { IsTrue result → self ≡ SpaceEndKind.End kind }
    {
        match self {
            SpaceEndKind::End(found) => found == kind,
            SpaceEndKind::Broken { .. } | SpaceEndKind::Busy => false,
        }
    }
}

/// Ends of one line: they agree in their kind, in who waits, was stopped or goes on forever, in the words that changed, and
/// in the first expectation that they miss. Or the worlds of the space that break a claim.
#[derive(Drop)]
pub struct SpaceEnd {
    /// The kind.
    pub kind: SpaceEndKind,
    /// The place of the first expectation that is missed; of a set that spins, by any of its worlds. None where the program
    /// may go on so.
    pub missed: Option<usize>,
    /// The place of the first claim that is broken on the way of `schedule`, or of the one that these worlds break.
    pub broken: Option<usize>,
    /// Whether a trap that is not expected stopped a stream.
    pub is_trapped: bool,
    /// What each of these worlds shows; of a set that spins the first one, but for who waits; nothing of broken claims.
    pub state: EndState,
    /// The places of the worlds, in ascending order. In a search for ends each stands for all that differ from it in
    /// registers and condition codes alone that do not matter.
    pub places: Vec<usize>,
    /// How many worlds on the way through the steps that all schedules begin with break the claim; 0 of other ends.
    pub before: usize,
    /// How many sets of worlds they are that no step leads out of: each world of an end is one by itself.
    pub sets: usize,
    /// From how many worlds of the space some schedule leads there.
    pub sources: usize,
    /// The schedule that leads to the first of the worlds.
    pub schedule: Vec<Step>,
    /// The steps of a cycle from the first world back to it, or to one for which it stands; empty where it does not loop.
    pub cycle: Vec<Step>,
    /// How the streams go on in a set that spins; none of other ends.
    pub going: Vec<GoingStream>,
    /// The byte addresses of the words that change in a set that spins; none of other ends.
    pub changing: Vec<u64>,
}

impl SpaceEnd {
    /// How the end is judged; None of worlds that break a claim.
    pub fn judgement(&self) -> Option<EndJudgement>
        ensures { result ≡ judgement_of self.now }
    {
        match self.kind {
            SpaceEndKind::End(kind) => Some(EndJudgement {
                kind,
                missed: self.missed,
                broken: self.broken,
                is_trapped: self.is_trapped,
            }),
            SpaceEndKind::Broken { .. } | SpaceEndKind::Busy => None,
        }
    }

    /// Whether it is as expected. Worlds that break a claim never are.
    pub fn is_expected(&self) -> bool
        ensures { result ≡ expected_end self.now }
    {
        match self.judgement() {
            Some(judgement) => judgement.is_expected(),
            None => false,
        }
    }

    /// What it means for the exit status.
    pub fn status(&self) -> Status
        ensures { result ≡ end_status self.now }
    {
        match self.judgement() {
            Some(judgement) => judgement.status(),
            None => Status::Unexpected,
        }
    }

    /// How many worlds it has.
    pub fn worlds(&self) -> usize
        ensures { result ≡ worlds_in self.now }
    {
        self.places.len().saturating_add(self.before)
    }

    /// The streams that can go on in some world of a set that spins.
    pub fn running(&self, alloc: Global) -> Result<Vec<Step>, AllocError>
        ensures { IfOk result (λ v. v.items ≡ running_in self.now.going.items) }
    {
        let mut running = Vec::new(alloc);
        for stream in &self.going {
            if can_run(stream.going) {
                running.push(stream.stream)?;
            }
        }
        Ok(running)
    }
}

/// Whether a stream can go on in some world.
fn can_run(going: Going) -> bool
    ensures { result ≡ can_run going }
{
    match going {
        Going::Runs => true,
        Going::WaitsFor(_) | Going::Waits => false,
    }
}
