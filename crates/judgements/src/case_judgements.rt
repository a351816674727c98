//! What is known of a submission by one case.

ghost use Rattle.std.specs.Prelude.{◌≡◌, max, None, Some, IfOk};
ghost use Rattle.judgements.specs.Missed.{expectation_at, missed_at_end, missed_in_run, missed_by};
ghost use Rattle.judgements.specs.Shown.{JudgedAs, IsShownBy};
ghost use Rattle.end_kinds.specs.Statuses.{badness};
ghost use Rattle.judgements.specs.Statuses.{IsAsBadAsKind, status_of_kind};
ghost use Rattle.judgements.specs.Witnesses.{seed_in, seed_of, schedule_in, schedule_of};

use crate::evaded::Evasion;
use crate::knowledge::Known;
use crate::verdict_kinds::VerdictKind;
use end_kinds::{EndKind, Status};
use expectation_files::LineFault;
use processor::Step;
use program_searches::endless::starving::Starving;
use seed_outcomes::ends_of_space::{SpaceEnd, SpaceEndKind};
use seed_outcomes::seeds::RunFlaw;
use seed_outcomes::states::JudgedEnd;
use seed_outcomes::{SeedOutcome, worst_status};
use seed_work::MissedWork;
use std::alloc::{AllocError, Global};

/// The run of a seed that is not right.
#[derive(Drop)]
pub struct ShownRun {
    /// The seed.
    pub seed: u64,
    /// What is wrong with the run.
    pub flaw: RunFlaw,
    /// Its end.
    pub end: JudgedEnd,
}

/// What decides a verdict.
#[derive(Drop)]
pub enum Reason {
    /// All that was looked at.
    Looked,
    /// The run of a seed.
    Run(ShownRun),
    /// The end at this place among those of all schedules.
    End(usize),
    /// That no schedule shows a claim which has to hold of one world at least.
    NoSchedule {
        /// The place of the first such claim among all.
        claim: usize,
    },
    /// That this stream can wait forever, and none is to: the first one that the search shows.
    Starved(Starving),
    /// That not all runs keep a condition: the first one of which the search shows a run that evades it.
    Evaded(Evasion),
    /// That no run of all seeds shows a claim, which says nothing of other schedules.
    NoRun {
        /// The place of the first such claim among all.
        claim: usize,
    },
    /// That no stream is to loop alone, which no run can show.
    NoRunCan,
    /// That nobody is to wait forever, which no run can show, and which no search decided, if there was one.
    OpenWaits,
    /// That all runs are to keep some condition, which seeds do not decide, and which no search decided, if there was one.
    OpenConditions,
    /// The rule of programs at this place, which the program breaks.
    Rule(usize),
    /// That the run of a seed does not meet a line about who does the work.
    Work(MissedWork),
    /// That a line names what the program lacks, so that it can't be judged.
    Absent {
        /// The line, counted from 1.
        line: usize,
        /// What the program lacks.
        fault: LineFault,
    },
    /// That the submission has no words of the name at this place among those of the case's cells, or fewer.
    Lacking {
        /// The place.
        name: usize,
    },
    /// That the line of this number, from 1, speaks of a word that the case does not give, or that stands elsewhere in the
    /// submission.
    NotGiven {
        /// The number.
        line: usize,
    },
}

/// What shows that a submission is not right.
#[derive(Clone, Drop)]
pub enum Witness {
    /// Nothing, or nothing that runs.
    None,
    /// The run of a seed.
    Seed(u64),
    /// A run by these steps.
    Schedule(Vec<Step>),
}

/// A line of a file of expectations that is not met, by its place among those of its kind.
#[derive(Clone, Copy, Debug, PartialEq, Eq)]
pub enum MissedLine {
    /// An expectation of the end.
    End(usize),
    /// A claim.
    Claim(usize),
    /// The first line that says that no stream ever loops alone.
    Busy,
    /// The first line that says that no stream can wait forever.
    Starved,
    /// A condition on runs.
    Condition(usize),
    /// A rule of programs.
    Rule(usize),
    /// What a stream, or some streams, have to do in a run.
    Work(usize),
    /// The line of this number, from 1, which names what the program lacks.
    Absent {
        /// The number.
        line: usize,
        /// What the program lacks.
        fault: LineFault,
    },
}

/// What is known of a submission by one case.
#[derive(Drop)]
pub struct CaseJudgement {
    /// What the submission is.
    pub kind: VerdictKind,
    /// What was looked at.
    pub known: Known,
    /// What decides it.
    pub reason: Reason,
    /// The ends of all schedules that a search found; none where the runs of seeds decide.
    pub ends: Vec<SpaceEnd>,
    /// The outcomes of the runs of all seeds, where they are asked for and decide; those that most seeds come to first.
    pub outcomes: Vec<SeedOutcome>,
    /// What it means for the exit status: the worst over what the submission is and all ends that were found.
    pub status: Status,
}

impl CaseJudgement {
    /// The judgement of this kind by what was looked at, for this reason, without ends. The status is that of no end
    /// (`with_status`).
    pub(crate) fn plain(
        alloc: Global,
        kind: VerdictKind,
        known: Known,
        reason: Reason,
    ) -> CaseJudgement
        ensures kind { result.kind ≡ kind }
        ensures known { result.known ≡ known }
        ensures reason { result.reason ≡ reason }
        ensures status { result.status ≡ Status.Done }
    {
        CaseJudgement {
            kind,
            known,
            reason,
            ends: Vec::new(alloc),
            outcomes: Vec::new(alloc),
            status: Status::Done,
        }
    }

    /// The same judgement with a status that is as bad as what the submission is.
    pub(crate) fn with_status(self) -> CaseJudgement
        ensures kind { result.kind ≡ self.kind }
        ensures known { result.known ≡ self.known }
        ensures reason { result.reason ≡ self.reason }
        ensures ends { result.ends ≡ self.ends }
        ensures status { IsAsBadAsKind result }
        ensures exact { badness result.status ≡ max (badness (status_of_kind self.kind)) (badness self.status) }
    {
        let mut judgement = self;
        judgement.status = judgement.status.worse(judgement.kind.status());
        judgement
    }

    /// The same judgement, where so many seeds were tried.
    pub(crate) fn with_seeds(self, seeds: Option<usize>) -> CaseJudgement
        ensures kind { result.kind ≡ self.kind }
        ensures known { result.known ≡ record self.known { seeds = seeds } }
        ensures reason { result.reason ≡ self.reason }
        ensures ends { result.ends ≡ self.ends }
        ensures status { result.status ≡ self.status }
    {
        let mut judgement = self;
        judgement.known.seeds = seeds;
        judgement
    }

    /// The same judgement with the outcomes of all seeds, and with the worst status over all of them.
    pub(crate) fn with_outcomes(self, outcomes: Vec<SeedOutcome>) -> CaseJudgement
        ensures kind { result.kind ≡ self.kind }
        ensures known { result.known ≡ self.known }
        ensures reason { result.reason ≡ self.reason }
        ensures shown { (p : JudgedAs) → IsShownBy p self → IsShownBy p result }
    {
        let mut judgement = self;
        judgement.status = judgement.status.worse(worst_status(&outcomes));
        judgement.outcomes = outcomes;
        judgement
    }

    /// What shows that the submission is not right: of a stream that can wait forever the schedule that leads to
    /// its round, and of a run that evades a condition the schedule that leads to where it begins to do so.
    pub fn witness(&self, alloc: Global) -> Result<Witness, AllocError>
        ensures seed { IfOk result (λ w. seed_in w ≡ seed_of self.now.reason) }
        ensures schedule { IfOk result (λ w. schedule_in w ≡ schedule_of self.now.ends.items self.now.reason) }
    {
        match &self.reason {
            Reason::Run(run) => Ok(Witness::Seed(run.seed)),
            Reason::Work(missed) => Ok(Witness::Seed(missed.seed)),
            Reason::End(place) => match self.ends.get(*place) {
                Some(end) => Ok(Witness::Schedule(Vec::from_slice(alloc, &end.schedule)?)),
                None => Ok(Witness::None),
            },
            Reason::Starved(shown) => {
                Ok(Witness::Schedule(Vec::from_slice(alloc, &shown.stem)?))
            }
            Reason::Evaded(shown) => {
                Ok(Witness::Schedule(Vec::from_slice(alloc, &shown.run.stem)?))
            }
            Reason::Looked
            | Reason::NoSchedule { .. }
            | Reason::NoRun { .. }
            | Reason::NoRunCan
            | Reason::OpenWaits
            | Reason::OpenConditions
            | Reason::Rule(_)
            | Reason::Absent { .. }
            | Reason::Lacking { .. }
            | Reason::NotGiven { .. } => Ok(Witness::None),
        }
    }

    /// The line that is not met: the first that the end misses which decides, or the one that is broken or not shown.
    pub fn missed(&self) -> Option<MissedLine>
        ensures { result ≡ missed_by self.now }
    {
        match &self.reason {
            Reason::Looked | Reason::Lacking { .. } | Reason::NotGiven { .. } => None,
            Reason::Run(run) => missed_in(run.flaw, run.end.judgement.missed),
            Reason::End(place) => match self.ends.get(*place) {
                Some(end) => line_missed_by(end),
                None => None,
            },
            Reason::NoSchedule { claim } | Reason::NoRun { claim } => {
                Some(MissedLine::Claim(*claim))
            }
            Reason::NoRunCan => Some(MissedLine::Busy),
            Reason::Starved(_) | Reason::OpenWaits => Some(MissedLine::Starved),
            Reason::Evaded(shown) => Some(MissedLine::Condition(shown.place)),
            Reason::OpenConditions => Some(MissedLine::Condition(0)),
            Reason::Rule(place) => Some(MissedLine::Rule(*place)),
            Reason::Work(missed) => Some(MissedLine::Work(missed.rule)),
            Reason::Absent { line, fault } => Some(MissedLine::Absent {
                line: *line,
                fault: *fault,
            }),
        }
    }
}

/// The line that a run with this flaw breaks or misses, or else the first that its end misses, which is that of the
/// expectation at this place.
fn missed_in(flaw: RunFlaw, missed: Option<usize>) -> Option<MissedLine>
    ensures { result ≡ missed_in_run flaw missed }
{
    match flaw {
        RunFlaw::Broken { claim, .. } => Some(MissedLine::Claim(claim)),
        RunFlaw::Missed { expectation } => Some(MissedLine::End(expectation)),
        RunFlaw::Trap | RunFlaw::Deadlock | RunFlaw::OutOfSteps => expectation_at(missed),
    }
}

/// The first line that an end of all schedules misses, or that its worlds break; None of a set that spins, which does not
/// end.
pub fn line_missed_by(end: &SpaceEnd) -> Option<MissedLine>
    ensures { result ≡ missed_at_end end.now.kind end.now.missed }
{
    match end.kind {
        SpaceEndKind::End(EndKind::Spinning | EndKind::Looping) => None,
        SpaceEndKind::End(
            EndKind::Finished
            | EndKind::Stopped
            | EndKind::Deadlock
            | EndKind::Waiting
            | EndKind::OutOfSteps,
        ) => expectation_at(end.missed),
        SpaceEndKind::Broken { claim } => Some(MissedLine::Claim(claim)),
        SpaceEndKind::Busy => Some(MissedLine::Busy),
    }
}

/// The expectation at a place, as the line that says it.
fn expectation_at(missed: Option<usize>) -> Option<MissedLine>
    ensures { result ≡ expectation_at missed }
{
    match missed {
        Some(place) => Some(MissedLine::End(place)),
        None => None,
    }
}
