//! What is known of a submission by all cases.

ghost use Rattle.std.specs.Prelude.{◌≡◌, ◌<◌, [], length, slice_get, IfOk, IfErr};
ghost use Rattle.std.specs.Option.{option_copied};
ghost use Rattle.program_searches.specs.Statuses.{worst};
ghost use Rattle.judgements.specs.Faults.{IsJudgeFault};
ghost use Rattle.judgements.specs.Statuses.{statuses_of};
ghost use Rattle.judgements.specs.Verdicts.{AreCasesJudged, AreRightCases, IsWorst, IsKindAt, known_of_all, known_in, of_no_case};

use crate::by_case::judged_by_case;
use crate::case_judgements::CaseJudgement;
use crate::cases::{AskedJudging, Case, Submission};
use crate::judge_faults::JudgeFault;
use crate::knowledge::Known;
use crate::verdict_kinds::VerdictKind;
use end_kinds::Status;
use program_searches::Console;
use std::alloc::Global;
use std::io::Write;
use std::thread::Threads;
use std::time::Clock;

/// What is known of a submission by all cases, and what it is by that.
#[derive(Drop)]
pub struct SubmissionJudgement {
    /// What is known by each case, in their order, one at least.
    pub cases: Vec<CaseJudgement>,
    /// The place of the case that decides: the first of the most severe ones.
    pub worst: usize,
    /// What the submission is: right only where it is right by each case.
    pub kind: VerdictKind,
    /// What it means for the exit status: the worst over all cases.
    pub status: Status,
}

impl SubmissionJudgement {
    /// What is known by the case that decides.
    pub fn deciding(&self) -> Option<&CaseJudgement>
        ensures { option_copied result ≡ slice_get self.now.cases.items self.now.worst }
    {
        self.cases.get(self.worst)
    }

    /// What was looked at: of the case that decides, or of all together, where each is right.
    pub fn known(&self) -> Known
        ensures { result ≡ known_in self.now }
    {
        if self.kind.is_right() {
            return known_of_all(&self.cases);
        }
        match self.cases.get(self.worst) {
            Some(case) => case.known,
            None => Known::NOTHING,
        }
    }
}

/// What was looked at of some cases together, of which each is right.
fn known_of_all(cases: &[CaseJudgement]) -> Known
    ensures { result ≡ known_of_all of_no_case cases.now }
{
    let mut known = Known {
        is_every: true,
        ..Known::NOTHING
    };
    for case in cases {
        known = known.with(case.known);
    }
    known
}

/// What is known of a submission by all cases: each is judged, and the most severe one decides, the first of several. It is
/// right only where it is right by each, and so it is where the status is `Done`.
pub fn judged_submission<X: Threads + Sync, C: Clock, E: Write>(
    rt: &X,
    alloc: Global,
    asked: AskedJudging,
    cases: &[Case],
    submission: Submission<'_>,
    console: &mut Console<'_, C, E>,
) -> Result<SubmissionJudgement, JudgeFault>
    ensures cases { IfOk result (λ j. AreCasesJudged
        asked submission.entry.image.now submission.entry.text.now cases.now j.cases.items) }
    ensures worst { IfOk result (λ j. IsWorst j.cases.items j.worst) }
    ensures kind { IfOk result (λ j. IsKindAt j.cases.items j.worst j.kind) }
    ensures status { IfOk result (λ j. j.status ≡ worst Status.Done (statuses_of j.cases.items)) }
    ensures right { IfOk result (λ j. j.kind ≡ VerdictKind.Right → AreRightCases
        asked submission.entry.image.now submission.entry.text.now cases.now) }
    ensures done { IfOk result (λ j. j.status ≡ Status.Done → AreRightCases
        asked submission.entry.image.now submission.entry.text.now cases.now) }
    ensures no_case { IfErr result (λ f. f ≡ JudgeFault.NoCase → cases.now ≡ []) }
    ensures fault { IfErr result (λ f. IsJudgeFault
        asked submission.entry.image.now submission.entry.text.now cases.now f) }
{
    if cases.is_empty() {
        return Err(JudgeFault::NoCase);
    }
    let mut judged = Vec::new(alloc);
    for place in 0..cases.len() {
        match judged_by_case(rt, alloc, asked, &cases[place], submission, console) {
            Ok(judgement) => judged.push(judgement)?,
            Err(fault) => return Err(fault.of_case(place)),
        }
    }
    let worst = worst_of(&judged);
    let kind = kind_at(&judged, worst);
    let status = status_of(&judged);
    Ok(SubmissionJudgement {
        cases: judged,
        worst,
        kind,
        status,
    })
}

/// The place of the first of the most severe of some judgements.
fn worst_of(cases: &[CaseJudgement]) -> usize
    requires { 0 < length cases.now }
    ensures { IsWorst cases.now result }
{
    let mut worst = 0;
    let mut most = cases[0].kind.severity();
    for place in 1..cases.len() {
        let severity = cases[place].kind.severity();
        if severity > most {
            worst = place;
            most = severity;
        }
    }
    worst
}

/// What a submission is by the judgement at a place.
fn kind_at(cases: &[CaseJudgement], place: usize) -> VerdictKind
    requires { place < length cases.now }
    ensures { IsKindAt cases.now place result }
{
    cases[place].kind
}

/// The worst status of some judgements; that of none is `Done`.
fn status_of(cases: &[CaseJudgement]) -> Status
    ensures { result ≡ worst Status.Done (statuses_of cases.now) }
{
    let mut status = Status::Done;
    for case in cases {
        status = status.worse(case.status);
    }
    status
}
