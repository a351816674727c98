//! How submissions are judged, and what is said of one.

ghost use Rattle.std.specs.Prelude.{◌≡◌, IfOk};
ghost use Rattle.grade_rows.specs.Judgements.Shown.{limits_of};
ghost use Rattle.submission_rows.specs.RightRows.{IsAskedBy, IsRightAsGraded};

use crate::given_images::image_given;
use crate::memory_shares::{megabytes_in_all, megabytes_of_each};
use crate::rows::{points_of, row_of};
use end_kinds::Status;
use expectation_messages::file_fault;
use expectation_messages::parts::{LabFault, Program};
use grade_rows::judges::{
    AskedJudging, Case, JudgeFault, Submission, SubmissionJudgement, VerdictKind, judged_submission,
};
use grade_rows::{GradeRow, ReportForm};
use lab_requests::{Bounds, GradeRequest};
use lab_texts::NumberStyle;
use search_texts::search_fault;
use search_texts::searches::{Console, SearchFault};
use std::alloc::{AllocError, Global};
use std::io::Write;
use std::thread::Threads;
use std::time::Clock;

/// How submissions are judged.
#[derive(Clone, Copy)]
pub struct Grading<'a, 'r> {
    /// What is asked.
    pub request: &'a GradeRequest<'r>,
    /// The paths of the submissions that are judged, in the order of their rows.
    pub submissions: &'a [&'r str],
    /// The cases, one at least.
    pub cases: &'a [Case],
    /// How the numbers of ends are written.
    pub style: NumberStyle,
    /// How many submissions are judged side by side.
    pub jobs: usize,
    /// How they are reported.
    pub form: ReportForm,
}

impl<'a, 'r> Grading<'a, 'r> {
    /// How the submissions of these paths are judged by these cases, one at least, as is asked, so many side by side.
    pub fn of(
        request: &'a GradeRequest<'r>,
        submissions: &'a [&'r str],
        cases: &'a [Case],
        jobs: usize,
    ) -> Grading<'a, 'r>
        ensures request { result.request.now ≡ request.now }
        ensures submissions { result.submissions.now ≡ submissions.now }
        ensures cases { result.cases.now ≡ cases.now }
        ensures jobs { result.jobs ≡ jobs }
    {
        Grading {
            request,
            submissions,
            cases,
            style: style_of(request),
            jobs,
            form: form_of(request, cases),
        }
    }
}

impl Grading<'_, '_> {
    /// What is asked of each submission. Where there is only one, its seeds are shared among the processors. (To start
    /// threads for each of a class costs more than its runs, where one at a time is asked for.)
    pub fn asked(&self) -> AskedJudging
        ensures requested { IsAskedBy self.now.request.now result }
        ensures all { result.counts_all ≡ self.now.request.now.counts_all }
    {
        AskedJudging {
            explored: self.bounds_of_each(),
            is_thorough: self.request.is_thorough,
            needs_names: self.request.needs_names,
            seeds: self.request.seeds,
            most: self.request.most,
            counts_all: self.request.counts_all,
            is_spread: self.submissions.len() <= 1,
        }
    }

    /// How far the search of each submission goes: those that are judged side by side share the megabytes.
    fn bounds_of_each(&self) -> Option<Bounds>
        ensures { limits_of result ≡ limits_of self.now.request.now.explored }
    {
        let mut bounds = self.request.explored?;
        let in_all = megabytes_in_all(self.request);
        let share = megabytes_of_each(in_all, self.jobs);
        bounds.megabytes = Some(bounds.megabytes.unwrap_or(share).min(share));
        bounds.megabytes_in_all = Some(in_all);
        Some(bounds)
    }
}

/// How submissions are reported that are judged by these cases.
fn form_of(request: &GradeRequest<'_>, cases: &[Case]) -> ReportForm {
    ReportForm {
        format: request.format,
        undecided: request.undecided,
        named: named_cases(cases),
        points: points_of(cases),
    }
}

/// How many cases have a name.
pub(crate) fn named_cases(cases: &[Case]) -> usize {
    cases
        .iter()
        .filter(|case: &&Case| case.name.is_some())
        .count()
}

/// How the numbers of ends are written.
fn style_of(request: &GradeRequest) -> NumberStyle {
    if request.hexadecimal {
        NumberStyle::Hexadecimal
    } else {
        NumberStyle::Decimal
    }
}

/// The row of a submission, which is judged by all cases.
pub fn row_on<X: Threads + Sync, C: Clock, E: Write>(
    rt: &X,
    alloc: Global,
    grading: &Grading<'_, '_>,
    program: &Program,
    console: &mut Console<'_, C, E>,
) -> Result<GradeRow, LabFault>
    ensures right { IfOk result (λ row. row.kind ≡ VerdictKind.Right
        → IsRightAsGraded grading.now program.now.image program.now.text.items) }
    ensures done { IfOk result (λ row. row.status ≡ Status.Done
        → IsRightAsGraded grading.now program.now.image program.now.text.items) }
{
    let judgement = judgement_on(rt, alloc, grading, program, console)?;
    Ok(row_of(alloc, grading, program, &judgement)?)
}

/// What is known of a submission by all cases.
pub(crate) fn judgement_on<X: Threads + Sync, C: Clock, E: Write>(
    rt: &X,
    alloc: Global,
    grading: &Grading<'_, '_>,
    program: &Program,
    console: &mut Console<'_, C, E>,
) -> Result<SubmissionJudgement, LabFault>
    ensures right { IfOk result (λ j. j.kind ≡ VerdictKind.Right
        → IsRightAsGraded grading.now program.now.image program.now.text.items) }
    ensures done { IfOk result (λ j. j.status ≡ Status.Done
        → IsRightAsGraded grading.now program.now.image program.now.text.items) }
{
    let submission = Submission {
        image: &program.image,
        text: &program.text,
    };
    match judged_submission(
        rt,
        alloc,
        grading.asked(),
        grading.cases,
        submission,
        console,
    ) {
        Ok(judgement) => Ok(judgement),
        Err(fault) => Err(fault_on(alloc, grading.cases, program, fault)),
    }
}

/// Why a submission was not judged, as the command says it, unless memory is refused for that.
fn fault_on(alloc: Global, cases: &[Case], program: &Program, fault: JudgeFault) -> LabFault {
    match judge_fault(alloc, cases, program, fault) {
        Ok(fault) => fault,
        Err(_) => LabFault::NoMemory,
    }
}

/// Why a submission was not judged, as the command says it.
fn judge_fault(
    alloc: Global,
    cases: &[Case],
    program: &Program,
    fault: JudgeFault,
) -> Result<LabFault, AllocError> {
    match fault {
        JudgeFault::NoMemory => Ok(LabFault::NoMemory),
        JudgeFault::NoCase => Ok(LabFault::Words(String::from_str(alloc, "there is no case")?)),
        JudgeFault::Clock(error) => search_fault(alloc, SearchFault::Clock(error)),
        JudgeFault::Expectations { case, fault } => {
            let Some(case) = cases.get(case) else {
                return Ok(LabFault::NoMemory);
            };
            let given = given_by(alloc, case, program)?;
            let program = given.as_ref().unwrap_or(program);
            file_fault(alloc, &case.path, &case.expected, fault, program)
        }
    }
}

/// The program with a case's cells; None where the case has none.
pub fn given_by(
    alloc: Global,
    case: &Case,
    program: &Program,
) -> Result<Option<Program>, AllocError> {
    match image_given(alloc, program, case)? {
        Some(image) => Ok(Some(Program {
            text: Vec::from_slice(alloc, &program.text)?,
            image,
        })),
        None => Ok(None),
    }
}
