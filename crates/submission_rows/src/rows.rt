//! The row of a submission that was judged.

ghost use Rattle.std.specs.Prelude.{◌≡◌, IfOk};
ghost use Rattle.submission_rows.specs.Rows.{heads_in, heads_of};

use crate::case_rows::{add_ends_by_case, case_rows, known_as_asked};
use crate::judging::Grading;
use expectation_files::case_marks;
use expectation_messages::parts::Program;
use grade_rows::judges::{Case, Known, SubmissionJudgement, VerdictKind, Witness};
use grade_rows::{CaseRow, CountedEnd, GradeRow, ReportLine};
use std::alloc::{AllocError, Global};

/// How many points there are for some cases together.
pub(crate) fn points_of(cases: &[Case]) -> u64 {
    let mut points: u64 = 0;
    for case in cases {
        points = points.saturating_add(u64::from(case_marks(&case.expected).points));
    }
    points
}

/// The row of a program, by what is known of it: that of the case which decides, or of all cases, where each is right; and a
/// row a case.
pub(crate) fn row_of(
    alloc: Global,
    grading: &Grading<'_, '_>,
    program: &Program,
    judgement: &SubmissionJudgement,
) -> Result<GradeRow, AllocError>
    ensures kind { IfOk result (λ row. row.kind ≡ judgement.now.kind) }
    ensures status { IfOk result (λ row. row.status ≡ judgement.now.status) }
    ensures cases { IfOk result (λ row. heads_in row.cases.items
        ≡ heads_of grading.now.cases.now judgement.now.cases.items) }
{
    let cases = case_rows(alloc, grading, program, &judgement.cases)?;
    let deciding = deciding_text(alloc, judgement, &cases)?;
    let ends = ends_asked(alloc, grading, program, judgement)?;
    Ok(GradeRow {
        kind: judgement.kind,
        case: deciding.case,
        known: known_of(grading, judgement),
        witness: deciding.witness,
        missed: deciding.missed,
        words: deciding.words,
        finding: deciding.finding,
        cases,
        place: None,
        ends,
        page: None,
        status: judgement.status,
    })
}

/// What was looked at. It has no clause, so that of `known` burdens no proof above it.
fn known_of(grading: &Grading<'_, '_>, judgement: &SubmissionJudgement) -> Known {
    known_as_asked(grading, judgement.known())
}

/// What a row says of the case that decides.
#[derive(Drop)]
struct DecidingText {
    /// Its name.
    case: Option<String>,
    /// What shows the verdict.
    witness: Witness,
    /// The line that is not met, or by which the submission can't be judged.
    missed: Option<ReportLine>,
    /// The words.
    words: String,
    /// The finding.
    finding: String,
}

/// What a row says of the case that decides, by the rows of all cases; nothing where each is right.
fn deciding_text(
    alloc: Global,
    judgement: &SubmissionJudgement,
    cases: &[CaseRow],
) -> Result<DecidingText, AllocError> {
    let mut text = DecidingText {
        case: None,
        witness: Witness::None,
        missed: None,
        words: String::new(alloc),
        finding: String::new(alloc),
    };
    if let Some(case) = cases.get(judgement.worst)
        && judgement.kind != VerdictKind::Right
    {
        text.copy_of(case)?;
    }
    Ok(text)
}

impl DecidingText {
    /// Copies what the row of a case says into it.
    fn copy_of(&mut self, case: &CaseRow) -> Result<(), AllocError> {
        self.case = case.name.clone()?;
        self.witness = case.witness.clone()?;
        self.missed = case.missed.clone()?;
        self.words.push_str(&case.words)?;
        self.finding.push_str(&case.finding)
    }
}

/// The ends by the case that decides, or by all cases, where each is right; none where they are not asked for.
fn ends_asked(
    alloc: Global,
    grading: &Grading<'_, '_>,
    program: &Program,
    judgement: &SubmissionJudgement,
) -> Result<Vec<CountedEnd>, AllocError> {
    let mut ends = Vec::new(alloc);
    if !grading.request.counts_all {
        return Ok(ends);
    }
    let is_right = judgement.kind == VerdictKind::Right;
    for (place, (case, judged)) in grading.cases.iter().zip(judgement.cases.iter()).enumerate() {
        if is_right || place == judgement.worst {
            add_ends_by_case(alloc, grading, case, program, judged, &mut ends)?;
        }
    }
    Ok(ends)
}
