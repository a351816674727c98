//! The points of a submission.

ghost use Rattle.std.specs.Prelude.{◌≡◌, ◌-◌, ◌^◌, min};
ghost use Rattle.grade_reports.specs.Scores.{undecided_score, score_of, earned_points, unscored_by, unscored_points};

use grade_rows::CaseRow;
use grade_rows::judges::VerdictKind;
use lab_requests::Undecided;

/// The score of a submission by a case with so many points: all of them where it is right, none where it is wrong; None where
/// it has neither earned nor lost them.
pub fn score_of(undecided: Undecided, kind: VerdictKind, points: u32) -> Option<u32>
    ensures { result ≡ score_of undecided kind points }
{
    match kind {
        VerdictKind::Right => Some(points),
        VerdictKind::NotDecided => undecided_score(undecided, points),
        VerdictKind::NotJudged => None,
        VerdictKind::NotRead
        | VerdictKind::SourceFault
        | VerdictKind::Trap
        | VerdictKind::Deadlock
        | VerdictKind::Wrong
        | VerdictKind::RanOutOfSteps
        | VerdictKind::Spins => Some(0),
    }
}

/// The score of a case with so many points that is not decided.
fn undecided_score(undecided: Undecided, points: u32) -> Option<u32>
    ensures { result ≡ undecided_score undecided points }
{
    match undecided {
        Undecided::Unscored => None,
        Undecided::Right => Some(points),
        Undecided::Wrong => Some(0),
    }
}

/// The sum of the scores by some cases; the greatest number of 64 bits where it is more.
pub fn earned_points(undecided: Undecided, cases: &[CaseRow]) -> u64
    ensures { result ≡ min (earned_points undecided cases.now) (2 ^ 64 - 1) }
{
    let mut earned: u64 = 0;
    let mut rest = cases;
    while let [case, tail @ ..] = rest {
        let score = score_of(undecided, case.kind, case.points).unwrap_or(0);
        earned = earned.saturating_add(u64::from(score));
        rest = tail;
    }
    earned
}

/// The points by a case for which a submission has no score: all of them or none.
fn unscored_by(undecided: Undecided, kind: VerdictKind, points: u32) -> u32
    ensures { result ≡ unscored_by (score_of undecided kind points) points }
{
    match score_of(undecided, kind, points) {
        Some(_) => 0,
        None => points,
    }
}

/// The sum of the points for which a submission has no score by some cases; the greatest number of 64 bits where it is more.
pub(crate) fn unscored_points(undecided: Undecided, cases: &[CaseRow]) -> u64
    ensures { result ≡ min (unscored_points undecided cases.now) (2 ^ 64 - 1) }
{
    let mut unscored: u64 = 0;
    let mut rest = cases;
    while let [case, tail @ ..] = rest {
        let points = unscored_by(undecided, case.kind, case.points);
        unscored = unscored.saturating_add(u64::from(points));
        rest = tail;
    }
    unscored
}

/// Whether a submission has a score by each of some cases.
pub(crate) fn has_all_scores(undecided: Undecided, cases: &[CaseRow]) -> bool {
    cases.iter().all(|case: &CaseRow| -> bool {
        score_of(undecided, case.kind, case.points).is_some()
    })
}
