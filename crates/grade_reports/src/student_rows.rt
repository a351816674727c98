//! What a student may see of a case.

ghost use Rattle.std.specs.Prelude.{◌≡◌, IsTrue, IsFalse, MatchOption};

use grade_rows::CaseRow;
use grade_rows::judges::VerdictKind;

/// What a student may see of a case. All texts for students are made of this.
#[derive(Clone, Copy)]
pub struct StudentRow<'a> {
    /// What the submission is by this case.
    pub kind: VerdictKind,
    /// How many points there are for it.
    pub points: u32,
    /// The row, with what the case gives and expects; None of a hidden case.
    pub shown: Option<&'a CaseRow>,
}

/// What a student may see of a case: of a hidden one the verdict and the points alone.
pub fn row_for_student(row: &CaseRow) -> StudentRow<'_>
    ensures kind { result.kind ≡ row.now.kind }
    ensures points { result.points ≡ row.now.points }
    ensures shown { MatchOption result.shown (IsTrue row.now.is_hidden)
        (λ shown. IsFalse row.now.is_hidden × (shown.now ≡ row.now)) }
{
    StudentRow {
        kind: row.kind,
        points: row.points,
        shown: if row.is_hidden { None } else { Some(row) },
    }
}

/// The place of the case whose run a student may see: the first of the most severe ones that are not hidden; None where each of
/// these is right.
pub fn case_for_student(cases: &[CaseRow]) -> Option<usize> {
    let mut worst = None;
    let mut most = VerdictKind::Right.severity();
    for (place, case) in cases.iter().enumerate() {
        let student = row_for_student(case);
        if student.shown.is_some() && student.kind.severity() > most {
            worst = Some(place);
            most = student.kind.severity();
        }
    }
    worst
}
