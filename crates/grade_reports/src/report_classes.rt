//! What a verdict counts as in the reports that other programs read.

use grade_rows::judges::VerdictKind;

/// What a verdict counts as in the reports that other programs read.
#[derive(Clone, Copy, PartialEq, Eq)]
pub(crate) enum ReportClass {
    /// The submission is right.
    Passed,
    /// Something was found that is wrong with it.
    Failed,
    /// It did not run.
    NotRun,
    /// Nothing was found against it, but it is not known to be right.
    Skipped,
}

impl ReportClass {
    /// What this verdict counts as.
    pub(crate) fn of(kind: VerdictKind) -> ReportClass {
        match kind {
            VerdictKind::Right => ReportClass::Passed,
            VerdictKind::NotRead | VerdictKind::SourceFault => ReportClass::NotRun,
            VerdictKind::NotJudged | VerdictKind::NotDecided => ReportClass::Skipped,
            VerdictKind::Trap
            | VerdictKind::Deadlock
            | VerdictKind::Wrong
            | VerdictKind::RanOutOfSteps
            | VerdictKind::Spins => ReportClass::Failed,
        }
    }
}
