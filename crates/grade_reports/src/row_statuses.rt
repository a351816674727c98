//! The exit status of rows.

ghost use Rattle.std.specs.Prelude.{◌≡◌};
ghost use Rattle.grade_rows.specs.Judgements.ProgramSearches.Statuses.{worst};
ghost use Rattle.grade_reports.specs.RowStatuses.{statuses_of};

use end_kinds::Status;
use grade_rows::GradeRow;

/// The exit status of a call: the worst over all rows. That of none is `Done`.
pub fn worst_status(rows: &[GradeRow]) -> Status
    ensures { result ≡ worst Status.Done (statuses_of rows.now) }
{
    let mut status = Status::Done;
    for row in rows {
        status = status.worse(row.status);
    }
    status
}
