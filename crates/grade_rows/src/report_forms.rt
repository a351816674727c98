//! How submissions are reported.

use lab_requests::{GradeFormat, Undecided};

/// How submissions are reported, and what by.
#[derive(Clone, Copy)]
pub struct ReportForm {
    /// The format.
    pub format: GradeFormat,
    /// How a case counts that is not decided.
    pub undecided: Undecided,
    /// How many cases have a name.
    pub named: usize,
    /// How many points there are for all cases.
    pub points: u64,
}
