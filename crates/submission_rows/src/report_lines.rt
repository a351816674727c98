//! Lines of a file of expectations, as reports have them.

use expectation_files::{NEVER_BUSY, NEVER_STARVED, Requirements, WrittenLine, written_line};
use grade_rows::ReportLine;
use grade_rows::judges::{Case, MissedLine};
use std::alloc::{AllocError, Global};

/// What a case requires of a program.
#[derive(Clone, Copy)]
pub(crate) struct CaseLines<'a> {
    /// The case.
    pub case: &'a Case,
    /// What was read of it.
    pub required: &'a Requirements,
}

impl CaseLines<'_> {
    /// The line that is not met, as reports have it; None where there is none.
    pub(crate) fn line_of(
        self,
        alloc: Global,
        missed: Option<MissedLine>,
    ) -> Result<Option<ReportLine>, AllocError> {
        let required = self.required;
        match missed {
            None => Ok(None),
            Some(MissedLine::End(place)) => copy_of(alloc, required.end_lines().get(place)),
            Some(MissedLine::Claim(place)) => copy_of(alloc, required.claim_lines().get(place)),
            Some(MissedLine::Condition(place)) => copy_of(
                alloc,
                required.condition_lines().get(place),
            ),
            Some(MissedLine::Rule(place)) => copy_of(alloc, required.rule_lines().get(place)),
            Some(MissedLine::Work(place)) => copy_of(alloc, required.work_lines().get(place)),
            Some(MissedLine::Busy) => fixed_line(alloc, required.never_busy(), NEVER_BUSY),
            Some(MissedLine::Starved) => {
                fixed_line(alloc, required.never_starved(), NEVER_STARVED)
            }
            Some(MissedLine::Absent { line, .. }) => {
                Ok(Some(absent_line(alloc, self.case, line)?))
            }
        }
    }
}

/// The line of a case that names what a program lacks, by its number.
pub(crate) fn absent_line(
    alloc: Global,
    case: &Case,
    line: usize,
) -> Result<ReportLine, AllocError> {
    let written = written_line(alloc, &case.expected, line)?;
    ReportLine::of(alloc, written.number, &written.words)
}

/// The line of this number, whose words are always these; None where there is none.
fn fixed_line(
    alloc: Global,
    number: Option<usize>,
    words: &str,
) -> Result<Option<ReportLine>, AllocError> {
    match number {
        Some(number) => Ok(Some(ReportLine::of(alloc, number, words)?)),
        None => Ok(None),
    }
}

/// A copy of a line, as reports have it.
fn copy_of(alloc: Global, line: Option<&WrittenLine>) -> Result<Option<ReportLine>, AllocError> {
    match line {
        Some(line) => Ok(Some(ReportLine::of(alloc, line.number, &line.words)?)),
        None => Ok(None),
    }
}
