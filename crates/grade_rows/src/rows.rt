//! What is said of a submission: a row of a report.

ghost use Rattle.std.specs.Prelude.{◌≡◌};
ghost use Rattle.judgements.specs.Statuses.{status_of_kind};

use end_kinds::{EndKind, Status};
use judgements::{Known, VerdictKind, Witness};
use std::alloc::{AllocError, Global};

/// A line of a file of expectations, as reports have it.
#[derive(Clone, Drop)]
pub struct ReportLine {
    /// Its number, from 1.
    pub number: usize,
    /// Its words, with a space between them, without its comment.
    pub text: String,
}

impl ReportLine {
    /// The line of this number with these words.
    pub fn of(alloc: Global, number: usize, words: &str) -> Result<ReportLine, AllocError> {
        Ok(ReportLine {
            number,
            text: String::from_str(alloc, words)?,
        })
    }
}

/// Ends that are counted as one.
#[derive(Drop)]
pub struct CountedEnd {
    /// How they end; None where a claim is broken.
    pub kind: Option<EndKind>,
    /// How many runs of seeds come to them, or how many worlds they are.
    pub count: usize,
    /// What leads there.
    pub witness: Witness,
    /// What they are in words.
    pub text: String,
    /// The first line that they miss.
    pub missed: Option<ReportLine>,
}

/// What is said of a submission by one case.
#[derive(Drop)]
pub struct CaseRow {
    /// The name of the case; None of the only one that a file of expectations is.
    pub name: Option<String>,
    /// Whether no text for a student has what it gives and expects.
    pub is_hidden: bool,
    /// How many points a submission earns by it that is right.
    pub points: u32,
    /// What the submission is by this case.
    pub kind: VerdictKind,
    /// What was looked at.
    pub known: Known,
    /// What shows it.
    pub witness: Witness,
    /// The first line that the end misses, or that is broken on the way; or the line by which it can't be judged.
    pub missed: Option<ReportLine>,
    /// Who was stopped, who waits and which words changed, or what a line asks for that the program does not have.
    pub words: String,
    /// A finding of the run that shows it; empty where it has none.
    pub finding: String,
    /// What it means for the exit status.
    pub status: Status,
}

/// A place in a source.
#[derive(Clone, Copy)]
pub struct SourcePosition {
    /// The line, from 1.
    pub line: usize,
    /// The column, from 1.
    pub column: usize,
}

/// What is said of a submission: what it is, as values, and what needs names, in words.
#[derive(Drop)]
pub struct GradeRow {
    /// What it is.
    pub kind: VerdictKind,
    /// The name of the case that decides; None where there is none, and where each is right.
    pub case: Option<String>,
    /// What was looked at, of the case that decides or else of all together.
    pub known: Known,
    /// What shows it.
    pub witness: Witness,
    /// The first line that the end misses, or that is broken on the way; or the line by which it can't be judged.
    pub missed: Option<ReportLine>,
    /// Why it is no program; else who was stopped, who waits and which words changed, or what a line asks for that the
    /// program does not have.
    pub words: String,
    /// The first finding of the run that shows it.
    pub finding: String,
    /// What is said of it by each case, in the order of the cases; empty of what is no program.
    pub cases: Vec<CaseRow>,
    /// Where a source has its first fault.
    pub place: Option<SourcePosition>,
    /// All ends, where they are asked for.
    pub ends: Vec<CountedEnd>,
    /// The path of the page that shows it; None if none was written.
    pub page: Option<String>,
    /// What it means for the exit status.
    pub status: Status,
}

impl GradeRow {
    /// The row of this kind by what was looked at, with nothing else.
    pub fn plain(alloc: Global, kind: VerdictKind, known: Known) -> GradeRow
        ensures kind { result.kind ≡ kind }
        ensures status { result.status ≡ status_of_kind kind }
    {
        GradeRow {
            kind,
            case: None,
            known,
            witness: Witness::None,
            missed: None,
            words: String::new(alloc),
            finding: String::new(alloc),
            cases: Vec::new(alloc),
            place: None,
            ends: Vec::new(alloc),
            page: None,
            status: kind.status(),
        }
    }

    /// That of a submission that did not run, for this reason.
    pub fn of_no_program(alloc: Global, kind: VerdictKind, words: String) -> GradeRow
        ensures kind { result.kind ≡ kind }
        ensures status { result.status ≡ status_of_kind kind }
    {
        let mut row = GradeRow::plain(alloc, kind, Known::NOTHING);
        row.words = words;
        row
    }
}
