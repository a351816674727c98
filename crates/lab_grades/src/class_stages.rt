//! How far the submissions of a class are, each on its way from a file to a row.

use class_results::Checksum;
use printed_lines::Printer;
use program_pages::searches::Console;
use result_lines::reports::GradeRow;
use submission_rows::parts::{Inputs, LabFault, Program};

/// Where submissions come from, and where rows go.
#[derive(Drop)]
pub(crate) struct Desk<'d, 'p, 'k, 'i, 'w, 'c, F, R, W, X, E> {
    /// The inputs.
    pub inputs: &'d mut Inputs<'i, F, R>,
    /// Standard output.
    pub printer: &'p mut Printer<'w, W>,
    /// Standard error, and the clock.
    pub console: &'k mut Console<'c, X, E>,
}

/// A submission that is to be judged.
#[derive(Drop)]
pub(crate) struct Job {
    /// Its place among all.
    pub place: usize,
    /// Its program.
    pub program: Program,
}

/// A submission that was judged.
#[derive(Drop)]
pub(crate) struct Outcome {
    /// Its place among all.
    pub place: usize,
    /// Its program.
    pub program: Program,
    /// Its row, or why the command gives up.
    pub row: Result<GradeRow, LabFault>,
}

/// A submission that is judged.
#[derive(Drop)]
pub(crate) struct Graded {
    /// Its program; None if it is none, or if nothing asks for it any more.
    pub program: Option<Program>,
    /// What is said of it.
    pub row: GradeRow,
}

/// What is known of a submission that was read.
#[derive(Drop)]
pub(crate) enum Stage {
    /// It is being judged.
    Waiting,
    /// Its text is that of an earlier submission, whose row is its row.
    Same {
        /// The place of the earlier one.
        first: usize,
        /// Its program.
        program: Option<Program>,
    },
    /// It is judged.
    Judged(Graded),
    /// Its row is written.
    Written,
}

/// A submission that was read.
#[derive(Drop)]
pub(crate) struct Slot {
    /// How far it is.
    pub stage: Stage,
    /// The checksum of its text.
    pub text: Checksum,
    /// How many bytes it has.
    pub bytes: usize,
}

/// What came of a try to read on.
#[derive(Drop)]
pub(crate) enum Next {
    /// A submission is to be judged.
    Judge(Job),
    /// The row of the next one is known already.
    Known,
}
