//! Runs by which programs are not right: what `exercise` and `gallery` say to each other of them.

use command_parts::Program;
use expectation_files::Requirements;
use processor::Step;

/// A program that is not right, with the run that shows it.
#[derive(Drop)]
pub struct FailingRun {
    /// The program, with the words of the case that decides.
    pub program: Program,
    /// What this case requires of it.
    pub required: Requirements,
    /// The steps of the run, one at least.
    pub steps: Vec<Step>,
    /// The line that the run misses, if one says that it is not right.
    pub missed: Option<String>,
}

/// A program that is not right, as a page of it shows it.
#[derive(Clone, Copy)]
pub struct ShownFailing<'s> {
    /// What the page calls it.
    pub called: &'s str,
    /// The program, with the words of the case that decides.
    pub program: &'s Program,
    /// What this case requires of it.
    pub required: &'s Requirements,
    /// Whether a run shows that it is not right.
    pub has_run: bool,
    /// The steps of this run.
    pub steps: &'s [Step],
    /// The line that the run misses, if one says that it is not right.
    pub missed: Option<&'s str>,
}
