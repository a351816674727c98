//! What a line of a schedule says.

use processor::Step;

/// A step, so many times in a row.
#[derive(Clone, Copy, Debug, PartialEq, Eq)]
pub(crate) struct StepRun {
    /// The step.
    pub(crate) step: Step,
    /// How many times it is taken.
    pub(crate) times: usize,
}
