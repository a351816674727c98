//! What is found of whether runs keep a condition.

use processor::Step;

/// What is found of a condition on runs.
#[derive(Drop)]
pub enum RunAnswer {
    /// This run evades it.
    Evaded(EvadingRun),
    /// All runs keep it.
    Kept,
    /// It is not known.
    Undecided,
}

/// A run that evades a condition.
#[derive(Drop)]
pub struct EvadingRun {
    /// The schedule that leads to a state where the first condition holds, or the stream waits.
    pub stem: Vec<Step>,
    /// The steps after it.
    pub way: Vec<Step>,
    /// What follows them.
    pub end: RunEnd,
}

/// What follows the last steps of a run.
#[derive(Drop)]
pub enum RunEnd {
    /// Nothing: no stream runs any more, or each that runs may rest.
    Stops,
    /// These steps, again and again: a round that is fair, by words or by steps as the condition asks.
    Repeats(Vec<Step>),
    /// Anything: the steps before it show enough.
    Anything,
}
