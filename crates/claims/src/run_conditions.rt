//! What can be required of the runs of a program.

use crate::{ClaimForm, LeadsTo};
use machine::processors::Step;

/// A condition on runs.
#[derive(Drop)]
pub enum RunCondition {
    /// One condition on states leads to another.
    Leads {
        /// The two conditions.
        leads: LeadsTo,
        /// On which runs.
        fairness: Fairness,
    },
    /// A stream is overtaken at most so many times while it waits.
    Overtaken(Overtaking),
}

/// Which runs go on fairly (docs/LAB_REFERENCE.md, "Waiting forever").
#[derive(Clone, Copy, Debug, PartialEq, Eq)]
pub enum Fairness {
    /// Those whose round is fair by words.
    ByWords,
    /// Those whose round is fair by steps alone: more runs.
    BySteps,
}

/// How many times a stream may be overtaken while it waits.
#[derive(Drop)]
pub struct Overtaking {
    /// The stream.
    pub who: Step,
    /// What holds while it waits.
    pub waits: ClaimForm,
    /// What comes to hold each time that it is overtaken.
    pub inside: ClaimForm,
    /// The most times.
    pub most: usize,
}

/// A stream that may rest: where a form holds, it need not be given steps.
#[derive(Drop)]
pub struct Rest {
    /// The stream.
    pub who: Step,
    /// Where it may rest.
    pub places: ClaimForm,
}
