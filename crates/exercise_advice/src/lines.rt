//! Lines of a file of advice.

use crate::facts::SoughtFact;
use judgements::VerdictKind;
use std::alloc::{AllocError, AllocFailed};

/// A line of a file of advice: a sentence, and what has to be so for it to be said.
#[derive(Drop)]
pub struct AdviceLine {
    /// The verdict on the program.
    pub verdict: VerdictKind,
    /// The facts that have to hold, all of them.
    pub facts: Vec<SoughtFact>,
    /// The sentence.
    pub sentence: String,
}

/// What is wrong with a line of a file of advice.
#[derive(Clone, Copy, Debug, PartialEq, Eq)]
pub enum AdviceFaultKind {
    /// It is no UTF-8.
    Bytes,
    /// It has no sentence, or nothing between two commas.
    Sentence,
    /// No verdict on a program that runs is called so.
    Verdict,
    /// No fact is called so.
    Fact,
    /// It is no part of such a fact.
    Part,
    /// The fact has such a part already.
    Twice,
}

/// Why a file of advice can't be read.
#[derive(Drop)]
pub enum AdviceFault {
    /// For what is wrong with a line.
    Line {
        /// The line, counted from 1.
        number: usize,
        /// What is wrong.
        kind: AdviceFaultKind,
        /// The word that is wrong; empty where it is the line.
        word: String,
    },
    /// Memory was refused.
    NoMemory,
}

impl From<AllocError> for AdviceFault {
    fn from(_error: AllocError) -> AdviceFault {
        AdviceFault::NoMemory
    }
}

impl<T: Drop> From<AllocFailed<T>> for AdviceFault {
    fn from(_error: AllocFailed<T>) -> AdviceFault {
        AdviceFault::NoMemory
    }
}
