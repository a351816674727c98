//! Graphs whose edges are steps of streams, and rounds of them.

use processor::Step;

/// A step of a stream: it leads from one place to another one, or to the same.
#[derive(Clone, Copy, Debug, PartialEq, Eq)]
pub struct Edge {
    /// The place that it leads from.
    pub from: u32,
    /// The stream.
    pub step: Step,
    /// Whether the step completes; else it is blocked.
    pub completes: bool,
    /// The place that it leads to.
    pub to: u32,
}

/// That a stream runs at a place.
#[derive(Clone, Copy, Debug, PartialEq, Eq)]
pub struct Standing {
    /// The place.
    pub place: u32,
    /// The stream.
    pub step: Step,
    /// Whether its next step there would complete.
    pub can_complete: bool,
}

/// A round: edges that lead one after the other from a place back to it.
#[derive(Drop)]
pub struct Round {
    /// The place.
    pub place: usize,
    /// The edges.
    pub edges: Vec<Edge>,
}

/// What is found of the rounds that are sought.
#[derive(Drop)]
pub enum Answer {
    /// This is one.
    Found(Round),
    /// There is none.
    Absent,
    /// It is not known whether there is one.
    Undecided,
}
