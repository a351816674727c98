//! How worlds of a space hang together.

use processor::Step;

/// How a world of a space was found: by a step from the world at an earlier place.
#[derive(Clone, Copy, Debug, PartialEq, Eq)]
pub struct Link {
    /// The place of the world before the step.
    pub from: u32,
    /// The step.
    pub step: Step,
}

/// A step that leads from one world of a space to another one.
#[derive(Clone, Copy, Debug, PartialEq, Eq)]
pub struct Edge {
    /// The place of the world before the step.
    pub from: u32,
    /// The step.
    pub step: Step,
    /// The place of the world after it.
    pub to: u32,
}
