//! What is said of the streams that can wait forever.

use processor::Step;

/// A stream that can wait forever, and how: a schedule, and steps that can follow it again and again.
#[derive(Drop)]
pub struct Starving {
    /// The stream.
    pub stream: Step,
    /// The schedule that leads to the round.
    pub stem: Vec<Step>,
    /// The steps that come back to the state after it.
    pub round: Vec<Step>,
}

/// Which streams of a program can wait forever.
#[derive(Drop)]
pub struct StarvingStreams {
    /// Those that can, each once.
    pub starving: Vec<Starving>,
    /// Those of which it was not decided.
    pub undecided: Vec<Step>,
}
