//! What is made of a machine.

use processor::Step;

/// Why a made schedule ends.
#[derive(Clone, Copy, Debug, PartialEq, Eq)]
pub enum MadeEnd {
    /// No stream runs.
    NobodyRuns,
    /// Streams run, and each of them waits in vain: whatever steps follow, nothing changes any more.
    Standstill,
    /// It has as many steps as it may have, and some stream can go on.
    OutOfSteps,
}

/// A schedule that was made of a machine.
#[derive(Debug, Drop)]
pub struct MadeSchedule {
    /// Its steps, each of a stream that ran then.
    pub steps: Vec<Step>,
    /// Why it has no more of them.
    pub end: MadeEnd,
}
