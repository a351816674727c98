//! Outcomes: ends of one line.

use space_ends::states::{EndJudgement, EndState};

/// Ends of the runs of seeds that are one line: they agree in their kind, in who waits or was stopped, in the words that
/// changed, in what is not as expected, and in what is broken on the way.
#[derive(Drop)]
pub struct SeedOutcome {
    /// How the end is judged.
    pub judgement: EndJudgement,
    /// What the end shows.
    pub state: EndState,
    /// The first seed that leads there.
    pub seed: u64,
    /// How many steps its schedule has.
    pub steps: usize,
    /// How many seeds lead there.
    pub runs: usize,
}
