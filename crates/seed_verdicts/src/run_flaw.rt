//! What is wrong with a run.

/// What is wrong with a run. If a run shows several flaws, the first in this order is reported.
#[derive(Clone, Copy, Debug, PartialEq, Eq)]
pub enum RunFlaw {
    /// At its end a trap that nobody expected has stopped a stream.
    Trap,
    /// Some stream runs that may not wait where it stands, and none that runs can go on.
    Deadlock,
    /// Nothing goes on, and the end misses an expectation.
    Missed {
        /// The place of the first that it misses among all, from 0.
        expectation: usize,
    },
    /// A claim does not hold of some world on its way.
    Broken {
        /// After how many steps that is so first.
        taken: usize,
        /// The place of the first that does not hold then among all, from 0.
        claim: usize,
    },
    /// It has as many steps as it may have, and some stream can go on.
    OutOfSteps,
}

/// The run of a seed, and what is wrong with it.
#[derive(Clone, Copy, Debug, PartialEq, Eq)]
pub struct SeedFlaw {
    /// The seed.
    pub seed: u64,
    /// What is wrong.
    pub flaw: RunFlaw,
}

/// Which seeds are tried.
#[derive(Clone, Copy, Debug)]
pub struct Seeds {
    /// The first of them. After the greatest seed comes 0.
    pub first: u64,
    /// How many they are.
    pub count: usize,
    /// The most steps of the run of each.
    pub most: usize,
}
