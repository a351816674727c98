//! How far a search among all schedules went.

/// How far a search among all schedules went.
#[derive(Clone, Copy, Debug, PartialEq, Eq)]
pub enum SearchExtent {
    /// It has all states.
    AllStates,
    /// It looked for all states, and ended before it had them.
    Bounded,
    /// It did not look for all states.
    Reduced,
}
