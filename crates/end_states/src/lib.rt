//! The end of a run as a value: who was stopped, who waits for which word, which words changed, and how it is judged by
//! what is expected (docs/LAB.md, "Ends").
#![tactic(auto)]

mod judgements;
mod judging;
mod same_states;
mod states;

pub use judgements::EndJudgement;
pub use judging::{JudgedEnd, judged_end};
pub use same_states::are_same_states;
pub use states::{EndState, TrapStop, WaitingStream, end_state_of, trap_stops};
