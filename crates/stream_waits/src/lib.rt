//! Who waits for which word at the end of a run, since which step, who turned the word last, and which streams wait for
//! one another in a circle (docs/LAB.md, "Ends").
#![tactic(auto)]

mod circles;
mod places;
mod tries;
mod turns;
mod waits;

pub use circles::circle_of;
pub use places::pc_of;
pub use step_views as views;
pub use turns::LastTurn;
pub use waits::{StreamWait, waits_of};
