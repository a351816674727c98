//! The search among all schedules of a program, and what it comes to, as values: its bounds, who watches it, and the ends
//! that it found (docs/LAB_REFERENCE.md, "Every schedule").
#![tactic(auto)]

mod bounds;
mod explored;
mod held_bytes;
mod kept;
mod laws;
mod looking;
mod searches;
mod spaces;
mod unkept;
mod waits;
mod watching;

pub use bounds::{SearchBound, USUAL_MEGABYTES};
pub use claims;
pub use endless_waits as endless;
pub use explored::Explored;
pub use laws::no_schedule_to_it_is_shorter;
pub use processor::Step;
pub use searches::{ProgramSearch, SearchFault, explore_program};
pub use space_ends as ends_of_space;
pub use unkept::{Unkept, UnkeptConditions, UnkeptWaits};
pub use waits::endless_waits_of;
pub use watching::Console;
