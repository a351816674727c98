//! Steps that concern their own stream alone, or end it where no other stream of its processor asks for one, and so
//! commute with each step of another stream (docs/MACHINE.md, "One step").
#![tactic(auto)]

mod deciding;
mod laws;
mod settling;

pub use deciding::{is_free_step, is_local_step, is_settled_ending};
pub use laws::{ending_steps_commute, local_steps_commute};
pub use settling::{is_calm, settled_places};
