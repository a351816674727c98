//! Sets of steps that can be taken before all others (docs/LAB.md, "Every schedule").
#![tactic(auto)]

mod deciding;
mod finding;
mod forward_bits;
mod laws;
mod tables;
mod unread_loads;

pub use deciding::is_apart_set;
pub use finding::apart_set;
pub use forward_bits::may_forward;
pub use laws::apart_sets_are_first;
pub use tables::touch_tables;
pub use unread_loads::unread_loads_agree;
