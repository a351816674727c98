//! Worlds that differ alone in registers that are never read again, and in condition codes that nobody asks for again, have
//! the same futures but for these (docs/MACHINE.md, "One step").
#![tactic(auto)]

mod handlers;
mod laws;

pub use handlers::may_have_handlers;
pub use laws::{
    agreeing_worlds_are_alike, agreeing_worlds_end_alike, handlers_stay_out, links_are_kept,
    schedules_agree,
};
pub use local_steps as local;
