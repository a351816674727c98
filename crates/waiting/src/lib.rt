//! Who can go on: which streams run, which of them are stuck, what a blocked stream waits for, and whether nobody can
//! ever go on (docs/MACHINE.md, "Retries", "The full/empty table").
#![tactic(auto)]

mod running;
mod stuck;
mod waiting_for;
mod waits;

pub use machine as machines;
pub use running::{running_streams, runs};
pub use stream_core as streams;
pub use stuck::{is_standstill, is_stuck, some_run};
pub use waiting_for::wait_of;
pub use waits::{Wait, Wanted};
