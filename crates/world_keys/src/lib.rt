//! Keys of worlds: few numbers for a world of an image, the same for the same world and others for any other
//! (docs/MACHINE.md, "Machines").
#![tactic(auto)]

mod buckets;
mod halves;
mod keys;
mod laws;
mod memory_numbers;
mod next_keys;
mod row_lists;
mod stream_numbers;
mod tables;

pub use dead_registers as registers;
pub use keys::world_key;
pub use laws::keys_distinguish_worlds;
pub use next_keys::{Change, mark_of, next_key};
pub use tables::Table;
