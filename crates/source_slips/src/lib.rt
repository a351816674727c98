//! What in a right source text is likely not meant, by the ways that its program may go (docs/LAB_REFERENCE.md,
//! "Checks").
#![tactic(auto)]

mod addresses;
mod closed_codes;
mod codes;
mod falls;
mod full_bit_changes;
mod full_bits;
mod held_registers;
mod lost_results;
mod made_codes;
mod operands;
mod pointers;
mod program;
mod references;
mod registers;
mod rounds;
mod slips;
mod spots;
mod straight_ways;
mod stuck_references;
mod unmade;
mod word_ways;

pub use slips::source_slips;
pub use spots::Slip;
pub use straight_ways::{PastEnd, RunInto, past_ends, runs_into};
pub use unmade::{UnmadeCode, unmade_codes};
