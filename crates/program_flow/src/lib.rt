//! Which registers of a stream may still be read and which condition codes asked for, by its program alone, and that a
//! step of the stream sees no others (docs/MACHINE.md, "One step").
#![tactic(auto)]

mod asked_codes;
mod closed_codes;
mod closed_tables;
mod laws;
mod live_tables;
mod operands;
mod rows;

pub use asked_codes::code_table;
pub use laws::{agreement_is_kept, row_sees_reads, writes_agree};
pub use live_tables::live_table;
pub use operands::skipped;
pub use rows::{CodeRow, Row};
