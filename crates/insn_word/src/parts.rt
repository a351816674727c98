//! The three parts of a normal word, to and from their digits ("Normal words", docs/FORMATS.md).

mod arithmetic;
mod control;
mod memory;

/// How many digits name a register, 0 to 31.
pub(crate) const REGISTER_WIDTH: u32 = 5;
/// How many digits name a target register, 0 to 7.
const TARGET_WIDTH: u32 = 3;
