//! How a program is written for people.

use crate::names::ProgramNames;
use crate::values::NumberStyle;

/// How a program and its runs are written for people: the names of its addresses and lines, and how its numbers look.
#[derive(Clone, Copy)]
pub struct Notation<'n, 't> {
    /// The names.
    pub names: &'n ProgramNames<'t>,
    /// How numbers look.
    pub style: NumberStyle,
}
