//! Where a label stands.

/// Where a label stands first.
#[derive(Clone, Copy, Debug, PartialEq, Eq)]
pub struct Place {
    /// Its line, from 0.
    pub line: usize,
    /// The number of instruction lines before that line, which is the label's value.
    pub value: usize,
}
