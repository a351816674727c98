//! The numbers of warnings, whose pages are those of `explain` (docs/words/faults.txt). Faults have those of `Fault`.

/// No way leads to a word.
pub(crate) const UNREACHED: u8 = 101;

/// A label of a line of data.
pub(crate) const DATA_LABEL: u8 = 102;

/// A condition that asks a code from before its word.
pub(crate) const EARLIER_CODE: u8 = 103;

/// A statement in a comment.
pub(crate) const STATEMENT_IN_COMMENT: u8 = 115;
