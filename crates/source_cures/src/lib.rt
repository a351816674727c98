//! What the sentences of messages about a source text describe: edits that may mend it, none of which is tried here, and other
//! places of the text (docs/LAB_REFERENCE.md, "How a text is mended").
#![tactic(auto)]

mod added_lines;
mod cures;
mod fixes;
mod foreign;
mod letters;
mod marked;
mod numbers;
mod operands;
mod pieces;
mod proposals;
mod references;
mod related;
mod rewriting;
mod source_lines;
mod warned;

pub use cures::CureFinder;
pub use fixes::{Fix, Related};
