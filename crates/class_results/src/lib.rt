//! What is decided about the results of a class, as values: which submissions a part has, which kept results still hold,
//! and which result each row of a merged table is (docs/LAB_REFERENCE.md, "Kept results").
#![tactic(auto)]

mod checksums;
mod class_lists;
mod laws;
mod merged_tables;
mod merging;
mod parts;

pub use checksums::{Checksum, ResultBasis};
pub use class_lists::class_of;
pub use laws::parts_and_merges_are_one_call;
pub use merged_tables::{MergedRow, MergedTable, merged_table};
pub use merging::{KeptPlace, MergeFault, merged_places};
pub use parts::{ClassPart, is_judged, judged_in};
