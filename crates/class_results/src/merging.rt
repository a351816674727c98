//! Which of the kept results the rows of a merged table are.

ghost use Rattle.std.specs.Prelude.{◌≡◌, ◌<◌, ◌↔◌, ℕ, IfOk, IfErr, IfNone, IfSome, IsTrue, length, slice_get, slice_index_or, None, Some};
ghost use Rattle.class_results.specs.declared.merging.MergeFault.TheVariants.{NoMemory};
ghost use Rattle.class_results.specs.Merging.{IsFoundAt, AreSame, SaysSame, AgreesWith, AreAlike, IsReasonOf};

use crate::checksums::{Checksum, ResultBasis};
use std::alloc::{AllocError, Global};

/// A kept result, by checksums, and the place of its submission in the sorted list of all.
#[derive(Clone, Copy, Debug)]
pub struct KeptPlace {
    /// The place, from 0.
    pub place: usize,
    /// By what it was judged.
    pub basis: ResultBasis,
    /// Of the row.
    pub row: Checksum,
}

/// Why results make no table.
#[derive(Drop)]
pub enum MergeFault {
    /// Two results of one submission are not the same.
    Differ {
        /// The index of the first.
        one: usize,
        /// The index of the other.
        other: usize,
    },
    /// Memory was refused.
    NoMemory,
}

impl From<AllocError> for MergeFault {
    ghost from_gives = { λ _ fault. fault ≡ NoMemory };

    fn from(_error: AllocError) -> MergeFault {
        MergeFault::NoMemory
    }
}

/// For each submission of the sorted list, which has so many, the index of a kept result of it; None where there is none.
/// Two kept results of one submission that do not say the same make no table.
pub fn merged_places(
    alloc: Global,
    count: usize,
    kept: &[KeptPlace],
) -> Result<Vec<Option<usize>>, MergeFault>
    ensures length { IfOk result (λ v. length v.items ≡ count) }
    ensures found { IfOk result
        (λ v. (place : ℕ) → place < count → IsFoundAt kept.now (length kept.now) place (slice_index_or v.items place None)) }
    ensures alike { IfOk result (λ v. AreAlike kept.now (length kept.now) count) }
    ensures differ { IfErr result (λ f. IsReasonOf kept.now count f) }
{
    let mut found = vec![in alloc; None; count]?;
    for (index, one) in kept.iter().enumerate() {
        let place = one.place;
        if place < found.len() {
            if let Some(known) = differing(kept, found[place], one) {
                return Err(MergeFault::Differ {
                    one: known,
                    other: index,
                });
            }
            found[place] = Some(index);
        }
    }
    Ok(found)
}

/// The index of the kept result that is known of a submission, where this one of it does not say the same.
fn differing(kept: &[KeptPlace], known: Option<usize>, one: &KeptPlace) -> Option<usize>
    ensures none { IfNone result (AgreesWith kept.now known one.now) }
    ensures known { IfSome result (λ k. known ≡ Some k) }
    ensures differs { IfSome result (λ k. SaysSame (slice_get kept.now k) one.now → ⊥) }
{
    let known = known?;
    match kept.get(known) {
        Some(earlier) => {
            if are_same(earlier, one) {
                None
            } else {
                Some(known)
            }
        }
        None => Some(known),
    }
}

/// Whether two kept results say the same.
fn are_same(one: &KeptPlace, other: &KeptPlace) -> bool
    ensures { IsTrue result ↔ AreSame one.now other.now }
{
    one.basis.holds_by(&other.basis) && one.row == other.row
}
