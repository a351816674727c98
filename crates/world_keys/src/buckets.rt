//! How a list is found among others: each is in a bucket, and linked with the one before it that is in the same bucket.
//! A link is one more than a place, or 0 where there is none.

ghost use Rattle.std.specs.Prelude.{◌≡◌, ◌<◌, ◌≤◌, ◌^◌, ◌↔◌, ℕ, length, slice_index_or, IfSome, IsSome, OnOk};
ghost use Rattle.world_keys.specs.Tables.{place_in, Has};
ghost use Rattle.world_keys.specs.Buckets.{bucket_of, AreLinked, HasBuckets};

use crate::row_lists::RowLists;
use std::alloc::{AllocError, Global};

/// The digits of the golden ratio, by which sums are multiplied.
const MULTIPLIER: u64 = 0x9e37_79b9_7f4a_7c15;

/// How many buckets there are at first.
const FEWEST_BUCKETS: usize = 8;

/// The place of a list among these.
pub(crate) fn find_linked(
    lists: &RowLists,
    heads: &[u32],
    earlier: &[u32],
    list: &[u32],
) -> Option<usize>
    requires { HasBuckets lists.now heads.now earlier.now }
    ensures place { IfSome result (λ k. k ≡ place_in lists.now list.now) }
    ensures there { IsSome result ↔ Has lists.now list.now }
{
    if heads.is_empty() {
        return None;
    }
    let mut link = heads[bucket_of(list, heads.len())];
    while link > 0 {
        let place = link as usize - 1;
        if lists.list(place).unwrap() == list {
            return Some(place);
        }
        link = earlier[place];
    }
    None
}

/// Sees that there are more buckets than lists.
pub(crate) fn make_room(
    alloc: Global,
    lists: &RowLists,
    heads: &mut Vec<u32>,
    earlier: &mut Vec<u32>,
) -> Result<(), AllocError>
    requires { HasBuckets lists.now heads.old.items earlier.old.items }
    ensures linked { HasBuckets lists.now heads.new.items earlier.new.items }
    ensures room { OnOk result (length lists.now < length heads.new.items) }
{
    if lists.len() < heads.len() {
        return Ok(());
    }
    let mut more = vec![in alloc; 0; (2 * heads.len()).max(FEWEST_BUCKETS)]?;
    link_all(lists, &mut more, earlier);
    *heads = more;
    Ok(())
}

/// Links all lists, where no bucket has one yet.
fn link_all(lists: &RowLists, heads: &mut [u32], earlier: &mut [u32])
    requires some { 0 < length heads.old }
    requires none { (b : ℕ) → b < length heads.old → slice_index_or heads.old b 0 ≡ 0 }
    requires each { length earlier.old ≡ length lists.now }
    requires few { length lists.now < 2 ^ 32 }
    ensures { AreLinked lists.now (length heads.old) heads.new earlier.new (length lists.now) }
{
    for place in 0..lists.len() {
        let bucket = bucket_of(lists.list(place).unwrap(), heads.len());
        earlier[place] = heads[bucket];
        heads[bucket] = place as u32 + 1;
    }
}

/// The bucket of a list, of so many.
pub(crate) fn bucket_of(list: &[u32], size: usize) -> usize
    requires { 0 < size }
    ensures is { result ≡ bucket_of size list.now }
    ensures within { result < size }
{
    let mut sum: u64 = 0;
    for number in list {
        sum = sum
            .wrapping_add(u64::from(*number))
            .wrapping_mul(MULTIPLIER);
    }
    (sum >> 32) as usize & (size - 1)
}
