//! What is wrong with the parts of a run, by one scan of its records for each fault.

ghost use Rattle.std.specs.Prelude.{◌≡◌, ◌↔◌, ℕ, MatchOption, IsTrue, Some, slice_get};
ghost use Rattle.processor.specs.Histories.{pair_of};
ghost use Rattle.shared_history.specs.Parts.{AllBelong, AllHaveEntries, Belongs, HasFinished, HasEntries};
ghost use Rattle.shared_history.specs.Parts.{FailsFirst};

use crate::SharedMemory;
use image_file::{Image, MAX_PROCESSORS};
use processor::{Asked, Entry, Recorded};
use tag_memory::{MemOp, Reply, Request};

/// The least place where there is a record but no processor of the memory's image, or a processor but no record, or
/// a record of another processor or image.
pub(crate) fn first_foreign<const S: usize>(
    shared: &SharedMemory,
    records: &[Recorded<S>],
) -> Option<usize>
    ensures { MatchOption result (AllBelong shared.now records.now)
        (λ p. FailsFirst (λ q. Belongs shared.now.image q (slice_get records.now q)) p) }
{
    let image = shared.image();
    let count = image.processors();
    for p in 0..records.len() {
        let record = &records[p];
        if p >= count
            || usize::from(record.number()) != p
            || !is_same_image(record.image(), image)
        {
            return Some(p);
        }
    }
    if records.len() < count {
        return Some(records.len());
    }
    None
}

/// The first record with fewer steps than it was to take, of which a stream runs.
pub(crate) fn first_short<const S: usize>(fuel: usize, records: &[Recorded<S>]) -> Option<usize>
    ensures { MatchOption result ((q : ℕ) → HasFinished fuel (slice_get records.now q))
        (λ p. FailsFirst (λ q. HasFinished fuel (slice_get records.now q)) p) }
{
    for p in 0..records.len() {
        let record = &records[p];
        if record.steps().len() < fuel && record.any_running() {
            return Some(p);
        }
    }
    None
}

/// The first record whose pairs are not its processor's entries. The history is read once for all records.
pub(crate) fn first_torn<const S: usize>(
    shared: &SharedMemory,
    records: &[Recorded<S>],
) -> Option<usize>
    requires { AllBelong shared.now records.now }
    ensures { MatchOption result (AllHaveEntries shared.now records.now)
        (λ p. FailsFirst (λ q. HasEntries shared.now.history q (slice_get records.now q)) p) }
{
    let image = shared.image();
    let count = image.processors();
    // of each record, how many of its pairs are entries so far; only those below the first torn one are still compared
    let mut taken = [0usize; MAX_PROCESSORS];
    let mut torn = count;
    for entry in shared.entries() {
        let p = usize::from(entry.p);
        if p < torn {
            let place = taken[p];
            let record = &records[p];
            if is_next_pair(record.pairs(), place, entry) {
                taken[p] = place + 1;
            } else {
                torn = p;
            }
        }
    }
    for p in 0..torn {
        let place = taken[p];
        let record = &records[p];
        if place < record.pairs().len() {
            return Some(p);
        }
    }
    if torn < count { Some(torn) } else { None }
}

/// Whether the pair in a place is there, and is an entry without its processor.
fn is_next_pair(pairs: &[Asked], place: usize, entry: &Entry) -> bool
    ensures { IsTrue result ↔ (slice_get pairs.now place ≡ Some (pair_of entry.now)) }
{
    match pairs.get(place) {
        Some(pair) => is_pair_of(pair, entry),
        None => false,
    }
}

/// Whether a pair is an entry without its processor.
fn is_pair_of(pair: &Asked, entry: &Entry) -> bool
    ensures { IsTrue result ↔ (pair.now ≡ pair_of entry.now) }
{
    pair.s == entry.s
        && is_same_request(&pair.request, &entry.request)
        && is_same_reply(&pair.reply, &entry.reply)
}

// Field by field, since the proof that goes through the cases of all fields at once is past the search.
fn is_same_request(a: &Request, b: &Request) -> bool
    ensures { IsTrue result ↔ (a.now ≡ b.now) }
{
    is_same_operation(a.op, b.op)
        && a.pointer == b.pointer
        && a.acc == b.acc
        && a.value == b.value
        && a.masked == b.masked
}

fn is_same_operation(a: MemOp, b: MemOp) -> bool
    ensures { IsTrue result ↔ (a ≡ b) }
{
    a == b
}

fn is_same_reply(a: &Reply, b: &Reply) -> bool
    ensures { IsTrue result ↔ (a.now ≡ b.now) }
{
    a == b
}

#[tactic(auto, using(image_file::specs::SameLaws::same_image_decides))]
fn is_same_image(one: &Image, other: &Image) -> bool
    ensures { IsTrue result ↔ (one.now ≡ other.now) }
{
    one == other
}
