//! Torn reads.

ghost use Rattle.std.specs.Prelude.{◌≡◌, ◌↔◌, ℕ, None, false, ◌<◌, ◌++◌, length, Contains, IfOk, OnOk, Some};
ghost use Rattle.run_findings.specs.TornReads.{IsTornRead, torn_reads, glimpse_at, torn_by_write, torn_by_read, other_half};
ghost use Rattle.run_findings.specs.Found.{list_of, found_to, lists_to};
ghost use Rattle.run_findings.specs.Links.{AreLinksOfRun, AreWrites};
ghost use Rattle.run_findings.specs.Stale.{AreLooks};

use crate::actions::Action;
use crate::glimpse::{Glimpse, glimpse_at};
use crate::halves::{is_torn_pair, other_half};
use crate::links::Links;
use crate::parting::{Meeting, Pair, word_loaded};
use crate::rounds::Round;
use crate::stale::{is_load_of, may_tear, stale_looks};
use std::alloc::{AllocError, Global};

/// That a stream read two words on both sides of another stream's change of both, one before it was written, the other
/// after, and that this pair was never there at one moment, or is used as one ("Torn reads", docs/LAB_REFERENCE.md).
/// Steps count from 0.
#[derive(Clone, Copy, Debug, PartialEq, Eq)]
pub struct TornRead {
    /// The byte address of the word that was read before it was written.
    pub stale: u64,
    /// The byte address of the word that was read after it was written.
    pub fresh: u64,
    /// The step in which the first was read.
    pub stale_read: usize,
    /// The step in which the second was read.
    pub fresh_read: usize,
    /// The step in which the other stream wrote the first.
    pub stale_write: usize,
    /// The step in which it wrote the second.
    pub fresh_write: usize,
}

/// The torn reads of a run with these steps, each once, in the order of the steps `fresh_read`, then `stale_write`, then
/// `stale_read`.
pub fn torn_reads(alloc: Global, actions: &[Action]) -> Result<Vec<TornRead>, AllocError>
    ensures is { IfOk result (λ found. found.items ≡ torn_reads actions.now) }
    ensures exact { IfOk result (λ found. (f : TornRead) → Contains found.items f ↔ IsTornRead actions.now f) }
{
    let links = Links::of(alloc, actions)?;
    torn_by_links(alloc, actions, &links)
}

/// The same, by the run's links.
pub(crate) fn torn_by_links(
    alloc: Global,
    actions: &[Action],
    links: &Links,
) -> Result<Vec<TornRead>, AllocError>
    requires linked { AreLinksOfRun actions.now links.now }
    ensures is { IfOk result (λ found. found.items ≡ torn_reads actions.now) }
    ensures exact { IfOk result (λ found. (f : TornRead) → Contains found.items f ↔ IsTornRead actions.now f) }
{
    let mut found = Vec::new(alloc);
    if !is_any_glimpse(actions, &links.writes) {
        return Ok(found);
    }
    let last_writes = links.last_writes(alloc, actions)?;
    for read in 0..actions.len() {
        if let Some(glimpse) = glimpse_at(actions, &links.writes, read) {
            let looks = stale_looks(alloc, actions, &links.writes, &last_writes, &glimpse)?;
            push_torn(&mut found, actions, &links.writes, &glimpse, &looks)?;
        }
    }
    Ok(found)
}

/// Whether any step sees another stream's change. Where none does, no read is torn.
fn is_any_glimpse(actions: &[Action], past_writes: &[Option<usize>]) -> bool
    requires linked { AreWrites actions.now past_writes.now }
    ensures { result ≡ false → (j : ℕ) → j < length actions.now → glimpse_at actions.now j ≡ None }
{
    for step in 0..actions.len() {
        if sees_change(actions, past_writes, step) {
            return true;
        }
    }
    false
}

/// Whether a step sees another stream's change.
fn sees_change(actions: &[Action], past_writes: &[Option<usize>], step: usize) -> bool
    requires step_in { step < length actions.now }
    requires linked { AreWrites actions.now past_writes.now }
    ensures { result ≡ false → glimpse_at actions.now step ≡ None }
{
    glimpse_at(actions, past_writes, step).is_some()
}

/// Appends the torn reads of which this is the second, and one of these the first.
fn push_torn(
    found: &mut Vec<TornRead>,
    actions: &[Action],
    past_writes: &[Option<usize>],
    glimpse: &Glimpse,
    looks: &[usize],
) -> Result<(), AllocError>
    requires read_in { glimpse.now.fresh_read < length actions.now }
    requires write_in { glimpse.now.fresh_write < length actions.now }
    requires linked { AreWrites actions.now past_writes.now }
    requires looks { AreLooks actions.now glimpse.now looks.now }
    ensures { OnOk result (found.new.items
        ≡ found.old.items ++ lists_to (torn_by_write actions.now glimpse.now) (length actions.now)) }
{
    if looks.is_empty() {
        return Ok(());
    }
    let round = Round {
        way: Meeting::Writes,
        stream: glimpse.writer,
        word: glimpse.fresh,
    };
    let first = round.start(actions, past_writes, glimpse.fresh_write);
    let end = round.end(actions, past_writes, glimpse.fresh_write);
    // a write that tears a read comes after it
    let start = first.max(looks[0] + 1).min(end);
    for write in start..end {
        push_torn_by_write(found, actions, past_writes, glimpse, looks, write)?;
    }
    Ok(())
}

/// Appends those of these reads that a write tears.
#[tactic(auto, unfolding(crate::specs::TornReads::torn_by_write))]
fn push_torn_by_write(
    found: &mut Vec<TornRead>,
    actions: &[Action],
    past_writes: &[Option<usize>],
    glimpse: &Glimpse,
    looks: &[usize],
    write: usize,
) -> Result<(), AllocError>
    requires read_in { glimpse.now.fresh_read < length actions.now }
    requires fresh_in { glimpse.now.fresh_write < length actions.now }
    requires write_in { write < length actions.now }
    requires linked { AreWrites actions.now past_writes.now }
    requires looks { AreLooks actions.now glimpse.now looks.now }
    ensures { OnOk result (found.new.items ≡ found.old.items ++ torn_by_write actions.now glimpse.now write) }
{
    if !may_tear(actions, looks, write) {
        return Ok(());
    }
    match other_half(actions, past_writes, glimpse, write) {
        Some(stale) => push_torn_by_reads(
            found,
            actions,
            past_writes,
            glimpse,
            looks,
            stale,
            write,
        ),
        None => Ok(()),
    }
}

/// Appends those of these reads that this write of a word tears.
fn push_torn_by_reads(
    found: &mut Vec<TornRead>,
    actions: &[Action],
    past_writes: &[Option<usize>],
    glimpse: &Glimpse,
    looks: &[usize],
    stale: u64,
    write: usize,
) -> Result<(), AllocError>
    requires read_in { glimpse.now.fresh_read < length actions.now }
    requires fresh_in { glimpse.now.fresh_write < length actions.now }
    requires write_in { write < length actions.now }
    requires half { other_half actions.now glimpse.now write ≡ Some stale }
    requires linked { AreWrites actions.now past_writes.now }
    requires looks { AreLooks actions.now glimpse.now looks.now }
    ensures { OnOk result (found.new.items
        ≡ found.old.items ++ found_to (torn_by_read actions.now glimpse.now stale write) (length actions.now)) }
{
    for look in looks {
        push_torn_by_read(found, actions, past_writes, glimpse, stale, write, *look)?;
    }
    Ok(())
}

/// Appends this read of a word with this write of it, if it is torn.
fn push_torn_by_read(
    found: &mut Vec<TornRead>,
    actions: &[Action],
    past_writes: &[Option<usize>],
    glimpse: &Glimpse,
    stale: u64,
    write: usize,
    read: usize,
) -> Result<(), AllocError>
    requires glimpse_in { glimpse.now.fresh_read < length actions.now }
    requires fresh_in { glimpse.now.fresh_write < length actions.now }
    requires write_in { write < length actions.now }
    requires read_in { read < length actions.now }
    requires linked { AreWrites actions.now past_writes.now }
    ensures { OnOk result (found.new.items
        ≡ found.old.items ++ list_of (torn_by_read actions.now glimpse.now stale write read)) }
{
    if let Some(torn) = torn_by_read(actions, past_writes, glimpse, stale, write, read) {
        found.push(torn)?;
    }
    Ok(())
}

/// This read of a word with this write of it, if it is torn.
#[tactic(auto, unfolding(crate::specs::TornReads::torn_by_read))]
fn torn_by_read(
    actions: &[Action],
    past_writes: &[Option<usize>],
    glimpse: &Glimpse,
    stale: u64,
    write: usize,
    read: usize,
) -> Option<TornRead>
    requires glimpse_in { glimpse.now.fresh_read < length actions.now }
    requires fresh_in { glimpse.now.fresh_write < length actions.now }
    requires write_in { write < length actions.now }
    requires read_in { read < length actions.now }
    requires linked { AreWrites actions.now past_writes.now }
    ensures { result ≡ torn_by_read actions.now glimpse.now stale write read }
{
    let action = &actions[read];
    if !(action.is_by(glimpse.reader) && is_load_of(word_loaded(&action.access), stale)) {
        return None;
    }
    if read >= write {
        return None;
    }
    let reads = Pair {
        way: Meeting::Reads,
        stream: glimpse.reader,
        one: stale,
        other: glimpse.fresh,
    };
    if reads.is_parted(actions, past_writes, read, glimpse.fresh_read) {
        return None;
    }
    if !is_torn_pair(actions, past_writes, glimpse, stale, write, read) {
        return None;
    }
    Some(TornRead {
        stale,
        fresh: glimpse.fresh,
        stale_read: read,
        fresh_read: glimpse.fresh_read,
        stale_write: write,
        fresh_write: glimpse.fresh_write,
    })
}
