//! Lost updates.

ghost use Rattle.std.specs.Prelude.{◌≡◌, ◌↔◌, ℕ, None, false, ◌<◌, length, map, Contains, AllPairs, IfOk, IfSome, slice_get};
ghost use Rattle.run_findings.specs.LostUpdates.{IsLostUpdate, lost_at, full_store, other_write, is_source};
ghost use Rattle.run_findings.specs.Actions.{written_or_read_by};
ghost use Rattle.run_findings.specs.Places.{last_before, last_below};
ghost use Rattle.run_findings.specs.Sources.{AreSources, is_needed_read};
ghost use Rattle.run_findings.specs.Links.{AreLinksOfRun, word_at};

use crate::actions::{Access, Action, is_store};
use crate::links::Links;
use crate::marks::Marks;
use crate::own::own_before;
use crate::searching::last_written_or_read;
use crate::sources::Sources;
use std::alloc::{AllocError, Global};

/// That another stream's write was lost: it was stored over by a stream that had read the word before that write and not
/// since, and computed from this what it stored ("Lost updates", docs/LAB_REFERENCE.md). Steps count from 0.
#[derive(Clone, Copy, Debug, PartialEq, Eq)]
pub struct LostUpdate {
    /// The byte address of the word.
    pub word: u64,
    /// The step in which the stream read it: the last one of which this holds.
    pub read: usize,
    /// The step in which another stream wrote it, the last write before the store.
    pub over: usize,
    /// The step in which the stream stored.
    pub stored: usize,
}

/// The lost updates of a run with these steps, each once, in the order of the steps that stored.
pub fn lost_updates(alloc: Global, actions: &[Action]) -> Result<Vec<LostUpdate>, AllocError>
    ensures exact { IfOk result (λ found. (f : LostUpdate) → Contains found.items f ↔ IsLostUpdate actions.now f) }
    ensures order { IfOk result (λ found. AllPairs (λ (f g : LostUpdate). f.stored < g.stored) found.items) }
{
    let links = Links::of(alloc, actions)?;
    lost_by_links(alloc, actions, &links)
}

/// The same, by the run's links.
pub(crate) fn lost_by_links(
    alloc: Global,
    actions: &[Action],
    links: &Links,
) -> Result<Vec<LostUpdate>, AllocError>
    requires linked { AreLinksOfRun actions.now links.now }
    ensures exact { IfOk result (λ found. (f : LostUpdate) → Contains found.items f ↔ IsLostUpdate actions.now f) }
    ensures order { IfOk result (λ found. AllPairs (λ (f g : LostUpdate). f.stored < g.stored) found.items) }
{
    let mut found = Vec::new(alloc);
    if !may_any_be_lost(actions, links) {
        return Ok(found);
    }
    let sources = Sources::of(alloc, actions)?;
    for stored in 0..actions.len() {
        if let Some(update) = lost_at(actions, links, &sources, stored) {
            found.push(update)?;
        }
    }
    Ok(found)
}

/// Whether a step may be a lost update, as far as the links tell. Where none may, sources are not needed.
fn may_any_be_lost(actions: &[Action], links: &Links) -> bool
    requires linked { AreLinksOfRun actions.now links.now }
    ensures { result ≡ false → (n : ℕ) → n < length actions.now → lost_at actions.now n ≡ None }
{
    for step in 0..actions.len() {
        if may_be_lost(actions, links, step) {
            return true;
        }
    }
    false
}

/// Whether a step stores over another stream's write of a word that its own stream has not read since.
#[tactic(auto, unfolding(crate::specs::LostUpdates::lost_at))]
fn may_be_lost(actions: &[Action], links: &Links, stored: usize) -> bool
    requires stored_in { stored < length actions.now }
    requires linked { AreLinksOfRun actions.now links.now }
    ensures { result ≡ false → lost_at actions.now stored ≡ None }
{
    let action = &actions[stored];
    match full_store(&action.access) {
        Some(word) => other_write(actions, links, stored, action, word).is_some(),
        None => false,
    }
}

/// The lost update of a step, if it is one.
#[tactic(auto, unfolding(crate::specs::LostUpdates::lost_at))]
pub(crate) fn lost_at(
    actions: &[Action],
    links: &Links,
    sources: &Sources,
    stored: usize,
) -> Option<LostUpdate>
    requires stored_in { stored < length actions.now }
    requires linked { AreLinksOfRun actions.now links.now }
    requires sources { AreSources actions.now sources.now }
    ensures { result ≡ lost_at actions.now stored }
{
    let action = &actions[stored];
    let word = full_store(&action.access)?;
    let over = other_write(actions, links, stored, action, word)?;
    let read = last_source(actions, sources, stored, action, word, over)?;
    Some(LostUpdate {
        word,
        read,
        over,
        stored,
    })
}

/// The last write of this word before step `stored`, which this is, if another stream's, and its own has not read the
/// word since.
fn other_write(
    actions: &[Action],
    links: &Links,
    stored: usize,
    action: &Action,
    word: u64,
) -> Option<usize>
    requires stored_in { stored < length actions.now }
    requires word_is { word_at actions.now stored ≡ Some word }
    requires linked { AreLinksOfRun actions.now links.now }
    ensures is { result ≡ other_write actions.now action.now
        (last_before (written_or_read_by action.now.stream word) actions.now stored) }
    ensures below { IfSome result (λ k. k < stored) }
{
    let over = last_written_or_read(
        actions,
        &links.writes,
        &links.reads,
        stored,
        word,
        action.stream,
    )?;
    if actions[over].is_by(action.stream) {
        return None;
    }
    Some(over)
}

/// The last step before step `end` in which the stream of step `stored`, which this is, read this word and from which
/// what it stores was computed.
fn last_source(
    actions: &[Action],
    sources: &Sources,
    stored: usize,
    action: &Action,
    word: u64,
    end: usize,
) -> Option<usize>
    requires end_in { end < stored }
    requires stored_in { stored < length actions.now }
    requires stands { slice_get actions.now stored ≡ Some action.now }
    requires sources { AreSources actions.now sources.now }
    ensures { result ≡ last_below (is_source actions.now stored action.now word) end }
{
    let mut needed = Marks::needed_to_store(&action.deed, &sources.marks_before(actions, stored));
    let mut step = stored;
    while let Some(own) = own_before(actions, &sources.own, step) {
        if !needed.are_any() {
            return None;
        }
        let reader = &actions[own];
        if own < end && is_needed_read(reader, word, &needed) {
            return Some(own);
        }
        needed = needed.needed_before(&reader.deed, &sources.marks_before(actions, own));
        step = own;
    }
    None
}

/// Whether a step read this word, into a register that is needed.
fn is_needed_read(reader: &Action, word: u64, needed: &Marks) -> bool
    ensures { result ≡ is_needed_read reader.now word needed.now }
{
    reader.reads(word) && needed.are_read(&reader.deed)
}

/// The word into which a STORE stored that found it full.
fn full_store(access: &Option<Access>) -> Option<u64>
    ensures { result ≡ full_store access.now }
{
    match access {
        Some(access) if is_store(access.op) && access.full => Some(access.address),
        _ => None,
    }
}
