//! Unread stores.

ghost use Rattle.std.specs.Prelude.{◌≡◌, ◌↔◌, ℕ, None, false, ◌<◌, length, Contains, AllPairs, IfOk, IfSome};
ghost use Rattle.run_findings.specs.Actions.{met};
ghost use Rattle.run_findings.specs.Places.{last_before};
ghost use Rattle.run_findings.specs.UnreadStores.{IsUnreadStore, unread_at, unread_before, is_unread, store_of};
ghost use Rattle.run_findings.specs.Links.{AreLinksOfRun, word_at};
ghost use Rattle.run_findings.specs.Sources.{AreSources};

use crate::actions::{Access, Action, is_store};
use crate::links::Links;
use crate::lost::lost_at;
use crate::searching::last_met;
use crate::sources::Sources;
use std::alloc::{AllocError, Global};

/// That a stream stored over another stream's store of another value, which nobody had read, and that this is not the
/// store of a lost update ("Unread stores", docs/LAB_REFERENCE.md). Steps count from 0.
#[derive(Clone, Copy, Debug, PartialEq, Eq)]
pub struct UnreadStore {
    /// The byte address of the word.
    pub word: u64,
    /// The step of the store that nobody read.
    pub over: usize,
    /// The step in which it was stored over.
    pub stored: usize,
}

/// The unread stores of a run with these steps, each once, in the order of the steps that stored over them.
pub fn unread_stores(alloc: Global, actions: &[Action]) -> Result<Vec<UnreadStore>, AllocError>
    ensures exact { IfOk result (λ found. (f : UnreadStore) → Contains found.items f ↔ IsUnreadStore actions.now f) }
    ensures order { IfOk result (λ found. AllPairs (λ (f g : UnreadStore). f.stored < g.stored) found.items) }
{
    let links = Links::of(alloc, actions)?;
    unread_by_links(alloc, actions, &links)
}

/// The same, by the run's links.
pub(crate) fn unread_by_links(
    alloc: Global,
    actions: &[Action],
    links: &Links,
) -> Result<Vec<UnreadStore>, AllocError>
    requires linked { AreLinksOfRun actions.now links.now }
    ensures exact { IfOk result (λ found. (f : UnreadStore) → Contains found.items f ↔ IsUnreadStore actions.now f) }
    ensures order { IfOk result (λ found. AllPairs (λ (f g : UnreadStore). f.stored < g.stored) found.items) }
{
    let mut found = Vec::new(alloc);
    if !is_any_over_unread(actions, links) {
        return Ok(found);
    }
    let sources = Sources::of(alloc, actions)?;
    for stored in 0..actions.len() {
        if let Some(store) = unread_at(actions, links, &sources, stored) {
            found.push(store)?;
        }
    }
    Ok(found)
}

/// Whether a step stores over a store that nobody read, be it a lost update or not. Where none does, sources are not
/// needed.
fn is_any_over_unread(actions: &[Action], links: &Links) -> bool
    requires linked { AreLinksOfRun actions.now links.now }
    ensures { result ≡ false → (n : ℕ) → n < length actions.now → unread_at actions.now n ≡ None }
{
    for step in 0..actions.len() {
        if is_over_unread(actions, links, step) {
            return true;
        }
    }
    false
}

/// Whether a step stores over a store that nobody read.
#[tactic(auto, unfolding(crate::specs::UnreadStores::unread_at))]
fn is_over_unread(actions: &[Action], links: &Links, stored: usize) -> bool
    requires stored_in { stored < length actions.now }
    requires linked { AreLinksOfRun actions.now links.now }
    ensures { result ≡ false → unread_at actions.now stored ≡ None }
{
    let action = &actions[stored];
    match store_of(&action.access) {
        Some(store) => unread_before(actions, links, stored, action, &store).is_some(),
        None => false,
    }
}

/// The unread store that a step stores over, if it does.
#[tactic(auto, unfolding(crate::specs::UnreadStores::unread_at))]
fn unread_at(
    actions: &[Action],
    links: &Links,
    sources: &Sources,
    stored: usize,
) -> Option<UnreadStore>
    requires stored_in { stored < length actions.now }
    requires linked { AreLinksOfRun actions.now links.now }
    requires sources { AreSources actions.now sources.now }
    ensures { result ≡ unread_at actions.now stored }
{
    let action = &actions[stored];
    let store = store_of(&action.access)?;
    let over = unread_before(actions, links, stored, action, &store)?;
    match lost_at(actions, links, sources, stored) {
        Some(_) => None,
        None => Some(UnreadStore {
            word: store.address,
            over,
            stored,
        }),
    }
}

/// The last step before step `stored`, which this is, that read or wrote its word, where that is another stream's store
/// of another value.
fn unread_before(
    actions: &[Action],
    links: &Links,
    stored: usize,
    action: &Action,
    store: &Access,
) -> Option<usize>
    requires stored_in { stored < length actions.now }
    requires word_is { word_at actions.now stored ≡ Some store.now.address }
    requires linked { AreLinksOfRun actions.now links.now }
    ensures is { result ≡ unread_before actions.now action.now store.now
        (last_before (met store.now.address) actions.now stored) }
    ensures below { IfSome result (λ k. k < stored) }
{
    let over = last_met(actions, &links.writes, &links.reads, stored, store.address)?;
    if !is_unread(action, store, &actions[over]) {
        return None;
    }
    Some(over)
}

/// Whether a step of another stream stored another value.
fn is_unread(action: &Action, store: &Access, other: &Action) -> bool
    ensures { result ≡ is_unread action.now store.now other.now }
{
    match store_of(&other.access) {
        Some(lost) => !other.is_by(action.stream) && lost.after != store.after,
        None => false,
    }
}

/// The access of a STORE.
fn store_of(access: &Option<Access>) -> Option<Access>
    ensures { result ≡ store_of access.now }
{
    match access {
        Some(access) if is_store(access.op) => Some(*access),
        _ => None,
    }
}
