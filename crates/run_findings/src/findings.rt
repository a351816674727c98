//! All findings of a run.

ghost use Rattle.std.specs.Prelude.{◌≡◌, ◌↔◌, ◌≤◌, ◌<◌, [], length, Contains, AllPairs, IfOk};
ghost use Rattle.run_findings.specs.Links.{AreLinksOfRun};
ghost use Rattle.run_findings.specs.LostUpdates.{IsLostUpdate};
ghost use Rattle.run_findings.specs.UnreadStores.{IsUnreadStore};
ghost use Rattle.run_findings.specs.TornReads.{IsTornRead, torn_reads};

use crate::actions::Action;
use crate::links::Links;
use crate::lost::{LostUpdate, lost_by_links};
use crate::torn::{TornRead, torn_by_links};
use crate::unread::{UnreadStore, unread_by_links};
use std::alloc::{AllocError, Global};

/// What is found in a run ("Findings", docs/LAB_REFERENCE.md).
#[derive(Drop)]
pub struct Findings {
    /// Its lost updates, as [`lost_updates`](crate::lost_updates) finds them.
    pub lost: Vec<LostUpdate>,
    /// Its unread stores, as [`unread_stores`](crate::unread_stores) finds them.
    pub unread: Vec<UnreadStore>,
    /// Its torn reads, as [`torn_reads`](crate::torn_reads) finds them, if they were looked for.
    pub torn: Vec<TornRead>,
}

impl Findings {
    /// Those of a run with these steps, in less time than one kind after the other takes. Torn reads are looked for in a
    /// run of at most so many steps.
    pub fn of(
        alloc: Global,
        actions: &[Action],
        most_steps_of_torn: usize,
    ) -> Result<Findings, AllocError>
        ensures lost { IfOk result (λ found.
            (f : LostUpdate) → Contains found.lost.items f ↔ IsLostUpdate actions.now f) }
        ensures lost_order { IfOk result (λ found.
            AllPairs (λ (f g : LostUpdate). f.stored < g.stored) found.lost.items) }
        ensures unread { IfOk result (λ found.
            (f : UnreadStore) → Contains found.unread.items f ↔ IsUnreadStore actions.now f) }
        ensures unread_order { IfOk result (λ found.
            AllPairs (λ (f g : UnreadStore). f.stored < g.stored) found.unread.items) }
        ensures torn { length actions.now ≤ most_steps_of_torn
            → IfOk result (λ found. (f : TornRead) → Contains found.torn.items f ↔ IsTornRead actions.now f) }
        ensures torn_order { length actions.now ≤ most_steps_of_torn
            → IfOk result (λ found. found.torn.items ≡ torn_reads actions.now) }
        ensures long { most_steps_of_torn < length actions.now → IfOk result (λ found. found.torn.items ≡ []) }
    {
        let links = Links::of(alloc, actions)?;
        let lost = lost_by_links(alloc, actions, &links)?;
        let unread = unread_by_links(alloc, actions, &links)?;
        let torn = torn_up_to(alloc, actions, &links, most_steps_of_torn)?;
        Ok(Findings { lost, unread, torn })
    }
}

/// The torn reads of a run of at most so many steps; none of a longer one.
fn torn_up_to(
    alloc: Global,
    actions: &[Action],
    links: &Links,
    most_steps: usize,
) -> Result<Vec<TornRead>, AllocError>
    requires linked { AreLinksOfRun actions.now links.now }
    ensures exact { length actions.now ≤ most_steps
        → IfOk result (λ found. (f : TornRead) → Contains found.items f ↔ IsTornRead actions.now f) }
    ensures is { length actions.now ≤ most_steps → IfOk result (λ found. found.items ≡ torn_reads actions.now) }
    ensures long { most_steps < length actions.now → IfOk result (λ found. found.items ≡ []) }
{
    if actions.len() > most_steps {
        return Ok(Vec::new(alloc));
    }
    torn_by_links(alloc, actions, links)
}
