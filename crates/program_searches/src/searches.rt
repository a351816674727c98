//! What is looked for among the schedules of a program, and what the search comes to.
//!
//! **What is kept.** `Explored` owns the space that was found, the ends of it, and seven answers: whether the search is
//! complete, what ended it, the first rule that is broken, the first claim that none shows, who can wait forever, whether all
//! runs keep the conditions, and whether all is right. They are made once, in `explore_on`, of values alone; whoever prints
//! them decides nothing more.
//!
//! **Two searches.** All worlds are looked for if that is asked for, and if no stream is to loop alone, or to wait forever, or
//! a condition on runs is required: a space of fewer worlds says nothing of that. Otherwise `explore_ends` looks for what is
//! needed: it names each register at which an expectation looks, and each place and word at which a claim looks. So ends and
//! claims are judged by few worlds, and the verdict is that of every schedule.
//!
//! **Which invariant.** `IsSearched` ties the space to what ended the search, not to a flag beside it. `is_complete` is
//! made of the bound, so that the two can't disagree. The watcher keeps which of its own two bounds it has ended a search
//! by (`IsWatched`); `schedule_space` says of a search that the watch ended that it has (`HasEnded`). So a search that
//! was ended by its number of worlds is never said to have been ended by its time, nor the other way about.
//!
//! **Why it is safe.** A bound by worlds comes with a world that the space lacks (`IsFull`). A bound by time or memory
//! comes with none: the search may have all worlds by then, and is said not to be complete all the same. So what is said
//! of a complete search holds of every schedule, and of another one only what its worlds show: its ends are ends, a broken
//! claim is broken; that a claim is shown by none, or that something spins, is not said. `right` is false unless the
//! search is complete.
//!
//! **Shortest schedules.** A search of all worlds finds each by a shortest schedule, complete or not. A search for ends
//! leaves out steps: of an end its schedule is a shortest one only if it is complete, of a world on the way never, unless
//! no more steps lead there than those with which all schedules begin (`is_shortest`).
//!
//! **What was tried.** To say that a bound is named exactly if worlds are missing: no clause can, for time and memory. A
//! promise that a bound by seconds comes only if seconds are bounded: the search changes the watcher in ways that its
//! contract does not follow, so this is tested. The watcher was made by each caller before; it is made here, so
//! that `SearchFault::Clock` is promised to come only if the time is bounded.

ghost use Rattle.std.specs.Prelude.{◌≡◌, ◌≤◌, ◌⊎◌, ◌↔◌, is_some, min, IsTrue, IsFalse, IsSome, IsNone, IfSome, MatchOption, IfOk, IfErr, None};
ghost use Rattle.space_ends.specs.ScheduleSpace.Spaces.{IsComplete, HasAllEdges};
ghost use Rattle.space_ends.specs.ScheduleSpace.Followed.{AllFollowed};
ghost use Rattle.space_ends.specs.BusyStreams.Busy.{IsNeverBusy};
ghost use Rattle.space_ends.specs.BusyStreams.BusySpaces.{HasAllWorlds, HasNoneBusy, IsFirstBusy};
ghost use Rattle.space_ends.specs.ScheduleVerdicts.KeptClaims.{AreKeptOnTheWay};
ghost use Rattle.expectation_files.specs.Judged.{IsJudged};
ghost use Rattle.space_ends.specs.ScheduleVerdicts.NamedRegisters.{AreNamed};
ghost use Rattle.space_ends.specs.ScheduleVerdicts.RightSpaces.{IsFollowedForClaims, IsRightOnEachWay};
ghost use Rattle.space_ends.specs.ScheduleVerdicts.ShownClaims.{AreShown, IsRightThroughout, IsUnshownAt, TellsOfClaims};
ghost use Rattle.program_searches.specs.Bounds.{IsOfClock};
ghost use Rattle.endless_waits.specs.StarvingStreams.Starving.{NobodyWaits};
ghost use Rattle.program_searches.specs.Searches.{most_worlds, takes_all, SaysWhetherRight, IsExplored};
ghost use Rattle.endless_waits.specs.Kept.{AllKept};
ghost use Rattle.program_searches.specs.Kept.{are_kept};
ghost use Rattle.program_searches.specs.Waits.{is_unstarved};

use crate::explored::Explored;
use crate::kept::{are_kept, kept_in};
use crate::spaces::space_in_time;
use crate::waits::{extent_by, is_unstarved, waits_in};
use crate::watching::{Console, WatchedSearch, Watcher};
use endless_waits::{EndlessWaits, KeptConditions};
use expectation_files::Requirements;
use image_file::Image;
use image_machines::by_least_room;
use lab_requests::Bounds;
use machine::LoadFault;
use processor::Step;
use program_rules::first_broken;
use space_ends::busy::{Busy, first_busy};
use space_ends::space::Space;
use space_ends::verdicts::{are_kept_on_the_way, first_unshown, is_right};
use space_ends::{JudgedBy, space_ends};
use std::alloc::{AllocError, Global};
use std::io::{self, Write};
use std::time::Clock;

/// What is looked for among the schedules of a program.
#[derive(Clone, Copy)]
pub struct ProgramSearch<'a> {
    /// What is required of the program.
    pub required: &'a Requirements,
    /// The schedule that all begin with.
    pub begin: &'a [Step],
    /// How far the search goes.
    pub bounds: Bounds,
    /// Whether all worlds are looked for, also where what is required needs fewer.
    pub is_plain: bool,
}

impl ProgramSearch<'_> {
    /// Whether it is to be judged by what was found: that is complete, something is required, the program keeps the rules,
    /// each claim that has to hold of one world at least does, and no stream was found that loops alone.
    fn judges(
        &self,
        image: &Image,
        is_complete: bool,
        unshown: Option<usize>,
        busy: Option<Busy>,
    ) -> bool
        ensures { IsTrue result ↔ (IsTrue is_complete × IsJudged image.now self.now.required.now
            × (unshown ≡ None) × (busy ≡ None)) }
    {
        is_complete && self.required.is_judged(image) && unshown.is_none() && busy.is_none()
    }

    /// The most worlds that are looked for: at least one.
    pub(crate) fn most_worlds(&self) -> usize
        ensures some { 1 ≤ result }
        ensures is { result ≡ most_worlds self.now }
    {
        self.bounds.worlds.max(1)
    }

    /// The same search for so many worlds at most, and no more than it asks for.
    pub(crate) fn for_first(&self, most: usize) -> ProgramSearch<'_>
        ensures { result ≡ record self.now
            { bounds = record self.now.bounds { worlds = min most self.now.bounds.worlds } } }
    {
        ProgramSearch {
            bounds: Bounds {
                worlds: most.min(self.bounds.worlds),
                ..self.bounds
            },
            ..*self
        }
    }

    /// Whether all worlds are looked for: where it is asked for, and where no stream is to loop alone, or to wait forever, or
    /// a condition on runs is required.
    pub(crate) fn takes_all(&self) -> bool
        ensures { result ≡ takes_all self.now }
    {
        self.is_plain
            || self.required.never_busy().is_some()
            || (self.required.never_starved().is_some()
                || !self.required.run_conditions().is_empty())
    }
}

/// Why a search was not begun, or gave up without an answer.
#[derive(Debug, Drop)]
pub enum SearchFault {
    /// Memory was refused.
    NoMemory,
    /// The time is bounded, and the clock can't be read.
    Clock(io::Error),
}

impl From<AllocError> for SearchFault {
    fn from(_error: AllocError) -> SearchFault
        ensures { result ≡ SearchFault.NoMemory }
    {
        SearchFault::NoMemory
    }
}

impl From<io::Error> for SearchFault {
    fn from(error: io::Error) -> SearchFault {
        SearchFault::Clock(error)
    }
}

/// What a search among the schedules of a program comes to. It shows on the console how far it is. The clock is read only
/// where the time is bounded, or where the console is a terminal; `SearchFault::Clock` only where it is bounded.
pub fn explore_program<'i, C: Clock, E: Write>(
    alloc: Global,
    image: &'i Image,
    asked: &ProgramSearch<'_>,
    console: &mut Console<'_, C, E>,
) -> Result<Explored<'i>, SearchFault>
    ensures right { IfOk result (λ e. SaysWhetherRight image.entry.now asked.now e) }
    ensures unstarved { IfOk result (λ e. IsTrue e.is_right → IsSome asked.now.required.now.never_starved
        → NobodyWaits image.entry.now asked.now.begin.now asked.now.required.now.rests.items) }
    ensures kept { IfOk result (λ e. IsTrue e.is_right
        → AllKept image.entry.now asked.now.begin.now asked.now.required.now.rests.items
        asked.now.required.now.run_conditions.items) }
    ensures explored { IfOk result (λ e. IsExplored image.entry.now asked.now e) }
    ensures clock { IfErr result (λ f. IsOfClock f → IsSome asked.now.bounds.seconds) }
{
    let watched = WatchedSearch {
        has_machines: !asked.takes_all(),
        is_looked_at: !asked.required.claims().is_empty(),
    };
    let mut watcher = Watcher::new(console, image, asked.bounds, watched)?;
    let found = explore_watched(alloc, image, asked, &mut watcher);
    watcher.finish();
    match found {
        Ok(found) => Ok(found),
        Err(AllocError) => Err(SearchFault::NoMemory),
    }
}

/// The same while it is watched.
fn explore_watched<'i, C: Clock, E: Write>(
    alloc: Global,
    image: &'i Image,
    asked: &ProgramSearch<'_>,
    watcher: &mut Watcher<'_, '_, C, E>,
) -> Result<Explored<'i>, AllocError>
    ensures { IfOk result (λ e. IsExplored image.entry.now asked.now e) }
{
    by_least_room!(image, explore_on::<C, E>(alloc, image, asked, watcher))
}

/// The same on machines with room for `S` streams a processor.
fn explore_on<'i, C: Clock, E: Write, const S: usize>(
    alloc: Global,
    image: &'i Image,
    asked: &ProgramSearch<'_>,
    watcher: &mut Watcher<'_, '_, C, E>,
) -> Result<Explored<'i>, AllocError>
    ensures { IfOk result (λ e. IsExplored image.entry.now asked.now e) }
{
    let (space, bound) = space_in_time::<S, C, E>(alloc, image, asked, watcher)?;
    let is_complete = bound.is_none();
    let required = asked.required;
    let busy = busy_in::<S>(alloc, required, &space, is_complete)?;
    let judged_by = JudgedBy {
        expected: required.ends(),
        claims: required.claims(),
    };
    let ends = space_ends::<S>(alloc, judged_by, &space, is_complete, busy)?;
    let unshown = unshown_in::<S>(alloc, required, &space)?;
    let is_judged = asked.judges(image, is_complete, unshown, busy);
    let are_right = are_all_right::<S>(alloc, required, &space, is_judged)?;
    let is_of_all_worlds = asked.takes_all();
    let extent = extent_by(is_of_all_worlds, is_complete);
    let waits = waits_in(alloc, required, &space, extent)?;
    let kept = kept_in(alloc, required, &space, extent)?;
    let is_right = unless_endless(are_right, required, &waits, &kept);
    Ok(Explored {
        space,
        is_complete,
        bound,
        is_of_all_worlds,
        ends,
        broken_rule: first_broken(image, required.rules()),
        unshown,
        waits,
        kept,
        is_right,
    })
}

/// Whether all is right of what is, where nobody can wait forever if that is required, and all runs keep each condition.
fn unless_endless(
    are_right: bool,
    required: &Requirements,
    waits: &Option<EndlessWaits>,
    kept: &Option<KeptConditions>,
) -> bool
    ensures { IsTrue result ↔ (IsTrue are_right × IsTrue (is_unstarved required.now waits.now)
        × IsTrue (are_kept required.now kept.now)) }
{
    are_right && is_unstarved(required, waits) && are_kept(required, kept)
}

/// The first of the claims, counted from 0, that have to hold of one world at least and that no world of a space shows, nor
/// one on the way through its beginning.
fn unshown_in<const S: usize>(
    alloc: Global,
    required: &Requirements,
    space: &Space<'_>,
) -> Result<Option<usize>, AllocError>
    ensures shown { IfOk result (λ found. found ≡ None
        → AreShown space.now.image space.now.begin required.now.claims.items) }
    ensures only { IfOk result (λ found. TellsOfClaims space.now required.now.claims.items
        → AreShown space.now.image space.now.begin required.now.claims.items → found ≡ None) }
    ensures unshown { IfOk result (λ found. IfSome found (λ k. IsUnshownAt space.now required.now.claims.items k)) }
{
    match first_unshown::<S>(alloc, space, required.claims()) {
        Ok(unshown) => Ok(unshown),
        Err(LoadFault::NoMemory | LoadFault::Streams) => Err(AllocError),
    }
}

/// The first world of a space from which a stream loops alone, where none is to and the space has all worlds.
fn busy_in<const S: usize>(
    alloc: Global,
    required: &Requirements,
    space: &Space<'_>,
    is_complete: bool,
) -> Result<Option<Busy>, AllocError>
    ensures asked { IfOk result (λ found. IsTrue is_complete → IsSome required.now.never_busy
        → HasAllWorlds space.now → (found ≡ None) ↔ IsNeverBusy space.now.image space.now.begin) }
    ensures first { IfOk result (λ found. IsTrue is_complete → IsSome required.now.never_busy
        → HasAllWorlds space.now → MatchOption found (HasNoneBusy space.now) (λ b. IsFirstBusy space.now b)) }
    ensures unasked { IfOk result (λ found. IsNone required.now.never_busy → found ≡ None) }
    ensures unknown { IfOk result (λ found. IsFalse is_complete → found ≡ None) }
{
    if !is_complete || required.never_busy().is_none() {
        return Ok(None);
    }
    match first_busy::<S>(alloc, space) {
        Ok(busy) => Ok(busy),
        Err(LoadFault::NoMemory | LoadFault::Streams) => Err(AllocError),
    }
}

/// Whether all that is required of a space is so, where it is judged: of its ends, of its worlds, and of those on the way
/// through the steps that all its schedules begin with.
fn are_all_right<const S: usize>(
    alloc: Global,
    required: &Requirements,
    space: &Space<'_>,
    is_judged: bool,
) -> Result<bool, AllocError>
    ensures judged { IfOk result (λ b. IsTrue b → IsTrue is_judged) }
    ensures before { IfOk result (λ b. IsTrue b
        → AreKeptOnTheWay space.now.image space.now.begin required.now.claims.items) }
    ensures shown { IfOk result (λ b. IsTrue b → AreNamed required.now.ends.items space.now.live.names
        → IsFollowedForClaims space.now required.now.claims.items
        → IsRightOnEachWay space.now.image space.now.begin required.now.ends.items required.now.claims.items) }
    ensures each_way { IfOk result (λ b. IsTrue b → IsComplete space.now
        → IsRightOnEachWay space.now.image space.now.begin required.now.ends.items required.now.claims.items) }
    ensures only { IfOk result (λ b. IsTrue is_judged
        → (IsComplete space.now × HasAllEdges space.now) ⊎ AllFollowed space.now
        → IsRightThroughout space.now.image space.now.begin required.now.ends.items required.now.claims.items
        (is_some required.now.never_busy) → IsTrue b) }
{
    if !is_judged {
        return Ok(false);
    }
    if !are_kept_before::<S>(alloc, required, space)? {
        return Ok(false);
    }
    match is_right::<S>(alloc, space, required.ends(), required.claims()) {
        Ok(right) => Ok(right),
        Err(LoadFault::NoMemory | LoadFault::Streams) => Err(AllocError),
    }
}

/// Whether all that is claimed holds on the way through the steps that all schedules of a space begin with.
fn are_kept_before<const S: usize>(
    alloc: Global,
    required: &Requirements,
    space: &Space<'_>,
) -> Result<bool, AllocError>
    ensures { IfOk result (λ b. IsTrue b
        ↔ AreKeptOnTheWay space.now.image space.now.begin required.now.claims.items) }
{
    match are_kept_on_the_way::<S>(alloc, space.image(), space.begin(), required.claims()) {
        Ok(are_kept) => Ok(are_kept),
        Err(LoadFault::NoMemory | LoadFault::Streams) => Err(AllocError),
    }
}
