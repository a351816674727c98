//! What a search among the schedules of a program came to.

ghost use Rattle.std.specs.Prelude.{◌≡◌, length};
ghost use Rattle.space_ends.specs.ScheduleSpace.Spaces.{count};
ghost use Rattle.program_searches.specs.Shortest.{is_last, is_shortest_by_ends, is_shortest};
ghost use Rattle.program_searches.specs.Statuses.{status_of_bound, unkept_in, status_of_search};
ghost use Rattle.program_searches.specs.Waits.{extent_of};

use crate::bounds::SearchBound;
use crate::kept::unkept_conditions;
use crate::unkept::{Unkept, unkept_waits};
use crate::waits::extent_by;
use end_kinds::{EndKind, Status};
use endless_waits::{EndlessWaits, KeptConditions, SearchExtent};
use space_ends::space::Space;
use space_ends::{SpaceEnd, SpaceEndKind};

/// What a search among the schedules of a program came to.
#[derive(Drop)]
pub struct Explored<'i> {
    /// The worlds that it found.
    pub space: Space<'i>,
    /// Whether they are all, or all that the ends and the claims need.
    pub is_complete: bool,
    /// What ended the search, where they are not.
    pub bound: Option<SearchBound>,
    /// Whether all worlds were looked for.
    pub is_of_all_worlds: bool,
    /// Their ends.
    pub ends: Vec<SpaceEnd>,
    /// The place of the first rule of programs that the program breaks, among those that are required.
    pub broken_rule: Option<usize>,
    /// The place of the first claim that has to hold of one world at least and that none shows, among all claims.
    pub unshown: Option<usize>,
    /// Who can wait forever, where it is required that nobody can.
    pub waits: Option<EndlessWaits>,
    /// Whether all runs keep the conditions that are required, where some are.
    pub kept: Option<KeptConditions>,
    /// Whether they are all, something is required, the program keeps the rules, every schedule is right, its end and each
    /// world on its way, each claim that has to hold of one world at least does, no stream loops alone where that is
    /// required, nobody can wait forever where that is, and all runs keep each condition (PROMISES.md, "Every schedule is
    /// right").
    pub is_right: bool,
}

impl Explored<'_> {
    /// How many worlds it found.
    pub fn worlds(&self) -> usize
        ensures { result ≡ count self.now.space }
    {
        self.space.len()
    }

    /// How many steps lead from one of them to another.
    pub fn steps(&self) -> usize
        ensures { result ≡ length self.now.space.edges }
    {
        self.space.step_count()
    }

    /// How many steps were given that all schedules begin with.
    pub fn begin(&self) -> usize
        ensures { result ≡ length self.now.space.begin }
    {
        self.space.begin().len()
    }

    /// How far the search went.
    pub fn extent(&self) -> SearchExtent
        ensures { result ≡ extent_of self.now }
    {
        extent_by(self.is_of_all_worlds, self.is_complete)
    }

    /// Whether it is known that no schedule to an end is shorter than its own. The search that is not of all worlds leaves
    /// out worlds on the way: it says so of ends, where it has all, and of a claim that is broken on the way through the
    /// steps that all schedules begin with; neither of what spins nor of other broken claims.
    pub fn is_shortest(&self, end: &SpaceEnd) -> bool
        ensures { result ≡ is_shortest self.now end.now }
    {
        let is_early = end.schedule.len() <= self.begin();
        self.is_of_all_worlds
            || is_shortest_by_ends(end.kind, self.is_complete, is_early)
            || end.schedule.is_empty()
    }

    /// What is required of the program as a whole, and is known not to be so: of what was not looked at nothing is known. Of
    /// who can wait forever it also says why it is not known that nobody can.
    pub fn unkept(&self) -> Unkept
        ensures { result ≡ unkept_in self.now }
    {
        Unkept {
            rule: self.broken_rule,
            unshown: if self.is_complete { self.unshown } else { None },
            waits: unkept_waits(&self.waits),
            conditions: unkept_conditions(&self.kept),
            undecided: None,
        }
    }

    /// The exit status: the worst over all ends, broken claims and rules, and over the bound, where the search came to it.
    pub fn status(&self) -> Status
        ensures { result ≡ status_of_search self.now }
    {
        let mut status = status_of_bound(self.is_complete);
        for end in self.ends.iter() {
            status = status.worse(end.status());
        }
        status.worse(self.unkept().status(true))
    }
}

/// The exit status of a search that is complete, or that came to a bound.
fn status_of_bound(is_complete: bool) -> Status
    ensures { result ≡ status_of_bound is_complete }
{
    if is_complete {
        Status::Done
    } else {
        Status::OutOfSteps
    }
}

/// Whether a search for ends shows that no schedule to an end of this kind is shorter than its own: one of a complete search,
/// but for what spins, and another world where no more steps lead there than those with which all schedules begin.
fn is_shortest_by_ends(kind: SpaceEndKind, is_complete: bool, is_early: bool) -> bool
    ensures { result ≡ is_shortest_by_ends kind is_complete is_early }
{
    match kind {
        SpaceEndKind::End(kind) => is_last(kind) && is_complete,
        SpaceEndKind::Broken { .. } | SpaceEndKind::Busy => is_early,
    }
}

/// Whether no schedule leads on from the worlds of an end of this kind.
fn is_last(kind: EndKind) -> bool
    ensures { result ≡ is_last kind }
{
    match kind {
        EndKind::Finished
        | EndKind::Stopped
        | EndKind::Deadlock
        | EndKind::Waiting
        | EndKind::OutOfSteps => true,
        EndKind::Spinning | EndKind::Looping => false,
    }
}
