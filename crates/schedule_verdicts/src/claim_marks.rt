//! What is known of a claim and the worlds of a space.

ghost use Rattle.std.specs.Prelude.{◌≡◌, ◌<◌, IfOk, Err};
ghost use Rattle.claims.specs.Holding.{holds, shows};
ghost use Rattle.busy_streams.specs.ScheduleSpace.Spaces.{count, world_of, StandsFor};
ghost use Rattle.schedule_verdicts.specs.ClaimMarks.{passes, IsMark, IsMarkOf};

use busy_streams::space::Space;
use claims::{Claim, Scope};
use machine::{LoadFault, Machine};
use std::alloc::{AllocError, Global};
use std::marker::Model;

/// What is known of a claim and a world.
#[derive(Clone, Copy, Debug, PartialEq, Eq)]
pub(crate) enum Mark {
    /// Nothing yet.
    Unknown,
    /// The world passes the claim.
    Passed,
    /// It does not.
    Failed,
}

/// What is known of a claim and the worlds of a space: a byte for each. A world without a mark is judged by a machine that is
/// made by its schedule. Contracts see the space and the claim.
#[derive(Drop)]
pub struct ClaimMarks<'s, 'i> {
    space: &'s Space<'i>,
    claim: &'s Claim,
    marks: Vec<Mark>,
}

impl<'s, 'i> Model for ClaimMarks<'s, 'i> {
    ghost use Rattle.schedule_verdicts.specs.ClaimMarks.{MarksValue, AreMarks};

    ghost Value = { MarksValue };

    ghost view = { λ m. record { space = m.space.now; claim = m.claim.now } };

    ghost invariant = { λ m. AreMarks m.space.now m.claim.now m.marks.items };
}

impl<'s, 'i> ClaimMarks<'s, 'i> {
    /// Nothing is known yet.
    pub(crate) fn unknown(
        alloc: Global,
        space: &'s Space<'i>,
        claim: &'s Claim,
    ) -> Result<ClaimMarks<'s, 'i>, AllocError>
        ensures { IfOk result (λ m. m ≡ record { space = space.entry.now; claim = claim.entry.now }) }
    {
        Ok(ClaimMarks {
            space,
            claim,
            marks: vec![in alloc; Mark::Unknown; space.len()]?,
        })
    }

    /// The space.
    pub fn space(&self) -> &'s Space<'i>
        ensures { result.now ≡ self.now.space }
    {
        self.space
    }

    /// The claim.
    pub fn claim(&self) -> &'s Claim
        ensures { result.now ≡ self.now.claim }
    {
        self.claim
    }

    /// Marks the world at a place, which stands for that of this machine.
    pub(crate) fn judge<const S: usize>(&mut self, place: usize, machine: &Machine<'_, S>)
        requires { StandsFor self.old.space place machine.now.world }
        ensures { self.new ≡ self.old }
    {
        if place < self.marks.len() {
            self.marks[place] = mark_of(self.claim, machine);
        }
    }

    /// Whether the claim holds of the world at a place.
    ///
    /// `Streams` only where the image's slim is above `S`.
    pub fn holds<const S: usize>(&self, alloc: Global, place: usize) -> Result<bool, LoadFault>
        requires { place < count self.now.space }
        ensures holds { IfOk result (λ b. b ≡ holds (world_of self.now.space place) self.now.claim) }
        ensures streams { result ≡ Err LoadFault.Streams → S < self.now.space.image.slim }
    {
        match self.claim.scope {
            Scope::Always | Scope::Never => self.passes::<S>(alloc, place),
            Scope::Once => Ok(true),
        }
    }

    /// Whether the world at a place shows the claim.
    ///
    /// `Streams` only where the image's slim is above `S`.
    pub fn is_shown<const S: usize>(&self, alloc: Global, place: usize) -> Result<bool, LoadFault>
        requires { place < count self.now.space }
        ensures shows { IfOk result (λ b. b ≡ shows (world_of self.now.space place) self.now.claim) }
        ensures streams { result ≡ Err LoadFault.Streams → S < self.now.space.image.slim }
    {
        match self.claim.scope {
            Scope::Always | Scope::Never => Ok(true),
            Scope::Once => self.passes::<S>(alloc, place),
        }
    }

    /// Whether the world at a place passes the claim.
    fn passes<const S: usize>(&self, alloc: Global, place: usize) -> Result<bool, LoadFault>
        requires { place < count self.now.space }
        ensures passes { IfOk result (λ b. b ≡ passes (world_of self.now.space place) self.now.claim) }
        ensures streams { result ≡ Err LoadFault.Streams → S < self.now.space.image.slim }
    {
        match self.mark_at(place) {
            Mark::Passed => Ok(true),
            Mark::Failed => Ok(false),
            Mark::Unknown => self.passes_by_schedule::<S>(alloc, place),
        }
    }

    /// The same, by a machine that the world's schedule makes.
    ///
    /// Not inlined: who reads a mark would pay for the room of a machine.
    #[inline(never)]
    fn passes_by_schedule<const S: usize>(
        &self,
        alloc: Global,
        place: usize,
    ) -> Result<bool, LoadFault>
        requires { place < count self.now.space }
        ensures passes { IfOk result (λ b. b ≡ passes (world_of self.now.space place) self.now.claim) }
        ensures streams { result ≡ Err LoadFault.Streams → S < self.now.space.image.slim }
    {
        let machine = self.space.machine::<S>(alloc, place)?;
        Ok(passes(self.claim, &machine))
    }

    /// What is known of the world at a place.
    fn mark_at(&self, place: usize) -> Mark
        ensures { IsMarkOf self.now.space self.now.claim place result }
    {
        if place >= self.marks.len() {
            return Mark::Unknown;
        }
        self.marks[place]
    }
}

/// What is known of a claim and the world of a machine.
fn mark_of<const S: usize>(claim: &Claim, machine: &Machine<'_, S>) -> Mark
    ensures { IsMark (passes machine.now.world claim.now) result }
{
    if passes(claim, machine) {
        Mark::Passed
    } else {
        Mark::Failed
    }
}

/// Whether the world of a machine passes a claim.
fn passes<const S: usize>(claim: &Claim, machine: &Machine<'_, S>) -> bool
    ensures { result ≡ passes machine.now.world claim.now }
{
    claim.holds(machine) && claim.is_shown(machine)
}
