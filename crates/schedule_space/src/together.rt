//! Steps of a set that are taken together from a world, since they can be taken before all others.

ghost use Rattle.std.specs.Prelude.{◌≡◌, ◌⊎◌, Err, IfOk, IfSome, OnOk};
ghost use Rattle.std.specs.List.{Contains};
ghost use Rattle.tag_memory.specs.Unforwarded.{IsUnforwarded};
ghost use Rattle.processor.specs.declared.steps.Step.{Step};
ghost use Rattle.first_sets.specs.ApartSets.{IsApartSet};
ghost use Rattle.schedule_space.specs.Tables.{AreTablesOf};
ghost use Rattle.schedule_space.specs.Spaces.{world_of, AreAllDifferent};
ghost use Rattle.schedule_space.specs.Kept.{AreKeptAt};
ghost use Rattle.schedule_space.specs.Finding.{IsGrown, IsTaken, IsExpanding, HasRunning, HaveNoEdges, IsFullAt};
ghost use Rattle.schedule_space.specs.Quiet.{IsFollowedQuietly};
ghost use Rattle.schedule_space.specs.Chosen.{is_step, is_in, is_out, steps_in, steps_out};

use crate::expanding::Shortcuts;
use crate::finding::{Found, Stop};
use crate::kept_machines::KeptMachines;
use crate::unseen::unseen_steps;
use first_sets::apart_set;
use machine::Machine;
use processor::Step;
use std::alloc::{AllocError, Global};

impl<'i> Found<'i> {
    /// Takes, of the steps of `others`, those of a set that can be taken before all others, where one is found by the tables
    /// and one of these steps is unseen and leads to a later place; else all. `running` has the steps of all streams that run; those that
    /// are not among `others` have been taken.
    pub(crate) fn take_set_or_all<const S: usize>(
        &mut self,
        machines: &mut KeptMachines<'i, S>,
        from: u32,
        running: &[Step],
        others: &[Step],
        shortcuts: Shortcuts<'_>,
        most: u32,
    ) -> Result<(), Stop>
        requires expanding { IsExpanding self.old from most }
        requires machines { AreKeptAt self.old machines.old from }
        requires once { AreAllDifferent others.now }
        requires new { HaveNoEdges self.old from others.now }
        requires running { HasRunning (world_of self.old from) running.now }
        requires waits { (t : Step) → Contains running.now t → IsTaken self.old from t ⊎ Contains others.now t }
        requires tables { AreTablesOf self.old.image self.old.live shortcuts.tables.now }
        requires unforwarded { IsUnforwarded (world_of self.old from).memory }
        ensures grown { IsGrown self.old self.new }
        ensures expanding { IsExpanding self.new from most }
        ensures full { result ≡ Err Stop.Full → IsFullAt self.new from most }
        ensures machines { OnOk result (AreKeptAt self.new machines.new from) }
        ensures quiet { OnOk result (IsFollowedQuietly shortcuts.entry.observation.places.now shortcuts.entry.observation.words.now self.new from) }
    {
        self.make_here(machines, from)?;
        let here = machines.here().unwrap();
        let Some(set) = set_with_unseen(self.alloc, here, running, others, shortcuts)? else {
            return self.take_all(machines, from, others, most);
        };
        let first = steps_in(self.alloc, &set, others)?;
        let unseen = unseen_steps(self.alloc, here, &first, shortcuts.observation)?;
        let is_later = self.take_each(machines, from, &first, &unseen, false, most)?;
        if is_later {
            return Ok(());
        }
        let rest = steps_out(self.alloc, &set, others)?;
        self.take_all(machines, from, &rest, most)
    }
}

/// A set of steps that is apart from those of all others, where one is found by the tables that has a step of `others` which
/// is unseen.
fn set_with_unseen<const S: usize>(
    alloc: Global,
    machine: &Machine<'_, S>,
    running: &[Step],
    others: &[Step],
    shortcuts: Shortcuts<'_>,
) -> Result<Option<Vec<Step>>, AllocError>
    requires unforwarded { IsUnforwarded machine.now.world.memory }
    requires running { HasRunning machine.now.world running.now }
    ensures { IfOk result (λ o. IfSome o (λ set.
        IsApartSet machine.now.image shortcuts.entry.tables.now machine.now.world set.items)) }
{
    let unseen = unseen_steps(alloc, machine, others, shortcuts.observation)?;
    apart_set(alloc, machine, shortcuts.tables, running, &unseen)
}

/// Those of these steps that are of a set, in their order.
fn steps_in(alloc: Global, set: &[Step], steps: &[Step]) -> Result<Vec<Step>, AllocError>
    ensures { IfOk result (λ v. v.items ≡ steps_in set.now steps.now) }
{
    steps
        .iter()
        .copied()
        .filter(
            |step: &Step| -> bool
                ensures { result ≡ is_in set.entry.now step.now }
            { is_in(set, *step) },
        )
        .collect(alloc)
}

/// Those of these steps that are not of a set, in their order.
fn steps_out(alloc: Global, set: &[Step], steps: &[Step]) -> Result<Vec<Step>, AllocError>
    ensures { IfOk result (λ v. v.items ≡ steps_out set.now steps.now) }
{
    steps
        .iter()
        .copied()
        .filter(
            |step: &Step| -> bool
                ensures { result ≡ is_out set.entry.now step.now }
            { !is_in(set, *step) },
        )
        .collect(alloc)
}

/// Whether a step is one of a set.
pub(crate) fn is_in(set: &[Step], step: Step) -> bool
    ensures { result ≡ is_in set.now step }
{
    set.iter().any(
        |other: &Step| -> bool
            ensures { result ≡ is_step step other.now }
        { is_step(step, *other) },
    )
}

/// Whether the second one is this step.
fn is_step(this: Step, step: Step) -> bool
    ensures { result ≡ is_step this step }
{
    step.p == this.p && step.s == this.s
}
