//! The machines of a search: of few of its worlds one is kept, and that of any other is made where it is needed.

ghost use Rattle.std.specs.Prelude.{◌≡◌, ◌++◌, [], ◌∷◌, ℕ, None, Some, IsSome, IfOk, OnOk, OnErr, All, map, ◌<◌};
ghost use Rattle.std.specs.Option.{option_copied};
ghost use Rattle.machine.specs.MachineValue.{MachineValue};
ghost use Rattle.processor.specs.World.{after};
ghost use Rattle.schedule_space.specs.Spaces.{machine_after, IsRoute, machine_by};
ghost use Rattle.schedule_space.specs.Kept.{IsAtHand, machine_next};

use crate::routes::{Route, steps_back};
use crate::stepping::{moved_if_let_go, moved_on};
use machine::Machine;
use processor::Step;
use std::alloc::{AllocError, Global};
use std::collections::VecDeque;
use std::marker::Model;
use std::mem::size_of;

/// The machine at the first world of a search, that of the world to which the search has come, where it is at hand, and
/// those of later worlds that are kept, each with its place.
#[derive(Drop)]
pub(crate) struct KeptMachines<'i, const S: usize> {
    first: Machine<'i, S>,
    here: Option<Machine<'i, S>>,
    places: VecDeque<u32>,
    waiting: VecDeque<Machine<'i, S>>,
}

impl<'i, const S: usize> Model for KeptMachines<'i, S> {
    ghost use Rattle.schedule_space.specs.Kept.{KeptValue};

    ghost Value = { KeptValue };

    ghost view = { λ k. record {
      first = k.first;
      here = k.here;
      places = k.places.items;
      waiting = k.waiting.items;
    } };
}

impl<'i, const S: usize> KeptMachines<'i, S> {
    /// The machine at the first world alone.
    pub(crate) fn new(alloc: Global, first: Machine<'i, S>) -> KeptMachines<'i, S>
        ensures { result ≡ record { first = first.entry; here = None; places = []; waiting = [] } }
    {
        KeptMachines {
            first,
            here: None,
            places: VecDeque::new(alloc),
            waiting: VecDeque::new(alloc),
        }
    }

    /// How many are kept of later worlds.
    pub(crate) fn len(&self) -> usize {
        self.waiting.len()
    }

    /// How many bytes the lists of these have room for.
    pub(crate) fn bytes(&self) -> usize {
        let machines = self
            .waiting
            .capacity()
            .saturating_mul(size_of::<Machine<'_, S>>());
        let places = self.places.capacity().saturating_mul(size_of::<u32>());
        machines.saturating_add(places)
    }

    /// Comes to a place: its machine is at hand, where it is the next that is kept.
    pub(crate) fn go_to(&mut self, place: u32)
        ensures first { self.new.first ≡ self.old.first }
        ensures fewer { (n : ℕ) → All (λ k. k < n) self.old.places → All (λ k. k < n) self.new.places }
        ensures kept { (f : ℕ → MachineValue) → self.old.waiting ≡ map f self.old.places
            → self.new.waiting ≡ map f self.new.places }
        ensures here { (f : ℕ → MachineValue) → self.old.waiting ≡ map f self.old.places
            → IsAtHand (f place) self.new.here }
    {
        self.here = None;
        let Some(next) = self.places.front() else {
            return;
        };
        if *next != place {
            return;
        }
        self.places.pop_front();
        self.here = self.waiting.pop_front();
    }

    /// Has the machine of a place at hand: makes it, where it is not.
    pub(crate) fn make_here(&mut self, alloc: Global, route: Route<'_>) -> Result<(), AllocError>
        requires route { IsRoute route.links.now route.place }
        requires first { self.old.first ≡ machine_after self.old.first.image route.begin.now }
        requires here { IsAtHand (machine_by self.old.first.image route.begin.now route.links.now route.place) self.old.here }
        ensures made { OnOk result (self.new ≡ record self.old {
          here = Some (machine_by self.old.first.image route.entry.begin.now route.entry.links.now route.entry.place);
        }) }
        ensures stays { OnErr result (self.new ≡ self.old) }
    {
        if self.here.is_some() {
            return Ok(());
        }
        let mut machine = self.first.try_clone()?;
        let mut steps = steps_back(alloc, route)?;
        steps.reverse();
        machine.run(&steps);
        self.here = Some(machine);
        Ok(())
    }

    /// The machine at hand.
    pub(crate) fn here(&self) -> Option<&Machine<'i, S>>
        ensures { option_copied result ≡ self.now.here }
    {
        self.here.as_ref()
    }

    /// A machine at the world after a step from the one at hand: this one itself if it is let go, else a copy of it.
    pub(crate) fn next(&mut self, step: Step, is_let_go: bool) -> Result<Machine<'i, S>, AllocError>
        requires { IsSome self.old.here }
        ensures next { (m : MachineValue) → self.old.here ≡ Some m
            → IfOk result (λ n. n ≡ record { image = m.image; world = after m.image m.world step }) }
        ensures kept { self.new ≡ record self.old { here = self.new.here } }
        ensures here { (m : MachineValue) → IsAtHand m self.old.here → IsAtHand m self.new.here }
    {
        moved_on(&mut self.here, step, is_let_go)
    }

    /// The machine at hand, moved on by a step, where it is let go; else none, since that would cost a copy.
    pub(crate) fn hand_on(&mut self, step: Step, is_let_go: bool) -> Option<Machine<'i, S>>
        ensures next { (m : MachineValue) → IsAtHand m self.old.here → IsAtHand (machine_next m step) result }
        ensures kept { self.new ≡ record self.old { here = self.new.here } }
        ensures here { (m : MachineValue) → IsAtHand m self.old.here → IsAtHand m self.new.here }
    {
        moved_if_let_go(&mut self.here, step, is_let_go)
    }

    /// Keeps a machine for a later place, after the others.
    pub(crate) fn push(&mut self, place: u32, machine: Machine<'i, S>) -> Result<(), AllocError>
        ensures { OnOk result (self.new ≡ record self.old {
          places = self.old.places ++ place ∷ [];
          waiting = self.old.waiting ++ machine.entry ∷ [];
        }) }
    {
        self.places.reserve(1)?;
        self.waiting.reserve(1)?;
        self.places.push_back_reserved(place);
        self.waiting.push_back_reserved(machine);
        Ok(())
    }
}
