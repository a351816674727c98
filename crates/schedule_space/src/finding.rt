//! A space in the making: worlds are distinguished by their keys, which are those of the worlds with 0 in each register
//! that does not matter.

ghost use Rattle.std.specs.Prelude.{◌≡◌, ◌<◌, ◌≤◌, ◌+◌, [], ◌∷◌, ◌++◌, length, Some, Err, IfOk, IfSome, OnOk, OnErr};
ghost use Rattle.std.specs.Prelude.{Contains};
ghost use Rattle.image_file.specs.ImageValue.{ImageValue};
ghost use Rattle.processor.specs.World.{after};
ghost use Rattle.world_keys.specs.DeadRegisters.Clearing.{IsLive};
ghost use Rattle.schedule_space.specs.Spaces.{count, schedule_of, world_of, machine_after};
ghost use Rattle.schedule_space.specs.Spaces.{StandsFor, AreAllApart, StandAlone, ShortestFirst, AreAllDifferent};
ghost use Rattle.schedule_space.specs.Spaces.{HasEarlierLinks, IsEdgeToStandIn};
ghost use Rattle.schedule_space.specs.declared.links.Edge.{Edge};
ghost use Rattle.world_keys.specs.Tables.{Has};
ghost use Rattle.machine.specs.MachineValue.{MachineValue};
ghost use Rattle.schedule_space.specs.Spaces.{machine_by, IsRoute};
ghost use Rattle.schedule_space.specs.Kept.{AreKeptAt, IsAtHand, IsSameButHere, machine_next, IsMachineMore};
ghost use Rattle.world_keys.specs.DeadRegisters.Clearing.{LiveValue};
ghost use Rattle.schedule_space.specs.StreamSteps.{AreAllLeft};
ghost use Rattle.schedule_space.specs.Before.{IsBefore};
ghost use Rattle.world_keys.specs.Tables.{Extends};
ghost use Rattle.schedule_space.specs.Fates.{IsFate};
ghost use Rattle.schedule_space.specs.Finding.{space_of, with_edge, IsGrown, IsExpanding, IsFullAt, NamesAll, HasRunning};
ghost use Rattle.schedule_space.specs.declared.finding.Stop.TheVariants.{NoMemory};

use crate::expanding::Wanted;
use crate::fates::{Fate, fate_of};
use crate::kept_machines::KeptMachines;
use crate::key_streams::{fate_by_key, running_by};
use crate::known_steps::{SearchKnowledge, StepsSeen};
use crate::links::{Edge, Link};
use crate::next_worlds::key_after;
use crate::routes::{Route, route_to};
use crate::spaces::Space;
use image_file::Image;
use machine::Machine;
use processor::Step;
use std::alloc::{AllocError, AllocFailed, Global};
use std::marker::Model;
use std::mem::size_of;
use world_keys::registers::LiveRegisters;
use world_keys::{Table, world_key};

/// The worlds that were found so far, with their keys.
#[derive(Drop)]
pub(crate) struct Found<'i> {
    pub(crate) alloc: Global,
    image: &'i Image,
    live: LiveRegisters,
    begin: Vec<Step>,
    pub(crate) links: Vec<Link>,
    edges: Vec<Edge>,
    fates: Vec<Fate>,
    seen: SearchKnowledge,
    keys: Table,
    wanted: Wanted,
    /// For the streams that run in a new world.
    running: Vec<Step>,
}

impl<'i> Model for Found<'i> {
    ghost use Rattle.schedule_space.specs.Spaces.{SpaceValue};
    ghost use Rattle.schedule_space.specs.Finding.{space_of, IsInTheMaking};

    ghost Value = { SpaceValue };

    ghost view = { λ f. space_of f.image.now f.live f.begin.items f.links.items f.edges.items };

    ghost invariant = { λ f. IsInTheMaking (space_of f.image.now f.live f.begin.items f.links.items f.edges.items)
        f.fates.items f.seen.contents f.keys f.seen.steps };
}

/// Why a search stopped before its end.
#[derive(Clone, Copy, Debug, PartialEq, Eq)]
pub(crate) enum Stop {
    /// As many worlds were found as may be.
    Full,
    /// Memory was refused.
    NoMemory,
}

impl From<AllocError> for Stop {
    ghost from_gives = { λ _ stop. stop ≡ NoMemory };

    fn from(_error: AllocError) -> Stop {
        Stop::NoMemory
    }
}

impl<T: Drop> From<AllocFailed<T>> for Stop {
    ghost from_gives = { λ _ stop. stop ≡ NoMemory };

    fn from(_error: AllocFailed<T>) -> Stop {
        Stop::NoMemory
    }
}

impl<'i> Found<'i> {
    /// The world of an image after a schedule, from a machine that is there.
    pub(crate) fn begin<const S: usize>(
        alloc: Global,
        begin: &[Step],
        first: &Machine<'i, S>,
        live: LiveRegisters,
        wanted: Wanted,
    ) -> Result<Found<'i>, AllocError>
        requires machine { first.now ≡ machine_after first.now.image begin.now }
        requires live { IsLive first.now.image live }
        ensures { IfOk result (λ v. v ≡ space_of first.now.image live begin.now [] []) }
    {
        let fate = fate_of(first);
        let mut contents = Table::new(alloc);
        let key = world_key(alloc, &live, &mut contents, first)?;
        let mut keys = Table::new(alloc);
        keys.push(&key)?;
        let mut fates = Vec::new(alloc);
        fates.push(fate)?;
        Ok(Found {
            alloc,
            image: first.image(),
            live,
            begin: Vec::from_slice(alloc, begin)?,
            links: Vec::new(alloc),
            edges: Vec::new(alloc),
            fates,
            seen: SearchKnowledge {
                alloc,
                contents,
                steps: StepsSeen::new(alloc),
            },
            keys,
            wanted,
            running: Vec::new(alloc),
        })
    }

    /// How many worlds were found.
    pub(crate) fn len(&self) -> usize
        ensures { result ≡ count self.now }
    {
        self.fates.len()
    }

    /// How many bytes it holds: the room of its lists and tables.
    pub(crate) fn bytes(&self) -> usize {
        let links = self.links.capacity().saturating_mul(size_of::<Link>());
        let edges = self.edges.capacity().saturating_mul(size_of::<Edge>());
        let fates = self.fates.capacity().saturating_mul(size_of::<Fate>());
        links
            .saturating_add(edges)
            .saturating_add(fates)
            .saturating_add(self.keys.bytes())
            .saturating_add(self.seen.bytes())
    }

    /// The space.
    pub(crate) fn into_space(self) -> Space<'i>
        ensures is { result ≡ self.entry }
        ensures live { IsLive result.image result.live }
        ensures apart { AreAllApart result }
        ensures links { HasEarlierLinks result }
        ensures in_order { ShortestFirst result }
        ensures alone { NamesAll result.live → StandAlone result }
        ensures edges { (e : Edge) → Contains result.edges e → IsEdgeToStandIn result e }
        ensures once { AreAllDifferent result.edges }
    {
        Space::from_parts(
            self.image, self.live, self.begin, self.links, self.edges, self.fates,
        )
    }

    /// Puts an edge that is not there yet after the others.
    pub(crate) fn add_edge(&mut self, edge: Edge) -> Result<(), AllocError>
        requires edge { IsEdgeToStandIn self.old edge }
        requires new { ¬ (Contains self.old.edges edge) }
        ensures added { OnOk result (self.new ≡ with_edge self.old edge) }
        ensures stays { OnErr result (self.new ≡ self.old) }
    {
        self.edges.push(edge)?;
        Ok(())
    }

    /// The streams that run in the world at a place: all of them, each once.
    pub(crate) fn running_at(&self, place: u32) -> Result<Vec<Step>, AllocError>
        requires { place < count self.now }
        ensures all { IfOk result (λ v. HasRunning (world_of self.now place) v.items) }
        ensures once { IfOk result (λ v. AreAllDifferent v.items) }
    {
        let key = self.keys.list(place as usize).unwrap();
        running_by(self.alloc, self.image, &self.seen.contents, key)
    }

    /// Has the machine at the world at a place at hand.
    pub(crate) fn make_here<const S: usize>(
        &self,
        machines: &mut KeptMachines<'i, S>,
        place: u32,
    ) -> Result<(), AllocError>
        requires there { place < count self.now }
        requires machines { AreKeptAt self.now machines.old place }
        ensures machines { OnOk result (AreKeptAt self.now machines.new place) }
        ensures made { OnOk result (machines.new.here ≡ Some (machine_after self.now.image (schedule_of self.now place))) }
    {
        let route = route_to(&self.begin, &self.links, place as usize);
        machines.make_here(self.alloc, route)
    }

    /// The place of a world that stands for the one to which a step leads from the world at a place. A new world is put
    /// after the others, and a machine at it after those that are kept: if it is known how it goes on from there, only
    /// one that needs no copy.
    pub(crate) fn place<const S: usize>(
        &mut self,
        machines: &mut KeptMachines<'i, S>,
        link: Link,
        is_let_go: bool,
        most: u32,
    ) -> Result<u32, Stop>
        requires expanding { IsExpanding self.old link.from most }
        requires machines { AreKeptAt self.old machines.old link.from }
        ensures grown { IsGrown self.old self.new }
        ensures edges { self.new.edges ≡ self.old.edges }
        ensures expanding { IsExpanding self.new link.from most }
        ensures machines { OnOk result (AreKeptAt self.new machines.new link.from) }
        ensures full { result ≡ Err Stop.Full → IsFullAt self.new link.from most }
        ensures there { IfOk result (λ k. k < count self.new) }
        ensures stands { IfOk result (λ k.
            StandsFor self.new k (after self.old.image (world_of self.old link.from) link.step)) }
    {
        let before = self.keys.list(link.from as usize).unwrap();
        let route = route_to(&self.begin, &self.links, link.from as usize);
        let key = key_after(
            &mut self.seen,
            &self.live,
            before,
            machines,
            route,
            link.step,
        )?;
        let Some(key) = key else {
            return Ok(link.from);
        };
        if let Some(place) = self.keys.find(&key) {
            return Ok(place as u32);
        }
        let place = self.links.len() + 1;
        if place >= most as usize {
            return Err(Stop::Full);
        }
        let known = known_fate(
            &mut self.seen,
            &mut self.running,
            self.image,
            &key,
            self.wanted,
        )?;
        let next = next_world(self.alloc, machines, route, link.step, is_let_go, known)?;
        let world = NewWorld {
            place: place as u32,
            next,
            link,
            key,
        };
        push_world(
            machines,
            &mut self.links,
            &mut self.fates,
            &mut self.keys,
            world,
        )?;
        Ok(place as u32)
    }
}

/// How it goes on from a world, if its key shows that; None in a search for ends, in which each world is to have its
/// machine.
fn known_fate(
    seen: &mut SearchKnowledge,
    running: &mut Vec<Step>,
    image: &Image,
    key: &[u32],
    wanted: Wanted,
) -> Result<Option<Fate>, AllocError>
    requires { length key.now ≡ length image.now.entries + 1 }
    ensures fate { (live : LiveValue) (m : MachineValue) → m.image ≡ image.now
        → IsBefore live seen.old.contents seen.old.steps m key.now
        → IfOk result (λ o. IfSome o (IsFate m.image m.world)) }
    ensures steps { (live : LiveValue) (m : MachineValue)
        → IsBefore live seen.old.contents seen.old.steps m key.now
        → AreAllLeft m.image live seen.new.contents seen.new.steps }
    ensures grown { Extends seen.old.contents seen.new.contents }
{
    match wanted {
        Wanted::Worlds => fate_by_key(seen, running, image, key),
        Wanted::Ends => Ok(None),
    }
}

/// How it goes on from a world, and a machine at it, where one is to be kept.
#[derive(Drop)]
struct NextWorld<'i, const S: usize> {
    fate: Fate,
    machine: Option<Machine<'i, S>>,
}

/// The world after a step from the one at the end of a route: with a machine if it is not known how it goes on, or if
/// one is at hand and let go, so that later worlds need not be made from the first.
fn next_world<'i, const S: usize>(
    alloc: Global,
    machines: &mut KeptMachines<'i, S>,
    route: Route<'_>,
    step: Step,
    is_let_go: bool,
    known: Option<Fate>,
) -> Result<NextWorld<'i, S>, AllocError>
    requires route { IsRoute route.links.now route.place }
    requires first { machines.old.first ≡ machine_after machines.old.first.image route.begin.now }
    requires here { IsAtHand (machine_by machines.old.first.image route.begin.now route.links.now route.place) machines.old.here }
    requires known { let m = machine_by machines.old.first.image route.begin.now route.links.now route.place in
        IfSome known (IsFate m.image (after m.image m.world step)) }
    ensures fate { let m = machine_by machines.old.first.image route.entry.begin.now route.entry.links.now route.entry.place in
        IfOk result (λ n. IsFate m.image (after m.image m.world step) n.fate) }
    ensures machine { let m = machine_by machines.old.first.image route.entry.begin.now route.entry.links.now route.entry.place in
        IfOk result (λ n. IsAtHand (machine_next m step) n.machine) }
    ensures kept { IsSameButHere machines.old machines.new }
    ensures here { IsAtHand (machine_by machines.old.first.image route.entry.begin.now route.entry.links.now route.entry.place) machines.new.here }
{
    if let Some(fate) = known {
        let machine = machines.hand_on(step, is_let_go);
        return Ok(NextWorld { fate, machine });
    }
    machines.make_here(alloc, route)?;
    let machine = machines.next(step, is_let_go)?;
    Ok(NextWorld {
        fate: fate_of(&machine),
        machine: Some(machine),
    })
}

/// A world that was not found before, with its place, how it was found, and its key.
#[derive(Drop)]
struct NewWorld<'i, const S: usize> {
    place: u32,
    next: NextWorld<'i, S>,
    link: Link,
    key: Vec<u32>,
}

/// Puts what belongs to a new world after what belongs to the others: all of it, or nothing but its machine if memory
/// is refused.
fn push_world<'i, const S: usize>(
    machines: &mut KeptMachines<'i, S>,
    links: &mut Vec<Link>,
    fates: &mut Vec<Fate>,
    keys: &mut Table,
    world: NewWorld<'i, S>,
) -> Result<(), AllocError>
    requires new { ¬ (Has keys.old world.key.items) }
    ensures machine { (m : MachineValue) → IsAtHand m world.entry.next.machine
        → OnOk result (IsMachineMore machines.old machines.new world.entry.place m) }
    ensures link { OnOk result (links.new.items ≡ links.old.items ++ world.entry.link ∷ []) }
    ensures fate { OnOk result (fates.new.items ≡ fates.old.items ++ world.entry.next.fate ∷ []) }
    ensures key { OnOk result (keys.new ≡ keys.old ++ world.entry.key.items ∷ []) }
    ensures links { OnErr result (links.new.items ≡ links.old.items) }
    ensures fates { OnErr result (fates.new.items ≡ fates.old.items) }
    ensures keys { OnErr result (keys.new ≡ keys.old) }
{
    let NewWorld {
        place,
        next,
        link,
        key,
    } = world;
    let NextWorld { fate, machine } = next;
    links.reserve(1)?;
    fates.reserve(1)?;
    keep_machine(machines, place, machine)?;
    keys.push(&key)?;
    links.push_reserved(link);
    fates.push_reserved(fate);
    Ok(())
}

/// Keeps a machine for a place, if there is one.
fn keep_machine<'i, const S: usize>(
    machines: &mut KeptMachines<'i, S>,
    place: u32,
    machine: Option<Machine<'i, S>>,
) -> Result<(), AllocError>
    ensures { (m : MachineValue) → IsAtHand m machine.entry → OnOk result (IsMachineMore machines.old machines.new place m) }
{
    match machine {
        Some(machine) => machines.push(place, machine),
        None => Ok(()),
    }
}
