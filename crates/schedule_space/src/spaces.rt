//! A space of worlds, and what can be read of it.

ghost use Rattle.std.specs.Prelude.{◌≡◌, ◌<◌, ◌↔◌, length, IfOk, Contains};
ghost use Rattle.world_keys.specs.DeadRegisters.Clearing.{IsLive};
ghost use Rattle.schedule_space.specs.declared.links.Edge.{Edge};
ghost use Rattle.schedule_space.specs.Spaces.{count, schedule_of, world_of, machine_after, IsEdgeToStandIn, HasEarlierLinks};
ghost use Rattle.schedule_space.specs.Spaces.{ShortestFirst, AreAllDifferent};
ghost use Rattle.schedule_space.specs.Fates.{IsFate};
ghost use Rattle.schedule_space.specs.Finding.{space_of, IsSpace};

use crate::fates::Fate;
use crate::links::{Edge, Link};
use crate::routes::{route_to, schedule_by};
use image_file::Image;
use machine::{LoadFault, Machine};
use processor::Step;
use std::alloc::{AllocError, Global};
use std::marker::Model;
use world_keys::registers::LiveRegisters;

/// Worlds of an image, each once, that schedules lead to: the first is that of the schedule with which all begin, and
/// each other one has a link, which says by which step from which earlier world it was found. Each stands for all that
/// differ from it in registers and condition codes alone that do not matter. Contracts see the image, which of these
/// matter, the beginning, the links and the edges; the worlds are those that the schedules of the links lead to.
#[derive(Drop)]
pub struct Space<'i> {
    image: &'i Image,
    live: LiveRegisters,
    begin: Vec<Step>,
    links: Vec<Link>,
    edges: Vec<Edge>,
    fates: Vec<Fate>,
}

impl<'i> Model for Space<'i> {
    ghost use Rattle.schedule_space.specs.Spaces.{SpaceValue};
    ghost use Rattle.schedule_space.specs.Finding.{space_of, IsSpace};

    ghost Value = { SpaceValue };

    ghost view = { λ s. space_of s.image.now s.live s.begin.items s.links.items s.edges.items };

    ghost invariant = { λ s. IsSpace (space_of s.image.now s.live s.begin.items s.links.items s.edges.items)
        s.fates.items };
}

impl<'i> Space<'i> {
    /// The space of these parts.
    pub(crate) fn from_parts(
        image: &'i Image,
        live: LiveRegisters,
        begin: Vec<Step>,
        links: Vec<Link>,
        edges: Vec<Edge>,
        fates: Vec<Fate>,
    ) -> Space<'i>
        requires { IsSpace (space_of image.now live begin.items links.items edges.items) fates.items }
        ensures { result ≡ space_of image.entry.now live begin.items links.items edges.items }
    {
        Space {
            image,
            live,
            begin,
            links,
            edges,
            fates,
        }
    }

    /// The image.
    pub fn image(&self) -> &'i Image
        ensures { result.now ≡ self.now.image }
    {
        self.image
    }

    /// Which registers of its worlds matter: worlds that differ in others alone are one.
    pub fn live(&self) -> &LiveRegisters
        ensures is { result.now ≡ self.now.live }
        ensures live { IsLive self.now.image self.now.live }
    {
        &self.live
    }

    /// The schedule with which all schedules of its worlds begin.
    pub fn begin(&self) -> &[Step]
        ensures { result.now ≡ self.now.begin }
    {
        &self.begin
    }

    /// How many worlds it has, each but the first found by a step from an earlier one, in the order of the lengths of
    /// their schedules. All that may be read matters.
    pub fn len(&self) -> usize
        ensures count { result ≡ count self.now }
        ensures links { HasEarlierLinks self.now }
        ensures in_order { ShortestFirst self.now }
        ensures live { IsLive self.now.image self.now.live }
    {
        self.fates.len()
    }

    /// How many steps it has that lead from one world to another.
    pub fn step_count(&self) -> usize
        ensures { result ≡ length self.now.edges }
    {
        self.edges.len()
    }

    /// The steps that lead from one world to one for which another stands, each once, in the order of the worlds that they
    /// lead from.
    pub fn edges(&self) -> &[Edge]
        ensures edges { result.now ≡ self.now.edges }
        ensures each { (e : Edge) → Contains self.now.edges e → IsEdgeToStandIn self.now e }
        ensures once { AreAllDifferent self.now.edges }
        ensures live { IsLive self.now.image self.now.live }
    {
        &self.edges
    }

    /// How it goes on from the world at a place.
    pub fn fate(&self, place: usize) -> Fate
        requires { place < count self.now }
        ensures { IsFate self.now.image (world_of self.now place) result }
    {
        self.fates[place]
    }

    /// The schedule by which the world at a place was found, from the image's start on.
    pub fn schedule(&self, alloc: Global, place: usize) -> Result<Vec<Step>, AllocError>
        requires { place < count self.now }
        ensures { IfOk result (λ v. v.items ≡ schedule_of self.now place) }
    {
        schedule_by(alloc, route_to(&self.begin, &self.links, place))
    }

    /// A machine at the world at a place.
    pub fn machine<const S: usize>(
        &self,
        alloc: Global,
        place: usize,
    ) -> Result<Machine<'i, S>, LoadFault>
        requires { place < count self.now }
        ensures machine { IfOk result (λ m. m ≡ machine_after self.now.image (schedule_of self.now place)) }
        ensures streams { (result ≡ Err LoadFault.Streams) ↔ (S < self.now.image.slim) }
    {
        let mut machine = Machine::load(alloc, self.image)?;
        let schedule = self.schedule(alloc, place)?;
        machine.run(&schedule);
        Ok(machine)
    }
}
