//! A walk through the worlds of a space.

ghost use Rattle.std.specs.Prelude.{◌≡◌, ◌<◌, IfOk, OnOk, Err};
ghost use Rattle.schedule_verdicts.specs.Walking.{IsAt, IsVisit, AreWays, IsWay, machine_next};

use crate::step_trees::StepTree;
use busy_streams::space::{Edge, Space};
use image_file::Image;
use machine::{LoadFault, Machine};
use std::alloc::{AllocError, Global};
use std::marker::Model;

/// About how many bytes the machines may have together that a walk keeps for later.
const MOST_BYTES: usize = 4_000_000;

/// About how many bytes a word of a machine takes, with its tags.
const BYTES_OF_WORD: usize = 9;

/// About how many bytes a stream takes.
const BYTES_OF_STREAM: usize = 344;

/// A place that a walk has still to come to, with a machine there, where one is kept.
#[derive(Drop)]
pub(crate) struct Visit<'i, const S: usize> {
    place: usize,
    machine: Option<Machine<'i, S>>,
}

impl<'i, const S: usize> Model for Visit<'i, S> {
    ghost use Rattle.schedule_verdicts.specs.Walking.{VisitValue};

    ghost Value = { VisitValue };

    ghost view = { λ v. record { place = v.place; machine = v.machine } };
}

/// A walk through the worlds of a space, along the edges of a tree: the place to which it has come, a machine there, and the
/// places that it has still to come to. Contracts see the space, the place and the machine.
#[derive(Drop)]
pub(crate) struct Walk<'s, 'i, const S: usize> {
    space: &'s Space<'i>,
    tree: StepTree,
    most_kept: usize,
    place: usize,
    machine: Machine<'i, S>,
    waiting: Vec<Visit<'i, S>>,
}

impl<'s, 'i, const S: usize> Model for Walk<'s, 'i, S> {
    ghost use Rattle.schedule_verdicts.specs.Walking.{WalkValue, IsAt, AreVisits};

    ghost Value = { WalkValue };

    ghost view = { λ w. record { space = w.space.now; place = w.place; machine = w.machine } };

    ghost invariant = { λ w. (IsAt w.space.now w.place w.machine) × (AreVisits w.space.now w.waiting.items) };
}

impl<'s, 'i, const S: usize> Walk<'s, 'i, S> {
    /// One that has come to the first place.
    pub(crate) fn new(alloc: Global, space: &'s Space<'i>) -> Result<Walk<'s, 'i, S>, LoadFault>
        ensures space { IfOk result (λ w. w.space ≡ space.entry.now) }
        ensures streams { result ≡ Err LoadFault.Streams → S < space.entry.now.image.slim }
    {
        let tree = StepTree::of(alloc, space)?;
        let machine = space.machine::<S>(alloc, 0)?;
        Ok(Walk {
            space,
            tree,
            most_kept: most_kept(space.image(), S),
            place: 0,
            machine,
            waiting: Vec::new(alloc),
        })
    }

    /// The place to which it has come.
    pub(crate) fn place(&self) -> usize
        ensures { result ≡ self.now.place }
    {
        self.place
    }

    /// A machine at that place.
    pub(crate) fn machine(&self) -> &Machine<'i, S>
        ensures is { result.now ≡ self.now.machine }
        ensures at { IsAt self.now.space self.now.place self.now.machine }
    {
        &self.machine
    }

    /// Goes on: its machine along the first edge that leads on, and copies of it wait where the other edges lead. If
    /// none leads on, it comes to a place that waits; false if none does.
    pub(crate) fn go_on(&mut self, alloc: Global) -> Result<bool, LoadFault>
        ensures space { OnOk result (self.new.space ≡ self.old.space) }
        ensures streams { result ≡ Err LoadFault.Streams → S < self.old.space.image.slim }
    {
        let ways = self.ways(alloc)?;
        for number in 1..ways.len() {
            self.wait_along(ways[number])?;
        }
        if ways.is_empty() {
            return self.take_waiting(alloc);
        }
        self.step_along(ways[0]);
        Ok(true)
    }

    /// The edges of its tree that lead on from its place.
    fn ways(&self, alloc: Global) -> Result<Vec<Edge>, AllocError>
        ensures { IfOk result (λ v. AreWays self.now.space self.now.place v.items) }
    {
        let edges = self.space.edges();
        let mut ways = Vec::new(alloc);
        for number in self.tree.first_from(self.place)..edges.len() {
            let edge = edges[number];
            if edge.from as usize != self.place {
                return Ok(ways);
            }
            if self.tree.has(number, edge) {
                ways.push(edge)?;
            }
        }
        Ok(ways)
    }

    /// Keeps the place for later to which an edge leads from its own, with a copy of its machine, where there is room.
    fn wait_along(&mut self, way: Edge) -> Result<(), AllocError>
        requires { IsWay self.old.space self.old.place way }
        ensures { OnOk result (self.new ≡ self.old) }
    {
        let place = way.to as usize;
        if self.waiting.len() >= self.most_kept {
            return self.wait_at(Visit {
                place,
                machine: None,
            });
        }
        let copy = copy_along(&self.machine, way)?;
        self.wait_at(Visit {
            place,
            machine: Some(copy),
        })
    }

    /// Keeps a place for later.
    fn wait_at(&mut self, visit: Visit<'i, S>) -> Result<(), AllocError>
        requires { IsVisit self.old.space visit }
        ensures { OnOk result (self.new ≡ self.old) }
    {
        self.waiting.push(visit)?;
        Ok(())
    }

    /// Comes to the place to which an edge leads from its own.
    fn step_along(&mut self, way: Edge)
        requires { IsWay self.old.space self.old.place way }
        ensures { self.new.space ≡ self.old.space }
    {
        self.machine.step(way.step.p, way.step.s);
        self.place = way.to as usize;
    }

    /// Comes to the last place that waits, with the machine that is kept, or one that its schedule makes; false if none waits.
    fn take_waiting(&mut self, alloc: Global) -> Result<bool, LoadFault>
        ensures space { OnOk result (self.new.space ≡ self.old.space) }
        ensures streams { result ≡ Err LoadFault.Streams → S < self.old.space.image.slim }
    {
        let Some(visit) = self.waiting.pop() else {
            return Ok(false);
        };
        let Visit { place, machine } = visit;
        self.machine = match machine {
            Some(machine) => machine,
            None => self.space.machine::<S>(alloc, place)?,
        };
        self.place = place;
        Ok(true)
    }
}

/// A copy of a machine, after the step of an edge.
fn copy_along<'i, const S: usize>(
    machine: &Machine<'i, S>,
    way: Edge,
) -> Result<Machine<'i, S>, AllocError>
    ensures { IfOk result (λ m. m ≡ machine_next machine.now way.step) }
{
    let mut copy = machine.try_clone()?;
    copy.step(way.step.p, way.step.s);
    Ok(copy)
}

/// How many machines of an image, with room for so many streams a processor, a walk keeps for later at most.
fn most_kept(image: &Image, room: usize) -> usize {
    let streams = image.processors().saturating_mul(room);
    let words = image.cells().len().saturating_mul(BYTES_OF_WORD);
    let bytes = streams
        .saturating_mul(BYTES_OF_STREAM)
        .saturating_add(words);
    MOST_BYTES / bytes.max(1)
}
