//! The points of a session, each under a key.

ghost use Rattle.std.specs.Prelude.{◌≡◌, ℕ, false, List, [], is_some, IfOk, OnErr};
ghost use Rattle.std.specs.Bool.{OnTrue, OnFalse};
ghost use Rattle.image_file.specs.ImageValue.{ImageValue};
ghost use Rattle.processor.specs.declared.steps.Step.{Step};
ghost use Rattle.replay_debugger.specs.Stops.{is_stop};
ghost use Rattle.replay_debugger.specs.Points.{point_at, AddsPoint, TakesPoint};

use slab::Slab;
use std::alloc::{AllocError, Global};
use std::marker::Model;

/// What makes a position a stop.
#[derive(Clone, Copy, Debug, PartialEq, Eq)]
pub enum Point {
    /// The step that follows is of a running stream of this processor at this pc.
    Break(u8, u32),
    /// The step before changed the value or the tags of the word at this byte address.
    Watch(u64),
    /// The step before changed the tags of the word at this byte address.
    WatchTags(u64),
}

/// The points of a session. Contracts see what stands under each key from 0 on.
#[derive(Drop)]
pub(crate) struct Points {
    pub(crate) slots: Slab<Point>,
}

impl Model for Points {
    ghost use Rattle.std.specs.Prelude.{List, Option};
    ghost use Rattle.replay_debugger.specs.declared.points.Point.{Point};

    ghost Value = { List (Option Point) };

    ghost view = { λ p. p.slots.slots };
}

impl Points {
    /// No points.
    pub(crate) fn new(alloc: Global) -> Points
        ensures { result ≡ [] }
    {
        Points {
            slots: Slab::new(alloc),
        }
    }

    /// Adds a point, under a key that none has.
    pub(crate) fn add(&mut self, point: Point) -> Result<u64, AllocError>
        ensures adds { IfOk result (λ key. AddsPoint self.old self.new key point) }
        ensures kept { OnErr result (self.new ≡ self.old) }
    {
        let key = self.slots.insert(point)?;
        Ok(key as u64)
    }

    /// Takes the point of a key away, if there is one.
    pub(crate) fn take(&mut self, key: u64) -> bool
        ensures there { result ≡ is_some (point_at self.old key) }
        ensures takes { OnTrue result (TakesPoint self.old self.new key) }
        ensures kept { OnFalse result (self.new ≡ self.old) }
    {
        self.slots.try_remove(key as usize).is_some()
    }

    /// Whether there is no point: then no position is a stop.
    #[tactic(auto, using(crate::proofs::NoPoints::no_stop))]
    pub(crate) fn is_empty(&self) -> bool
        ensures { OnTrue result ((image : ImageValue) (schedule : List Step) (k : ℕ)
            → is_stop image schedule self.now k ≡ false) }
    {
        self.slots.is_empty()
    }
}
