//! The places of breakpoints, to be looked up before each step.

ghost use Rattle.std.specs.Prelude.{◌≡◌, ◌==◌, ◌&&◌, ◌||◌, ℕ, [], IfOk, OnOk};
ghost use Rattle.replay_debugger.specs.StopFinders.{AreBreakpoints, has_place, breaks_at};
ghost use Rattle.replay_debugger.specs.Stops.{is_met};

use crate::points::{Point, Points};
use machine::Machine;
use processor::Step;
use std::alloc::{AllocError, Global};
use std::collections::BTreeSet;
use std::marker::Model;
use stream_core::Status;

/// The processors and pcs of breakpoints. Contracts see the list of them.
#[derive(Drop)]
pub(crate) struct Breakpoints {
    places: BTreeSet<(u8, u32)>,
}

impl Model for Breakpoints {
    ghost use Rattle.std.specs.Prelude.{ℕ, List};

    ghost Value = { List (ℕ × ℕ) };

    ghost view = { λ b. b.places.keys };
}

impl Breakpoints {
    /// The breakpoints among points.
    pub(crate) fn of(alloc: Global, points: &Points) -> Result<Breakpoints, AllocError>
        ensures { IfOk result (λ b. AreBreakpoints points.now b) }
    {
        let mut breakpoints = Breakpoints {
            places: BTreeSet::new(alloc),
        };
        for (_key, point) in points.slots.iter() {
            breakpoints.add(*point)?;
        }
        Ok(breakpoints)
    }

    /// Adds the place of a point, if it is a breakpoint.
    fn add(&mut self, point: Point) -> Result<(), AllocError>
        ensures { OnOk result ((p pc : ℕ)
            → has_place self.new p pc ≡ (breaks_at p pc point || has_place self.old p pc)) }
    {
        if let Point::Break(p, pc) = point {
            self.places.insert((p, pc))?;
        }
        Ok(())
    }

    /// Whether a breakpoint stands at this pc for the streams of this processor.
    fn has(&self, p: u8, pc: u32) -> bool
        ensures { result ≡ has_place self.now p pc }
    {
        self.places.contains(&(p, pc))
    }

    /// Whether the step that follows is of a running stream at a breakpoint.
    #[inline(always)]
    pub(crate) fn are_met<const S: usize>(&self, machine: &Machine<S>, next: Option<Step>) -> bool
        ensures { result ≡ is_met (has_place self.now) machine.now.world next }
    {
        if self.places.is_empty() {
            return false;
        }
        let Some(step) = next else {
            return false;
        };
        // the clauses of `image` say that no stream is past the machine's room
        let _ = machine.image();
        let Some(stream) = machine.stream(step.p, step.s) else {
            return false;
        };
        stream.status() == Status::Running && self.has(step.p, stream.ssw().pc)
    }
}
