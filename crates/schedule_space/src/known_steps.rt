//! What steps leave, so that each is taken on a machine once.

ghost use Rattle.std.specs.Prelude.{◌≡◌, ◌⊎◌, ℕ, List, IfSome, IsSome, IfOk};
ghost use Rattle.schedule_space.specs.KnownSteps.{no_steps, IsSeen};
ghost use Rattle.schedule_space.specs.declared.known_steps.Places.{Places};

use std::alloc::{AllocError, Global};
use std::marker::Model;
use std::mem::size_of;
use world_keys::Table;

/// How many steps are kept of a kind, in some 12 megabytes: a program whose processors have one stream each needs far
/// fewer.
const MOST_STEPS: usize = 1 << 17;

/// Where a table has what a processor or a stream holds, and what the memory holds.
#[derive(Clone, Copy, Debug, PartialEq, Eq)]
pub(crate) struct Places {
    pub(crate) content: u32,
    pub(crate) memory: u32,
}

/// Steps that were taken, each named by numbers, with the places of what it left.
#[derive(Drop)]
pub(crate) struct KnownSteps {
    asked: Table,
    left: Vec<Places>,
}

impl Model for KnownSteps {
    ghost use Rattle.std.specs.Prelude.{◌≡◌, length};
    ghost use Rattle.schedule_space.specs.KnownSteps.{StepList};

    ghost Value = { StepList };

    ghost view = { λ k. record { asked = k.asked; left = k.left.items } };

    ghost invariant = { λ k. length k.left.items ≡ length k.asked };
}

impl KnownSteps {
    /// No step.
    pub(crate) fn new(alloc: Global) -> KnownSteps
        ensures { result ≡ no_steps }
    {
        KnownSteps {
            asked: Table::new(alloc),
            left: Vec::new(alloc),
        }
    }

    /// What a step left; None where it was not taken yet.
    pub(crate) fn find(&self, asked: &[u32]) -> Option<Places>
        ensures { IfSome result (λ l. IsSeen self.now asked.now l) }
    {
        let place = self.asked.find(asked)?;
        Some(self.left[place])
    }

    /// Keeps what a step left, where there is room and it is not kept yet.
    pub(crate) fn keep(&mut self, asked: &[u32], left: Places) -> Result<(), AllocError>
        ensures { (a : List ℕ) (l : Places) → IsSeen self.new a l → IsSeen self.old a l ⊎ ((a ≡ asked.now) × (l ≡ left)) }
    {
        if self.left.len() >= MOST_STEPS || self.asked.find(asked).is_some() {
            return Ok(());
        }
        self.left.reserve(1)?;
        self.asked.push(asked)?;
        self.left.push_reserved(left);
        Ok(())
    }

    /// How many bytes they take.
    fn bytes(&self) -> usize {
        let left = self.left.capacity().saturating_mul(size_of::<Places>());
        left.saturating_add(self.asked.bytes())
    }
}

/// What steps left that a search has seen, in two tables.
#[derive(Drop)]
pub(crate) struct StepsSeen {
    /// By the place of what their processor holds, the number of their stream, and the place of what the memory holds.
    pub(crate) by_processor: KnownSteps,
    /// By the places of what their stream and the memory hold: those whose instruction neither reserves nor starts nor
    /// ends a stream, so that the rest of their processor stays as it is.
    pub(crate) by_stream: KnownSteps,
}

impl StepsSeen {
    /// No step.
    pub(crate) fn new(alloc: Global) -> StepsSeen
        ensures { result ≡ record { by_processor = no_steps; by_stream = no_steps } }
    {
        StepsSeen {
            by_processor: KnownSteps::new(alloc),
            by_stream: KnownSteps::new(alloc),
        }
    }

    /// How many bytes they take.
    pub(crate) fn bytes(&self) -> usize {
        self.by_processor
            .bytes()
            .saturating_add(self.by_stream.bytes())
    }
}

/// What a search has seen: what streams, processors and the memory held, and what steps left.
#[derive(Drop)]
pub(crate) struct SearchKnowledge {
    pub(crate) alloc: Global,
    pub(crate) contents: Table,
    pub(crate) steps: StepsSeen,
}

impl SearchKnowledge {
    /// How many bytes it takes.
    pub(crate) fn bytes(&self) -> usize {
        self.contents.bytes().saturating_add(self.steps.bytes())
    }
}
