//! The findings of a run, and the steps that their texts name.

use run_findings::{Action, Deed, Findings, LostUpdate, TornRead, UnreadStore, torn_reads};
use std::alloc::{AllocError, Global};

/// So many findings of each kind are shown, and then how many more there are.
pub(crate) const MOST_OF_A_KIND: usize = 10;

/// The most steps of a run whose torn reads are looked for, without those that were skipped or blocked: how long that
/// takes may grow faster than the run.
pub const MOST_STEPS_OF_TORN: usize = 20_000;

/// The findings of a run (docs/LAB_REFERENCE.md, "Findings").
#[derive(Drop)]
pub struct FindingsOfRun {
    /// Its lost updates.
    pub lost: Vec<LostUpdate>,
    /// Its torn reads; none where they are not looked for.
    pub torn: Vec<TornRead>,
    /// Whether torn reads are looked for: the run has at most 20,000 steps that were not skipped or blocked.
    pub is_torn_sought: bool,
    /// Its unread stores.
    pub unread: Vec<UnreadStore>,
}

impl FindingsOfRun {
    /// The findings of a run with these steps.
    pub fn of(alloc: Global, actions: &[Action]) -> Result<FindingsOfRun, AllocError> {
        let found = Findings::of(alloc, actions, MOST_STEPS_OF_TORN)?;
        if actions.len() <= MOST_STEPS_OF_TORN {
            return Ok(FindingsOfRun {
                lost: found.lost,
                torn: found.torn,
                is_torn_sought: true,
                unread: found.unread,
            });
        }
        let counted = counted_steps(alloc, actions)?;
        let is_torn_sought = counted.len() <= MOST_STEPS_OF_TORN;
        let torn = if is_torn_sought {
            torn_reads_among(alloc, actions, &counted)?
        } else {
            Vec::new(alloc)
        };
        Ok(FindingsOfRun {
            lost: found.lost,
            torn,
            is_torn_sought,
            unread: found.unread,
        })
    }

    /// How many there are.
    pub fn count(&self) -> usize {
        self.lost
            .len()
            .saturating_add(self.torn.len())
            .saturating_add(self.unread.len())
    }
}

impl FindingsOfRun {
    /// The numbers of the steps, from 1, that [`push_findings`](crate::push_findings) names.
    pub fn numbers_named(&self, alloc: Global) -> Result<Vec<usize>, AllocError> {
        let mut steps = StepNumbers::new(alloc);
        for update in self.lost.iter().take(MOST_OF_A_KIND) {
            steps.add(update.read);
            steps.add(update.over);
            steps.add(update.stored);
        }
        for read in self.torn.iter().take(MOST_OF_A_KIND) {
            steps.add_torn(read);
        }
        for store in self.unread.iter().take(MOST_OF_A_KIND) {
            steps.add(store.over);
            steps.add(store.stored);
        }
        steps.whole()
    }
}

/// Numbers of steps, from 1. Where memory is refused for one, it is missing, and [`StepNumbers::whole`] says so.
#[derive(Drop)]
struct StepNumbers {
    numbers: Vec<usize>,
    lacks_numbers: bool,
}

impl StepNumbers {
    /// None.
    fn new(alloc: Global) -> StepNumbers {
        StepNumbers {
            numbers: Vec::new(alloc),
            lacks_numbers: false,
        }
    }

    /// Adds the number of a step, which counts from 0.
    fn add(&mut self, step: usize) {
        if self.numbers.push(step.saturating_add(1)).is_err() {
            self.lacks_numbers = true;
        }
    }

    /// Adds those of a torn read.
    fn add_torn(&mut self, read: &TornRead) {
        self.add(read.stale_read);
        self.add(read.fresh_read);
        self.add(read.stale_write);
        self.add(read.fresh_write);
    }

    /// All of them, unless memory was refused for one.
    fn whole(self) -> Result<Vec<usize>, AllocError> {
        let StepNumbers {
            numbers,
            lacks_numbers,
        } = self;
        if lacks_numbers {
            Err(AllocError)
        } else {
            Ok(numbers)
        }
    }
}

/// The steps, from 0, that did something to their stream or to a word: those that were not skipped or blocked.
fn counted_steps(alloc: Global, actions: &[Action]) -> Result<Vec<usize>, AllocError> {
    let mut counted = Vec::new(alloc);
    for (step, action) in actions.iter().enumerate() {
        if did_something(action) {
            counted.push(step)?;
        }
    }
    Ok(counted)
}

/// Whether a step did something to its stream or to a word.
fn did_something(action: &Action) -> bool {
    match action.deed {
        Deed::Nothing => action.access.is_some(),
        Deed::Trap | Deed::Instruction(_) => true,
    }
}

/// The torn reads of a run in which these steps did something: a step that did nothing has no part in one.
fn torn_reads_among(
    alloc: Global,
    actions: &[Action],
    counted: &[usize],
) -> Result<Vec<TornRead>, AllocError> {
    let mut kept = Vec::with_capacity(alloc, counted.len())?;
    for step in counted {
        if let Some(action) = actions.get(*step) {
            kept.push(*action)?;
        }
    }
    let mut torn = torn_reads(alloc, &kept)?;
    for read in torn.iter_mut() {
        read.stale_read = place_in_run(counted, read.stale_read);
        read.fresh_read = place_in_run(counted, read.fresh_read);
        read.stale_write = place_in_run(counted, read.stale_write);
        read.fresh_write = place_in_run(counted, read.fresh_write);
    }
    Ok(torn)
}

/// The step at a place of those that count.
fn place_in_run(counted: &[usize], place: usize) -> usize {
    counted.get(place).copied().unwrap_or(place)
}
