//! The waits of a run: from a stream's first try that was in vain to the step that was not.

use image_file::Image;
use machine::Machine;
use processor::Step;
use std::alloc::{AllocError, Global};
use step_views::StepView;
use stream_core::Outcome;
use waiting::{Wait, wait_of};

/// A wait of a stream in a run. Steps count from 1.
#[derive(Clone, Copy, Debug)]
pub struct RunWait {
    /// The stream.
    pub stream: Step,
    /// The word that it waits for, and the state that is wanted of it.
    pub wait: Wait,
    /// The first try.
    pub from: usize,
    /// How many tries were in vain.
    pub tries: usize,
    /// The last step before the first try that left the word in the other state; 0 where none did.
    pub made: usize,
    /// The step of the stream that was no longer in vain; None where the wait never ends.
    pub to: Option<usize>,
    /// The step that filled or emptied the word for it; 0 where none did, as where a trap ended the wait.
    pub met: usize,
}

/// The waits of the run of these steps, in the order of their first tries. The machine, which is at the run's start, takes
/// its steps.
pub fn run_waits<const S: usize>(
    alloc: Global,
    machine: &mut Machine<'_, S>,
    views: &[StepView],
) -> Result<Vec<RunWait>, AllocError> {
    let mut waits = WaitsSoFar::new(alloc, machine.image())?;
    for (index, view) in views.iter().enumerate() {
        let step = view.step;
        machine.step(step.p, step.s);
        let wait = match view.outcome {
            Outcome::Blocked => wait_of(machine, step.p, step.s),
            _ => None,
        };
        waits.note_step(index.saturating_add(1), view, wait)?;
    }
    Ok(waits.found)
}

/// The waits of the steps so far.
#[derive(Drop)]
struct WaitsSoFar {
    /// All of them.
    found: Vec<RunWait>,
    /// By stream the place of the wait in which it is.
    open: Vec<Option<usize>>,
    /// By word the last step that filled or emptied it; 0 where none did.
    turned: Vec<usize>,
    /// How many streams a processor has.
    slim: usize,
}

impl WaitsSoFar {
    /// Those of no step.
    fn new(alloc: Global, image: &Image) -> Result<WaitsSoFar, AllocError> {
        let slim = usize::from(image.slim());
        let streams = image.processors().saturating_mul(slim);
        Ok(WaitsSoFar {
            found: Vec::new(alloc),
            open: vec![in alloc; None; streams]?,
            turned: vec![in alloc; 0; image.cells().len()]?,
            slim,
        })
    }

    /// Notes the next step, which is in vain where it waits.
    fn note_step(
        &mut self,
        number: usize,
        view: &StepView,
        wait: Option<Wait>,
    ) -> Result<(), AllocError> {
        if view.outcome != Outcome::Skipped {
            let place = self.place_of(view.step);
            let is_same = self.note_try(place, number, view.outcome, wait);
            if let Some(wait) = wait
                && !is_same
            {
                self.begin(place, number, view.step, wait)?;
            }
        }
        self.note_turns(number, view);
        Ok(())
    }

    /// The place of a stream among all.
    fn place_of(&self, stream: Step) -> usize {
        usize::from(stream.p)
            .saturating_mul(self.slim)
            .saturating_add(usize::from(stream.s))
    }

    /// Counts a try of a stream that waits, or ends its wait. Whether it waits as before.
    fn note_try(
        &mut self,
        place: usize,
        number: usize,
        outcome: Outcome,
        wait: Option<Wait>,
    ) -> bool {
        let Some(Some(open)) = self.open.get(place).copied() else {
            return false;
        };
        let Some(found) = self.found.get_mut(open) else {
            return false;
        };
        if wait == Some(found.wait) {
            found.tries = found.tries.saturating_add(1);
            return true;
        }
        let turned = turned_at(&self.turned, found.wait.address);
        found.to = Some(number);
        if outcome == Outcome::Done && turned > found.from {
            found.met = turned;
        }
        set_place(&mut self.open, place, None);
        false
    }

    /// Begins a wait.
    fn begin(
        &mut self,
        place: usize,
        number: usize,
        stream: Step,
        wait: Wait,
    ) -> Result<(), AllocError> {
        set_place(&mut self.open, place, Some(self.found.len()));
        self.found.push(RunWait {
            stream,
            wait,
            from: number,
            tries: 1,
            made: turned_at(&self.turned, wait.address),
            to: None,
            met: 0,
        })?;
        Ok(())
    }

    /// Notes which words a step filled or emptied.
    fn note_turns(&mut self, number: usize, view: &StepView) {
        for change in &view.changes {
            if let Some(address) = change.word_filled_or_emptied() {
                set_place(&mut self.turned, (address / 8) as usize, number);
            }
        }
    }
}

/// By what is noted of each word, the last step that filled or emptied the one at a byte address; 0 where none did.
fn turned_at(turned: &[usize], address: u64) -> usize {
    turned.get((address / 8) as usize).copied().unwrap_or(0)
}

/// Puts a value in a place, where there is one.
fn set_place<T: Copy + Drop>(values: &mut [T], place: usize, value: T) {
    if let Some(at) = values.get_mut(place) {
        *at = value;
    }
}
