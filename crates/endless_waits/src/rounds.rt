//! How a round goes in which a stream waits.

use image_file::Image;
use image_machines::{by_room, loaded};
use machine::Machine;
use processor::Step;
use run_answers::starving::Starving;
use std::alloc::{AllocError, Global};
use stream_core::Outcome;
use waiting::{Wait, wait_of};

/// How a round goes in which a stream waits.
#[derive(Drop)]
pub struct SeenRound {
    /// The program address at which the stream stands.
    pub place: u32,
    /// What it waits for, at the beginning of the round and at each of its steps; None if that is not always the same.
    pub wait: Option<Wait>,
    /// The streams that take steps in the round, in the order of their first ones.
    pub streams: Vec<StreamSteps>,
}

/// The steps of a stream in a round.
#[derive(Clone, Copy, Debug)]
pub struct StreamSteps {
    /// The stream.
    pub stream: Step,
    /// How many of its steps complete: they are not Blocked.
    pub completed: usize,
}

/// How the round of a stream of an image goes that is shown to wait.
pub fn seen_round(
    alloc: Global,
    image: &Image,
    starving: &Starving,
) -> Result<SeenRound, AllocError> {
    by_room!(image, seen_on(alloc, image, starving))
}

/// The same on a machine with room for `S` streams a processor.
fn seen_on<const S: usize>(
    alloc: Global,
    image: &Image,
    starving: &Starving,
) -> Result<SeenRound, AllocError> {
    let mut machine = loaded::<S>(alloc, image)?;
    machine.run(&starving.stem);
    let who = starving.stream;
    let mut seen = SeenRound {
        place: place_of(&machine, who),
        wait: wait_of(&machine, who.p, who.s),
        streams: Vec::new(alloc),
    };
    for step in &starving.round {
        if *step == who && wait_of(&machine, who.p, who.s) != seen.wait {
            seen.wait = None;
        }
        let outcome = machine.step(step.p, step.s);
        seen.note_step(*step, outcome)?;
    }
    Ok(seen)
}

/// The program address at which a stream stands.
fn place_of<const S: usize>(machine: &Machine<'_, S>, who: Step) -> u32 {
    match machine.stream(who.p, who.s) {
        Some(stream) => stream.ssw().pc,
        None => 0,
    }
}

impl SeenRound {
    /// Notes a step that came out so.
    fn note_step(&mut self, step: Step, outcome: Outcome) -> Result<(), AllocError> {
        let completed = if outcome == Outcome::Blocked { 0 } else { 1 };
        for known in self.streams.iter_mut() {
            if known.stream == step {
                known.completed = known.completed.saturating_add(completed);
                return Ok(());
            }
        }
        self.streams.push(StreamSteps {
            stream: step,
            completed,
        })?;
        Ok(())
    }
}
