//! Steps that a schedule leaves open: `p s *`, a stream that steps until it can't go on (docs/LAB_REFERENCE.md,
//! "Schedules").

use image_file::Image;
use image_machines::{by_room, loaded};
use machine::Machine;
use processor::{MAX_STEPS, Step};
use std::alloc::{AllocError, Global};
use stream_core::{Outcome, Status};
use trace_text::{ScheduleFault, ScheduleFaultKind};

/// The most steps that one star stands for.
pub(crate) const MOST_STEPS_OF_STAR: usize = 10_000;

/// What a line of a schedule says.
#[derive(Clone, Copy)]
pub(crate) struct SaidSteps {
    /// Whose steps.
    pub stream: Step,
    /// How many of them; None for a star.
    pub times: Option<usize>,
}

/// Why a star stands for no more steps.
#[derive(Clone, Copy, PartialEq, Eq)]
pub(crate) enum StarEnd {
    /// The last of them was blocked.
    Blocked,
    /// The stream is idle: it has quit, or has not been started.
    Idle,
    /// A trap stopped it.
    Stopped,
    /// There are as many as a star may stand for.
    Most,
}

/// What a star stands for.
#[derive(Clone, Copy)]
pub(crate) struct Star {
    /// Which line of the schedule it is, from 0.
    pub line: usize,
    /// Whose steps.
    pub stream: Step,
    /// How many.
    pub steps: usize,
    /// Why no more.
    pub end: StarEnd,
}

/// The steps of a schedule with stars, and what each star stands for.
#[derive(Drop)]
pub(crate) struct Expanded {
    /// The steps.
    pub steps: Vec<Step>,
    /// The stars, in their order.
    pub stars: Vec<Star>,
    /// The first line, from 0, that takes the schedule past the most steps that one has; it and those after it add
    /// nothing.
    pub past: Option<usize>,
}

impl Expanded {
    /// The steps, or the fault that there are too many. Lines count from 1 there.
    pub(crate) fn into_steps(self) -> Result<Vec<Step>, ScheduleFault> {
        match self.past {
            None => Ok(self.steps),
            Some(line) => Err(ScheduleFault {
                line: line.saturating_add(1),
                kind: ScheduleFaultKind::Limit,
            }),
        }
    }
}

/// The steps that lines say, where an image's program runs by them.
pub(crate) fn expand(
    alloc: Global,
    image: &Image,
    lines: &[SaidSteps],
) -> Result<Expanded, AllocError> {
    by_room!(image, expand_on(alloc, image, lines))
}

/// The same on a machine with room for `S` streams a processor.
fn expand_on<const S: usize>(
    alloc: Global,
    image: &Image,
    lines: &[SaidSteps],
) -> Result<Expanded, AllocError> {
    let mut machine = loaded::<S>(alloc, image)?;
    let mut all = Expanded {
        steps: Vec::new(alloc),
        stars: Vec::new(alloc),
        past: None,
    };
    for (line, said) in lines.iter().enumerate() {
        let taken = match said.times {
            Some(times) => take_times(&mut machine, said.stream, times.min(MAX_STEPS)),
            None => {
                let (steps, end) = take_star(&mut machine, said.stream);
                all.stars.push(Star {
                    line,
                    stream: said.stream,
                    steps,
                    end,
                })?;
                steps
            }
        };
        if taken > MAX_STEPS.saturating_sub(all.steps.len()) {
            all.past = Some(line);
            return Ok(all);
        }
        for _ in 0..taken {
            all.steps.push(said.stream)?;
        }
    }
    Ok(all)
}

/// Takes a stream's step so often.
fn take_times<const S: usize>(machine: &mut Machine<'_, S>, stream: Step, times: usize) -> usize {
    for _ in 0..times {
        machine.step(stream.p, stream.s);
    }
    times
}

/// Takes a stream's steps until one is blocked, or the stream does not run: how many, and why no more.
fn take_star<const S: usize>(machine: &mut Machine<'_, S>, stream: Step) -> (usize, StarEnd) {
    for taken in 0..MOST_STEPS_OF_STAR {
        match machine.step(stream.p, stream.s) {
            Outcome::Skipped => return (taken, rest_of(machine, stream)),
            Outcome::Blocked => return (taken + 1, StarEnd::Blocked),
            Outcome::Done | Outcome::Trapped(_) | Outcome::Stopped(_) => {}
        }
    }
    (MOST_STEPS_OF_STAR, StarEnd::Most)
}

/// Why a stream does not run.
fn rest_of<const S: usize>(machine: &Machine<'_, S>, stream: Step) -> StarEnd {
    match machine.stream(stream.p, stream.s) {
        Some(found) => match found.status() {
            Status::Stopped(_) => StarEnd::Stopped,
            Status::Idle | Status::Running => StarEnd::Idle,
        },
        None => StarEnd::Idle,
    }
}
