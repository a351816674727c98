//! Steps of a loop on a machine.
use crate::timed::loops::{PROCESSORS, STEPS, sixteen_with};
use image_file::Image;
use machine::Machine;
use processor::Step;
use std::alloc::Global;

/// The steps of a round: stream 0 of each processor in turn.
pub(crate) fn turns(alloc: Global) -> Option<Vec<Step>> {
    let Ok(mut steps) = Vec::with_capacity(alloc, STEPS) else {
        return None;
    };
    for step in 0..STEPS {
        let p = (step % PROCESSORS) as u8;
        if steps.push(Step { p, s: 0 }).is_err() {
            return None;
        }
    }
    Some(steps)
}

fn run(alloc: Global, image: &Image, steps: &[Step], rounds: u32) -> Option<usize> {
    let Ok(mut machine) = Machine::<8>::load(alloc, image) else {
        return None;
    };
    for _ in 0..rounds {
        machine.run(steps);
    }
    Some(steps.len())
}

/// Runs the loop for so many rounds, and gives the number of steps of each.
pub(crate) fn machine_rounds(alloc: Global, program: &[u64], rounds: u32) -> Option<usize> {
    match (sixteen_with(alloc, program), turns(alloc)) {
        (Some(image), Some(steps)) => run(alloc, &image, &steps, rounds),
        _ => None,
    }
}
