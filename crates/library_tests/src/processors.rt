//! A processor that steps over a memory, and its clone, which steps by what each step needs.
use crate::sources::{WAITING, image_of};
use image_file::Image;
use processor::{Next, Processor};
use std::alloc::Global;
use stream_core::{Outcome, TrapKind};
use tag_memory::{Memory, Reply};

/// The steps of [`WAITING`], which end with the handler's.
const OUTCOMES: [Outcome; 6] = [
    Outcome::Blocked,
    Outcome::Blocked,
    Outcome::Trapped(TrapKind::Blocked),
    Outcome::Done,
    Outcome::Done,
    Outcome::Skipped,
];

fn processor_of(alloc: Global, image: &Image) -> Option<Processor<1>> {
    if image.slim() != 1 || image.processors() != 1 {
        return None;
    }
    Processor::new(alloc, image, 0).ok()
}

fn clone_of(processor: &Processor<1>) -> Option<Processor<1>> {
    processor.try_clone().ok()
}

/// A step of stream 0 over a memory.
fn step(image: &Image, processor: &mut Processor<1>, memory: &mut Memory) -> Outcome {
    if image.slim() != processor.slim() {
        return Outcome::Skipped;
    }
    processor.step(image, 0, memory)
}

/// A step of stream 0 by what it needs; a request is blocked.
fn step_by_need(image: &Image, processor: &mut Processor<1>) -> Outcome {
    if image.slim() != processor.slim() {
        return Outcome::Skipped;
    }
    match processor.next(image, 0) {
        Next::Skip => Outcome::Skipped,
        Next::Local => processor.step_local(image, 0),
        Next::Ask(request) => processor.step_reply(image, 0, &request, Reply::Blocked(8)),
    }
}

fn are_same(one: &Processor<1>, other: &Processor<1>) -> bool {
    (one.scur(), one.sres()) == (other.scur(), other.sres())
        && one.stream(0).copied() == other.stream(0).copied()
}

fn do_processors_go(
    image: &Image,
    memory: &mut Memory,
    processor: &mut Processor<1>,
    clone: &mut Processor<1>,
) -> bool {
    for outcome in OUTCOMES {
        let is_stepped = are_same(processor, clone)
            && step(image, processor, memory) == outcome
            && (outcome == Outcome::Skipped || !are_same(processor, clone))
            && step_by_need(image, clone) == outcome;
        if !is_stepped {
            return false;
        }
    }
    are_same(processor, clone)
}

fn does_a_processor_go(alloc: Global, image: &Image) -> Option<bool> {
    let mut memory = Memory::new(alloc, image.cells()).ok()?;
    let mut processor = processor_of(alloc, image)?;
    let mut clone = clone_of(&processor)?;
    Some(do_processors_go(image, &mut memory, &mut processor, &mut clone))
}

#[test]
fn a_clone_steps_by_what_each_step_needs(rt: HostRuntime) {
    let image = image_of(rt.alloc(), WAITING);
    let goes = match &image {
        Some(image) => does_a_processor_go(rt.alloc(), image),
        None => None,
    };
    assert!(rt; goes == Some(true));
}
