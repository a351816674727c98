//! Calls that make memories, processors and machines.
use crate::endings::Ended;
use crate::programs::STEPS;
use image_file::Image;
use machine::{LoadFault, Machine};
use processor::Processor;
use std::alloc::{AllocError, Global};
use tag_memory::{Memory, Word};

/// Whether the memory has just the program's words, and this chain limit.
fn holds(memory: &Memory, chain_limit: u8) -> bool {
    memory.word(0) == Word::from_number(5, 1)
        && memory.word(8) == Word::from_number(6, 1)
        && memory.word(16).is_none()
        && memory.chain_limit() == chain_limit
}

fn memory_ended(made: Result<Memory, AllocError>, chain_limit: u8) -> Ended {
    match made {
        Ok(memory) => Ended::answered(holds(&memory, chain_limit)),
        Err(AllocError) => Ended::Refused,
    }
}

pub(crate) fn of_memory(alloc: Global, image: &Image) -> Ended {
    memory_ended(Memory::new(alloc, image.cells()), 8)
}

pub(crate) fn of_memory_with_chain(alloc: Global, image: &Image) -> Ended {
    memory_ended(Memory::with_chain(alloc, image.cells(), 64), 64)
}

pub(crate) fn of_memory_clone(alloc: Global, image: &Image) -> Ended {
    let Ok(memory) = Memory::new(alloc, image.cells()) else {
        return Ended::NotMade;
    };
    let ended = memory_ended(memory.try_clone(), 8);
    if holds(&memory, 8) {
        ended
    } else {
        Ended::Wrong
    }
}

/// The image's processor 1 before any step; none where there is no memory.
fn processor(alloc: Global, image: &Image) -> Option<Processor<2>> {
    if image.slim() > 2 || image.processors() != 2 {
        return None;
    }
    match Processor::new(alloc, image, 1) {
        Ok(processor) => Some(processor),
        Err(AllocError) => None,
    }
}

/// Whether it has one stream, which runs.
fn is_at_start(processor: &Processor<2>) -> bool {
    (processor.slim(), processor.scur(), processor.sres()) == (2, 1, 1) && processor.any_running()
}

pub(crate) fn of_processor(alloc: Global, image: &Image) -> Ended {
    match processor(alloc, image) {
        Some(processor) => Ended::answered(is_at_start(&processor)),
        None => Ended::Refused,
    }
}

fn processor_clone_ended(processor: &Processor<2>) -> Ended {
    match processor.try_clone() {
        Ok(clone) => Ended::answered(is_at_start(&clone) && is_at_start(processor)),
        Err(AllocError) => Ended::refused(is_at_start(processor)),
    }
}

pub(crate) fn of_processor_clone(alloc: Global, image: &Image) -> Ended {
    match processor(alloc, image) {
        Some(processor) => processor_clone_ended(&processor),
        None => Ended::NotMade,
    }
}

pub(crate) fn of_machine(alloc: Global, image: &Image) -> Ended {
    match Machine::<2>::load(alloc, image) {
        Ok(machine) => Ended::answered(machine.word(8) == Word::from_number(6, 1)),
        Err(fault) => Ended::refused(matches!(fault, LoadFault::NoMemory)),
    }
}

/// Whether the machine is at the program's end.
fn is_at_end(machine: &Machine<2>) -> bool {
    machine.counts(0) == Some((0, 0))
        && machine.word(0) == Word::from_number(8, 1)
        && machine.word(8) == Word::from_number(7, 1)
}

/// The machine at the program's end.
pub(crate) fn ended_machine(alloc: Global, image: &Image) -> Option<Machine<2>> {
    let Ok(mut machine) = Machine::load(alloc, image) else {
        return None;
    };
    machine.run(&STEPS);
    Some(machine)
}

fn machine_clone_ended(machine: &Machine<2>) -> Ended {
    match machine.try_clone() {
        Ok(clone) => Ended::answered(is_at_end(&clone) && is_at_end(machine)),
        Err(AllocError) => Ended::refused(is_at_end(machine)),
    }
}

pub(crate) fn of_machine_clone(alloc: Global, image: &Image) -> Ended {
    match ended_machine(alloc, image) {
        Some(machine) => machine_clone_ended(&machine),
        None => Ended::NotMade,
    }
}
