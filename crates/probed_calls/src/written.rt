//! Calls that read and write images, sources and schedules.
use crate::endings::Ended;
use crate::programs::{SCHEDULE, SOURCE, STEPS};
use asm_text::{AsmFault, Fault, assemble, listing, reassemble};
use image_file::{Image, ImageFault, read_image, write_image};
use processor::Step;
use std::alloc::{AllocError, Global};
use tag_memory::Word;
use trace_text::{ScheduleFaultKind, read_schedule, round_schedule, write_schedule};

/// How many bytes the image has: a header of 26, two entries of 4, six words of 8 and two words of 9.
const IMAGE_BYTES: usize = 100;

/// Three rounds of two processors.
const ROUNDS: [Step; 6] = [
    Step { p: 0, s: 0 },
    Step { p: 1, s: 0 },
    Step { p: 0, s: 0 },
    Step { p: 1, s: 0 },
    Step { p: 0, s: 0 },
    Step { p: 1, s: 0 },
];

/// How a call ended that found no image.
fn asm_refused(fault: AsmFault) -> Ended {
    Ended::refused(matches!(fault.kind, Fault::NoMemory) && fault.line == 0)
}

pub(crate) fn of_assemble(alloc: Global) -> Ended {
    match assemble(alloc, SOURCE.as_bytes()) {
        Ok(image) => Ended::answered(has_the_numbers(&image) && has_the_words(&image)),
        Err(fault) => asm_refused(fault),
    }
}

/// Whether the image has the program's numbers and entries.
fn has_the_numbers(image: &Image) -> bool {
    (image.slim(), image.retry_limit(), image.trap_entry()) == (2, 0, u32::MAX)
        && (image.entry(0), image.entry(1), image.entry(2)) == (Some(0), Some(3), None)
}

/// Whether it has as many program words, and its data words.
fn has_the_words(image: &Image) -> bool {
    (image.program().len(), image.cells().len()) == (6, 2)
        && image.cells().first().copied() == Word::from_number(5, 1)
        && image.cells().get(1).copied() == Word::from_number(6, 1)
}

/// How a text ends that has to be assembled to the image.
fn text_ended(alloc: Global, text: &str, image: &Image) -> Ended {
    match assemble(alloc, text.as_bytes()) {
        Ok(again) => Ended::answered(again == *image),
        Err(_) => Ended::NotMade,
    }
}

pub(crate) fn of_listing(alloc: Global, image: &Image) -> Ended {
    match listing(alloc, image) {
        Ok(text) => text_ended(alloc, text.as_str(), image),
        Err(AllocError) => Ended::Refused,
    }
}

pub(crate) fn of_reassemble(alloc: Global, image: &Image) -> Ended {
    match reassemble(alloc, image) {
        Ok(again) => Ended::answered(again == *image),
        Err(fault) => asm_refused(fault),
    }
}

pub(crate) fn of_write_image(alloc: Global, image: &Image) -> Ended {
    match write_image(alloc, image) {
        Ok(bytes) => Ended::answered(bytes.len() == IMAGE_BYTES && bytes.starts_with(b"MTAP")),
        Err(AllocError) => Ended::Refused,
    }
}

fn read_ended(alloc: Global, bytes: &[u8], image: &Image) -> Ended {
    match read_image(alloc, bytes) {
        Ok(again) => Ended::answered(again == *image),
        Err(fault) => Ended::refused(matches!(fault, ImageFault::NoMemory)),
    }
}

pub(crate) fn of_read_image(alloc: Global, image: &Image) -> Ended {
    match write_image(alloc, image) {
        Ok(bytes) => read_ended(alloc, &bytes, image),
        Err(AllocError) => Ended::NotMade,
    }
}

pub(crate) fn of_read_schedule(alloc: Global) -> Ended {
    match read_schedule(alloc, SCHEDULE.as_bytes()) {
        Ok(steps) => Ended::answered(steps.as_slice() == STEPS.as_slice()),
        Err(fault) => Ended::refused(
            matches!(fault.kind, ScheduleFaultKind::NoMemory) && fault.line == 0,
        ),
    }
}

pub(crate) fn of_write_schedule(alloc: Global) -> Ended {
    match write_schedule(alloc, &STEPS) {
        Ok(text) => Ended::answered(text.as_str() == SCHEDULE),
        Err(AllocError) => Ended::Refused,
    }
}

pub(crate) fn of_round_schedule(alloc: Global) -> Ended {
    match round_schedule(alloc, 2, 1, 3) {
        Ok(steps) => Ended::answered(steps.as_slice() == ROUNDS.as_slice()),
        Err(AllocError) => Ended::Refused,
    }
}
