//! The call that takes an image along every way there is.
use crate::endings::Ended;
use crate::programs::{END, SCHEDULE, SOURCE};
use crate::texts::has_text;
use asm_text::assemble;
use image_file::Image;
use mta_engines::{OneMachine, one_machine};
use processor::Step;
use std::alloc::{AllocError, Global};
use trace_text::read_schedule;

/// Empties a word in Profile 2, where nothing is forwarded, and waits for it twice.
const PURGE: &str =
    ".profile 2\n.slim 1\n.chain 0\n.entry 0\nLIT r1, 9\nPURGE r1, r0, 0\nLOAD.S r2, r0, 0\n.data 5\n";

/// What it comes to by four steps.
const PURGED: &str = "processor 0 scur 1 sres 1\nstream 0 0\n\
     Running ssw 0000000000000002 xr 0000000000000000 retries 0\nr01 0000000000000009\n\
     t0 00000000FFFFFFFF\ncell 000000000000 0000000000000009 0\n";

pub(crate) fn of_program(alloc: Global) -> Ended {
    of_source(alloc, SOURCE, SCHEDULE, END)
}

pub(crate) fn of_purge(alloc: Global) -> Ended {
    of_source(alloc, PURGE, "0 0 4\n", PURGED)
}

/// How the call ends on a source text and a schedule, which comes to this end.
fn of_source(alloc: Global, source: &str, schedule: &str, end: &str) -> Ended {
    match read_schedule(alloc, schedule.as_bytes()) {
        Ok(steps) => of_steps(alloc, source, steps, end),
        Err(_) => Ended::NotMade,
    }
}

fn of_steps(alloc: Global, source: &str, steps: Vec<Step>, end: &str) -> Ended {
    let Ok(image) = assemble(alloc, source.as_bytes()) else {
        return Ended::NotMade;
    };
    if image.slim() > 2 {
        return Ended::Wrong;
    }
    let length = steps.len() as u64;
    match one_machine::<2>(alloc, source.as_bytes(), &image, steps, length) {
        Ok(one) => all_ended(alloc, &one, &image, length, end),
        Err(AllocError) => Ended::Refused,
    }
}

/// Whether the tools came to the image, and the session to its end.
fn are_same(one: &OneMachine<2>, image: &Image, length: u64) -> bool {
    matches!(&one.assembled, Ok(assembled) if *assembled == *image)
        && one.read == *image
        && one.listed == *image
        && one.session.position() == length
}

/// How they end where the machine, and what the debugger shows, have to come to this end.
fn all_ended(alloc: Global, one: &OneMachine<2>, image: &Image, length: u64, end: &str) -> Ended {
    if !are_same(one, image, length) {
        return Ended::Wrong;
    }
    let texts = (
        has_text(alloc, &one.after, end),
        has_text(alloc, &one.shown, end),
    );
    match texts {
        (Some(after), Some(shown)) => Ended::answered(after && shown),
        _ => Ended::NotMade,
    }
}
