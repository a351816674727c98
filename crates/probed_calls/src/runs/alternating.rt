//! A producer and a consumer over one full/empty word, run at once under a gate that lets their requests alternate.
use crate::endings::Ended;
use crate::runs::gate::AlternateGate;
use crate::runs::sessions::commands_of;
use asm_text::assemble;
use debug_commands::Command;
use image_file::Image;
use machine::Machine;
use memory_lock::{ThreadsFault, run_threads, threaded};
use shared_history::{GatherFault, Parts, PartsFault, Woven, gather};
use std::alloc::Global;
use std::sync::Wait;
use std::thread::Threads;
use std::time::Clock;
use tag_memory::Word;

/// Processor 0 puts 1 to 10 into word 0, one after the other; processor 1 takes them, adds them up, and stores the sum
/// in word 1.
const PUT_AND_TAKE: &str = ".slim 1\n.entry 0\n.entry c\nLIT r1, 1\n\
    STORE.S r1, r0, 0 | ADD r1, r1, 1\nSUB.T r0, r1, 11\nSKIP NE, 0, -3\nQUIT\n\
    c: LIT r3, 10\nLOAD.S r4, r0, 0 | SUB.T r3, r3, 1\nADD r5, r5, r4\nSKIP NE, 0, -3\n\
    STORE.N r5, r0, 1\nQUIT\n.data 0, 0\n.data 0\n";

/// The most steps that a processor takes: where no request is blocked they take 32 and 33.
const FUEL: usize = 100;

/// What the debugger shows at the end of the 65 steps.
const AT_THE_END: [(Command, &str); 2] = [
    (Command::Go(65), "at 65 moved\n"),
    (
        Command::Show(0, 2),
        "000000000000 000000000000000A 0\n000000000008 0000000000000037 1\n",
    ),
];

fn image_of_two(alloc: Global) -> Option<Image> {
    assemble(alloc, PUT_AND_TAKE.as_bytes()).ok()
}

/// Whether no request was blocked: ten puts, ten takes and a store.
fn is_alternating(woven: &Woven<2>) -> bool {
    (woven.schedule().len(), woven.history().len()) == (65, 21)
        && woven.word(0) == Word::from_number(10, 0)
        && woven.word(8) == Word::from_number(55, 1)
}

/// Whether a machine after the schedule has the same words, streams and counts; none where memory for it is refused.
fn is_replayed(alloc: Global, image: &Image, woven: &Woven<2>) -> Option<bool> {
    let Ok(mut machine) = Machine::<2>::load(alloc, image) else {
        return None;
    };
    machine.run(woven.schedule());
    Some(has_words(&machine, woven) && has_streams(&machine, woven))
}

fn has_words(machine: &Machine<2>, woven: &Woven<2>) -> bool {
    machine.word(0) == woven.word(0) && machine.word(8) == woven.word(8)
}

fn has_streams(machine: &Machine<2>, woven: &Woven<2>) -> bool {
    machine.stream(0, 0) == woven.stream(0, 0)
        && machine.stream(1, 0) == woven.stream(1, 0)
        && machine.counts(0) == woven.counts(0)
        && machine.counts(1) == woven.counts(1)
}

/// A run whose gate gave up, since a thread was refused, may have any history; its schedule makes its state all the
/// same.
fn woven_ended(alloc: Global, image: &Image, woven: &Woven<2>, gave_up: bool) -> Ended {
    match is_replayed(alloc, image, woven) {
        Some(is_same) => Ended::answered(is_same && (gave_up || is_alternating(woven))),
        None => Ended::NotMade,
    }
}

/// Whether no step was taken.
fn is_new(parts: &Parts<2>) -> bool {
    parts.shared().entries().is_empty()
        && parts
            .records()
            .iter()
            .all(|record| record.steps().len() == 0)
}

/// A run that is refused memory can be gathered then, or has taken no step.
fn threaded_ended<'i>(
    alloc: Global,
    image: &Image,
    run: Result<Woven<'i, 2>, ThreadsFault<'i, 2>>,
    gave_up: bool,
) -> Ended {
    match run {
        Ok(woven) => woven_ended(alloc, image, &woven, gave_up),
        Err(ThreadsFault::Build(fault)) => Ended::refused(matches!(fault, PartsFault::NoMemory)),
        Err(ThreadsFault::Gather(parts, fault)) => refused_ended(alloc, parts, fault),
    }
}

/// A run whose gathering was refused.
fn refused_ended(alloc: Global, parts: Parts<2>, fault: GatherFault) -> Ended {
    match fault {
        GatherFault::NoMemory => match gathered(alloc, parts) {
            Some(woven) => Ended::refused(is_alternating(&woven)),
            None => Ended::Wrong,
        },
        GatherFault::Short(0) => Ended::refused(is_new(&parts)),
        _ => Ended::Wrong,
    }
}

fn gathered<'i>(alloc: Global, parts: Parts<'i, 2>) -> Option<Woven<'i, 2>> {
    gather(alloc, parts).ok()
}

pub(crate) fn of_threaded<R: AllocGlobal + Clock + Threads + Wait + Sync>(rt: &R) -> Ended {
    let Some(image) = image_of_two(rt.alloc()) else {
        return Ended::NotMade;
    };
    let gate = AlternateGate::new(rt);
    let run = threaded(rt, rt.alloc(), &image, FUEL, &gate);
    threaded_ended(rt.alloc(), &image, run, gate.gave_up())
}

/// The run, and whether its gate did not give up; none where memory is refused.
fn woven_of<'i, R: AllocGlobal + Clock + Threads + Wait + Sync>(
    rt: &R,
    image: &'i Image,
) -> Option<(Woven<'i, 2>, bool)> {
    let gate = AlternateGate::new(rt);
    let woven = threaded(rt, rt.alloc(), image, FUEL, &gate).ok()?;
    Some((woven, !gate.gave_up()))
}

/// A session of the debugger over the schedule that such a run returns.
pub(crate) fn of_session<R: AllocGlobal + Clock + Threads + Wait + Sync>(rt: &R) -> Ended {
    let Some(image) = image_of_two(rt.alloc()) else {
        return Ended::NotMade;
    };
    match woven_of(rt, &image) {
        Some((woven, true)) => {
            commands_of(rt.alloc(), &image, Some(woven.into_schedule()), &AT_THE_END)
        }
        // without a thread there is another schedule
        Some((_, false)) => Ended::Done,
        None => Ended::NotMade,
    }
}

/// The parts with their records in exchanged places.
fn exchanged<'i>(parts: Parts<'i, 2>) -> Parts<'i, 2> {
    let (fuel, shared, mut records) = parts.into_parts();
    records.reverse();
    Parts::of(fuel, shared, records)
}

/// The numbers of entries, and of steps of all records.
fn numbers(parts: &Parts<2>) -> (usize, usize) {
    let mut steps = 0usize;
    for record in parts.records() {
        steps = steps.saturating_add(record.steps().len());
    }
    (parts.shared().entries().len(), steps)
}

/// Finished records in exchanged places are foreign; put back they are gathered.
fn exchange_ended(alloc: Global, parts: Parts<2>, gave_up: bool) -> Ended {
    match gather(alloc, exchanged(parts)) {
        Err((parts, GatherFault::Foreign(0))) => put_back_ended(alloc, exchanged(parts), gave_up),
        _ => Ended::Wrong,
    }
}

fn put_back_ended(alloc: Global, parts: Parts<2>, gave_up: bool) -> Ended {
    match gather(alloc, parts) {
        Ok(woven) => Ended::answered(gave_up || is_alternating(&woven)),
        Err((parts, GatherFault::NoMemory)) => Ended::refused(gathered(alloc, parts).is_some()),
        Err(_) => Ended::Wrong,
    }
}

/// Runs the processors to their end, and then once more, which adds no step and no entry.
pub(crate) fn of_exchanged<R: AllocGlobal + Clock + Threads + Wait + Sync>(rt: &R) -> Ended {
    let Some(image) = image_of_two(rt.alloc()) else {
        return Ended::NotMade;
    };
    let Ok(parts) = Parts::new(rt.alloc(), &image, FUEL) else {
        return Ended::NotMade;
    };
    let gate = AlternateGate::new(rt);
    let parts = run_threads(rt, parts, &gate);
    let first = numbers(&parts);
    if first == (0, 0) {
        // memory for the turns was refused
        return Ended::NotMade;
    }
    let parts = run_threads(rt, parts, &gate);
    if numbers(&parts) != first {
        return Ended::Wrong;
    }
    exchange_ended(rt.alloc(), parts, gate.gave_up())
}
