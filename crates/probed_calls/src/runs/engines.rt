//! Calls of the commands' engines.
use crate::endings::Ended;
use crate::programs::{END, FUEL, SCHEDULE, SOURCE};
use crate::texts::STREAM_TEXT;
use asm_text::listing;
use image_file::{Image, write_image};
use memory_lock::{FreeGate, GatherFault};
use mta_engines::{ToolFault, asm_engine, list_engine, run_engine, threads_engine, words_engine};
use std::alloc::{AllocError, Global};
use std::sync::Wait;
use std::thread::Threads;

/// More bytes than an engine writes. A writer has room for them before the call, so that no write fails.
const MOST_WRITTEN: usize = 2_048;

/// A line for each step of the schedule.
const TRACE: &str = "      1   0   0 00000000 DONE\n      2   0   0 00000001 DONE\n      \
     3   0   0 00000002 DONE\n      4   1   0 00000003 DONE\n      5   1   0 00000004 DONE\n      \
     6   1   0 00000005 DONE\n";

/// The schedules of a run, by which processor asks first.
const SCHEDULES: [&str; 2] = ["0 0 2\n1 0 2\n0 0 1\n1 0 1\n", "1 0 2\n0 0 3\n1 0 1\n"];

/// A line for each entry of their histories.
const HISTORIES: [&str; 2] = [
    "      1   0   0 FADD   0000000000000000 1 0000000000000003 0 DONE 0000000000000005\n      \
     2   1   0 STORE  0000000000000008 1 0000000000000007 0 DONE 0000000000000000\n",
    "      1   1   0 STORE  0000000000000008 1 0000000000000007 0 DONE 0000000000000000\n      \
     2   0   0 FADD   0000000000000000 1 0000000000000003 0 DONE 0000000000000005\n",
];

/// A writer with room.
pub(crate) fn writer(alloc: Global) -> Option<Vec<u8>> {
    match Vec::with_capacity(alloc, MOST_WRITTEN) {
        Ok(writer) => Some(writer),
        Err(_) => None,
    }
}

/// How an engine ended that writes all at once.
fn ended(done: Result<(), ToolFault>, written: &[u8], wanted: &[u8]) -> Ended {
    match done {
        Ok(()) => Ended::answered(written == wanted),
        Err(ToolFault::NoMemory) => Ended::refused(written.is_empty()),
        Err(_) => Ended::Wrong,
    }
}

pub(crate) fn of_words_engine(alloc: Global) -> Ended {
    let Some(mut text) = writer(alloc) else {
        return Ended::NotMade;
    };
    let done = words_engine(alloc, &mut "8010000000000003\n".as_bytes(), &mut text);
    ended(done, &text, STREAM_TEXT.as_bytes())
}

fn asm_ended(alloc: Global, bytes: &[u8]) -> Ended {
    let Some(mut written) = writer(alloc) else {
        return Ended::NotMade;
    };
    let done = asm_engine(alloc, &mut SOURCE.as_bytes(), &mut written);
    ended(done, &written, bytes)
}

pub(crate) fn of_asm_engine(alloc: Global, image: &Image) -> Ended {
    match write_image(alloc, image) {
        Ok(bytes) => asm_ended(alloc, &bytes),
        Err(AllocError) => Ended::NotMade,
    }
}

fn list_ended(alloc: Global, mut bytes: &[u8], wanted: &[u8]) -> Ended {
    let Some(mut text) = writer(alloc) else {
        return Ended::NotMade;
    };
    let done = list_engine(alloc, &mut bytes, &mut text);
    ended(done, &text, wanted)
}

pub(crate) fn of_list_engine(alloc: Global, image: &Image) -> Ended {
    let Ok(bytes) = write_image(alloc, image) else {
        return Ended::NotMade;
    };
    match listing(alloc, image) {
        Ok(wanted) => list_ended(alloc, &bytes, wanted.as_bytes()),
        Err(AllocError) => Ended::NotMade,
    }
}

/// What stands after these lines; none if they do not stand first.
fn text_after<'a>(text: &'a [u8], lines: &str) -> Option<&'a [u8]> {
    text.strip_prefix(lines.as_bytes())
}

/// Whether a text is these lines, and after them what the program comes to.
fn is_report(text: &[u8], lines: &str) -> bool {
    text_after(text, lines) == Some(END.as_bytes())
}

fn run_ended(alloc: Global, mut bytes: &[u8]) -> Ended {
    let Some(mut text) = writer(alloc) else {
        return Ended::NotMade;
    };
    let done = run_engine(alloc, &mut bytes, &mut SCHEDULE.as_bytes(), &mut text);
    match text_after(&text, TRACE) {
        Some(end) => ended(done, end, END.as_bytes()),
        None => ended(done, &text, b"a trace"),
    }
}

pub(crate) fn of_run_engine(alloc: Global, image: &Image) -> Ended {
    match write_image(alloc, image) {
        Ok(bytes) => run_ended(alloc, &bytes),
        Err(AllocError) => Ended::NotMade,
    }
}

/// Whether they are the schedule and the report of a run, whichever processor asked first.
fn is_threaded(schedule: &[u8], report: &[u8]) -> bool {
    let [first, second] = SCHEDULES;
    let [one, other] = HISTORIES;
    (schedule == first.as_bytes() && is_report(report, one))
        || (schedule == second.as_bytes() && is_report(report, other))
}

/// Where memory for the turns is refused no step is taken, which can't be gathered.
fn threads_ended(done: Result<(), ToolFault>, schedule: &[u8], report: &[u8]) -> Ended {
    match done {
        Ok(()) => Ended::answered(is_threaded(schedule, report)),
        Err(ToolFault::NoMemory | ToolFault::Gather(GatherFault::Short(0))) => {
            Ended::refused(schedule.is_empty() && report.is_empty())
        }
        Err(_) => Ended::Wrong,
    }
}

fn run_threads<R: AllocGlobal + Threads + Wait + Sync>(rt: &R, mut bytes: &[u8]) -> Ended {
    let (Some(mut schedule), Some(mut report)) = (writer(rt.alloc()), writer(rt.alloc())) else {
        return Ended::NotMade;
    };
    let done = threads_engine(
        rt,
        rt.alloc(),
        &mut bytes,
        FUEL,
        &FreeGate,
        &mut schedule,
        &mut report,
    );
    threads_ended(done, &schedule, &report)
}

pub(crate) fn of_threads_engine<R: AllocGlobal + Threads + Wait + Sync>(
    rt: &R,
    image: &Image,
) -> Ended {
    match write_image(rt.alloc(), image) {
        Ok(bytes) => run_threads(rt, &bytes),
        Err(AllocError) => Ended::NotMade,
    }
}
