//! Calls of the debugger's engine.
use crate::endings::Ended;
use crate::programs::SCHEDULE;
use crate::runs::engines::writer;
use image_file::{Image, write_image};
use mta_engines::{ToolFault, debug_engine};
use std::alloc::{AllocError, Global};

/// Lines of commands.
const LINES: &str = "m 0 1\nr 0 1\nb 0 2\ng 6\ng 2\ng 5\n";

/// Their answers, which are the same where another line is refused.
const ANSWERS: [&str; 6] = [
    "000000000000 0000000000000005 1\n",
    "Idle ssw 0000000000000000 xr 0000000000000000 retries 0\n",
    "point 0\n",
    "at 6 moved\n",
    "at 2 moved\n",
    "at 5 moved\n",
];

/// The answer of a line whose command is refused memory.
const REFUSED: &str = "fault 6\n";

/// A line that is refused memory is answered so, and the others as ever. Where the session ends, the answers of some
/// first lines are written.
fn ended(done: Result<(), ToolFault>, written: &[u8]) -> Ended {
    let (answered, refused, rest) = answers(written);
    match done {
        Ok(()) if refused == 0 => Ended::answered(answered == ANSWERS.len() && rest.is_empty()),
        Ok(()) => Ended::refused(
            answered.saturating_add(refused) == ANSWERS.len() && rest.is_empty(),
        ),
        Err(ToolFault::NoMemory) => Ended::refused(rest.is_empty()),
        Err(_) => Ended::Wrong,
    }
}

fn session_ended(alloc: Global, mut bytes: &[u8]) -> Ended {
    let Some(mut written) = writer(alloc) else {
        return Ended::NotMade;
    };
    let done = debug_engine(
        alloc,
        &mut bytes,
        &mut SCHEDULE.as_bytes(),
        &mut LINES.as_bytes(),
        &mut written,
    );
    ended(done, &written)
}

pub(crate) fn of_debug_engine(alloc: Global, image: &Image) -> Ended {
    match write_image(alloc, image) {
        Ok(bytes) => session_ended(alloc, &bytes),
        Err(AllocError) => Ended::NotMade,
    }
}

/// How many lines are answered, how many are refused memory, and what is written after them.
fn answers(written: &[u8]) -> (usize, usize, &[u8]) {
    let (mut answered, mut refused, mut rest) = (0usize, 0usize, written);
    for answer in ANSWERS {
        if let Some(after) = rest.strip_prefix(answer.as_bytes()) {
            answered = answered.saturating_add(1);
            rest = after;
        } else if let Some(after) = rest.strip_prefix(REFUSED.as_bytes()) {
            refused = refused.saturating_add(1);
            rest = after;
        } else {
            break;
        }
    }
    (answered, refused, rest)
}
