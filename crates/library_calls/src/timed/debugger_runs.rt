//! Runs of the debugger over the steps of a loop.
use crate::timed::loops::{FETCH_ADD, PROCESSORS, image_of};
use crate::timed::machine_steps::turns;
use debug_commands::Command;
use image_file::Image;
use processor::Step;
use replay_debugger::Session;
use std::alloc::Global;

/// The last position.
const END: u64 = 1_000_000;

/// How many places are gone to.
const PLACES: u64 = 20;

/// The points of a session; no step of the loop stops at one.
#[derive(Clone, Copy)]
enum Points {
    /// So many breakpoints, each at a place of its own.
    Breakpoints(u32),
    /// The tags of so many words, each of its own.
    Watches(u32),
}

impl Points {
    fn count(self) -> u32 {
        match self {
            Points::Breakpoints(count) | Points::Watches(count) => count,
        }
    }

    /// The command that adds a point.
    fn command(self, point: u32) -> Command {
        match self {
            Points::Breakpoints(_) => Command::Break((point % 16) as u8, u32::MAX - point),
            Points::Watches(_) => Command::WatchTags(u64::from(point) * 8),
        }
    }

    /// Adds them to a session.
    fn are_added(self, session: &mut Session<8>) -> bool {
        for point in 0..self.count() {
            if done(session, &self.command(point)).is_none() {
                return false;
            }
        }
        true
    }
}

/// Does a command, and gives how many steps were run for it.
fn done(session: &mut Session<8>, command: &Command) -> Option<u64> {
    match session.command(command) {
        Ok(_) => Some(session.replayed()),
        Err(_) => None,
    }
}

/// A session over these steps, with points.
fn session_of<'i>(
    alloc: Global,
    image: &'i Image,
    steps: &[Step],
    points: Points,
) -> Option<Session<'i, 8>> {
    let Ok(steps) = Vec::from_slice(alloc, steps) else {
        return None;
    };
    match Session::begin(alloc, image, steps) {
        Ok(session) => with_points(session, points),
        Err(_) => None,
    }
}

fn with_points<'i>(mut session: Session<'i, 8>, points: Points) -> Option<Session<'i, 8>> {
    if points.are_added(&mut session) {
        Some(session)
    } else {
        None
    }
}

/// Does a command in a session of its own, in which nothing has run before.
fn done_anew(
    alloc: Global,
    image: &Image,
    steps: &[Step],
    points: Points,
    command: &Command,
) -> Option<u64> {
    match session_of(alloc, image, steps, points) {
        Some(mut session) => done(&mut session, command),
        None => None,
    }
}

/// Does it in so many sessions.
fn command_rounds(
    alloc: Global,
    image: &Image,
    steps: &[Step],
    points: Points,
    command: &Command,
    rounds: u32,
) -> Option<u64> {
    let mut count = Some(0);
    for _ in 0..rounds {
        count = done_anew(alloc, image, steps, points, command);
    }
    count
}

/// Goes to places all over a run, each 7 twentieths of it after the one before, and all in the middle of theirs; gives
/// how many steps were run for them.
fn go_to_places(session: &mut Session<8>) -> Option<u64> {
    let mut count = 0u64;
    for number in 0..PLACES {
        let part = number * 7 % PLACES * 2 + 1;
        let place = part.saturating_mul(END) / (2 * PLACES);
        count = count.saturating_add(done(session, &Command::Go(place))?);
    }
    Some(count)
}

/// Goes back to the start, past points that stop nowhere, and to the end again.
fn go_back_and_forth(session: &mut Session<8>) -> Option<u64> {
    let back = done(session, &Command::Back)?;
    let forth = done(session, &Command::Go(END))?;
    Some(back.saturating_add(forth))
}

/// Does one of these so many times in a session that has been at its end.
fn moved(session: &mut Session<8>, is_back: bool, rounds: u32) -> Option<u64> {
    let mut count = done(session, &Command::Go(END))?;
    for _ in 0..rounds {
        count = if is_back {
            go_back_and_forth(session)?
        } else {
            go_to_places(session)?
        };
    }
    Some(count)
}

fn move_rounds(
    alloc: Global,
    image: &Image,
    steps: &[Step],
    is_back: bool,
    rounds: u32,
) -> Option<u64> {
    let points = Points::Breakpoints(u32::from(is_back));
    match session_of(alloc, image, steps, points) {
        Some(mut session) => moved(&mut session, is_back, rounds),
        None => None,
    }
}

/// What this name says, and how many steps were run for it.
fn rounds_of(
    alloc: Global,
    image: &Image,
    steps: &[Step],
    which: &str,
    rounds: u32,
) -> Option<u64> {
    let points = match which {
        "places" => return move_rounds(alloc, image, steps, false, rounds),
        "back" => return move_rounds(alloc, image, steps, true, rounds),
        "1_breakpoint" => Points::Breakpoints(1),
        "64_breakpoints" => Points::Breakpoints(64),
        "1_watch" => Points::Watches(1),
        "64_watches" => Points::Watches(64),
        _ => Points::Breakpoints(0),
    };
    let command = if which == "go" {
        Command::Go(END)
    } else {
        Command::Continue
    };
    command_rounds(alloc, image, steps, points, &command, rounds)
}

/// Runs the debugger as this name says for so many rounds, and gives how many steps were run in each.
pub(crate) fn debug_rounds(alloc: Global, which: &str, rounds: u32) -> Option<usize> {
    let words = if which == "64_watches" { 64 } else { 1 };
    let image = image_of(alloc, PROCESSORS, 1, &FETCH_ADD, words);
    let count = match (image, turns(alloc)) {
        (Some(image), Some(steps)) => rounds_of(alloc, &image, &steps, which, rounds),
        _ => None,
    };
    match count {
        Some(count) => Some(count as usize),
        None => None,
    }
}
