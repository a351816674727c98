//! How many steps the debugger runs for a command, which hangs on the positions that it keeps.
use crate::sources::image_of;
use debug_commands::{Answer, DebugFault, answer_text, read_command};
use image_file::Image;
use replay_debugger::Session;
use std::alloc::Global;
use trace_text::read_schedule;

/// A countdown of 298 steps after a first one, then a load that empties the only word, then an endless loop.
const COUNTDOWN: &str =
    ".slim 1\n.entry 0\nLIT r2, 149\nSUB.T r2, r2, 1\nSKIP NE, 0, -2\nLOAD.S r3, r0, 0\n\
    SKIP ALWAYS, 0, -1\n.data 7\n";

/// A command, its answer, and how many steps were then run for the last command that was answered.
type Row = (&'static str, &'static str, u64);

const FROM_THE_NEAREST: [Row; 21] = [
    ("g 1500", "at 1500 moved\n", 1500),
    ("g 1400", "at 1400 moved\n", 120),
    ("g 0", "at 0 moved\n", 0),
    // 256, 512, 768, 1024 and 1280 are kept
    ("s 255", "at 255 moved\n", 255),
    ("s 1", "at 256 moved\n", 0),
    ("s 1", "at 257 moved\n", 1),
    ("g 255", "at 255 moved\n", 255),
    ("g 300", "at 300 moved\n", 44),
    ("g 300", "at 300 moved\n", 0),
    ("g 310", "at 310 moved\n", 10),
    ("g 257", "at 257 moved\n", 1),
    ("s 1143", "at 1400 moved\n", 120),
    ("g 2001", "fault 5\n", 120),
    ("g 1279", "at 1279 moved\n", 255),
    ("m 0 1", "000000000000 0000000000000007 0\n", 0),
    ("g 256", "at 256 moved\n", 0),
    // without points, to the end
    ("c", "at 2000 end\n", 720),
    ("c", "at 2000 end\n", 0),
    // 1536 and 1792 are kept too
    ("s 0", "at 2000 moved\n", 0),
    ("g 1791", "at 1791 moved\n", 255),
    ("g 1793", "at 1793 moved\n", 1),
];

const AFTER_THE_SPACING_DOUBLED: [Row; 17] = [
    ("g 8447", "at 8447 moved\n", 8447),
    // 256 to 8192 are kept
    ("g 8191", "at 8191 moved\n", 255),
    ("g 8447", "at 8447 moved\n", 255),
    // at 8448 the spacing is 512, and 512 to 8192 are kept
    ("s 1", "at 8448 moved\n", 1),
    ("g 8191", "at 8191 moved\n", 511),
    ("g 256", "at 256 moved\n", 256),
    ("g 8450", "at 8450 moved\n", 258),
    ("g 16895", "at 16895 moved\n", 8445),
    // 512 to 16384 are kept
    ("g 16383", "at 16383 moved\n", 511),
    // at 16896 it is 1024, and 1024 to 16384 are kept
    ("g 16896", "at 16896 moved\n", 512),
    ("g 16383", "at 16383 moved\n", 1023),
    ("g 1023", "at 1023 moved\n", 1023),
    ("g 17407", "at 17407 moved\n", 1023),
    ("c", "at 20000 end\n", 2593),
    // 17408, 18432 and 19456 too
    ("g 18431", "at 18431 moved\n", 1023),
    ("g 19999", "at 19999 moved\n", 543),
    ("g 0", "at 0 moved\n", 0),
];

/// Position 300 changes the tags, and even positions up to 298 stand at pc 2.
const GOING_BACK: [Row; 19] = [
    ("wt 0", "point 0\n", 0),
    ("c", "at 300 stop\n", 300),
    ("c", "at 2000 end\n", 1700),
    // 208 + 5 * 256 - 1 steps down to 512, 256 down to 256, and 44 from there
    ("back", "at 300 stop\n", 1787),
    // 43 down to 256, and 256 down to 0
    ("back", "at 0 start\n", 299),
    ("g 301", "at 301 moved\n", 45),
    ("back", "at 300 stop\n", 88),
    ("g 512", "at 512 moved\n", 0),
    ("back", "at 300 stop\n", 299),
    ("g 513", "at 513 moved\n", 1),
    ("back", "at 300 stop\n", 300),
    ("b 0 2", "point 1\n", 0),
    ("g 257", "at 257 moved\n", 1),
    ("back", "at 256 stop\n", 256),
    ("back", "at 254 stop\n", 509),
    ("c", "at 256 stop\n", 2),
    ("g 1", "at 1 moved\n", 1),
    ("back", "at 0 start\n", 0),
    ("back", "at 0 start\n", 0),
];

const GOING_BACK_AFTER_THE_SPACING_DOUBLED: [Row; 12] = [
    ("b 0 4", "point 0\n", 0),
    ("g 10000", "at 10000 moved\n", 10000),
    // 9728 is kept
    ("back", "at 9999 stop\n", 542),
    ("g 9728", "at 9728 moved\n", 0),
    ("back", "at 9727 stop\n", 1022),
    ("g 9729", "at 9729 moved\n", 1),
    // 9728 is found from 9216, and kept
    ("back", "at 9728 stop\n", 512),
    ("wt 0", "point 1\n", 0),
    ("d 0", "gone 0\n", 0),
    // 9727 steps down to 0, and 300 from there
    ("back", "at 300 stop\n", 10027),
    ("g 20000", "at 20000 moved\n", 10272),
    ("back", "at 300 stop\n", 20299),
];

fn answer(session: &mut Session<1>, line: &str) -> Result<Answer, DebugFault> {
    let command = read_command(line.as_bytes())?;
    session.command(&command)
}

/// The text of the answer to a line, or of its fault.
fn reply(alloc: Global, session: &mut Session<1>, line: &str) -> Option<String> {
    match answer(session, line) {
        Ok(answer) => answer_text(alloc, &answer).ok(),
        Err(fault) => format!(in alloc; "fault {}\n", fault.number()).ok(),
    }
}

/// Whether a line is answered so, and by so many steps.
fn answers(alloc: Global, session: &mut Session<1>, row: &Row) -> bool {
    let (line, wanted, steps) = row;
    match reply(alloc, session, line) {
        Some(text) => text.as_str() == *wanted && session.replayed() == *steps,
        None => false,
    }
}

/// The first of the rows that is not so.
fn first_wrong(alloc: Global, session: &mut Session<1>, rows: &[Row]) -> Option<usize> {
    for (number, row) in rows.iter().enumerate() {
        if !answers(alloc, session, row) {
            return Some(number);
        }
    }
    None
}

/// A new session over an image and the text of a schedule.
fn session_of<'i>(alloc: Global, image: &'i Image, schedule: &str) -> Option<Session<'i, 1>> {
    let steps = read_schedule(alloc, schedule.as_bytes()).ok()?;
    Session::begin(alloc, image, steps).ok()
}

/// The first of the rows that is not so in a new session over the countdown; none where there is no session.
fn wrong_in(alloc: Global, schedule: &str, rows: &[Row]) -> Option<Option<usize>> {
    let image = image_of(alloc, COUNTDOWN)?;
    let mut session = session_of(alloc, &image, schedule)?;
    Some(first_wrong(alloc, &mut session, rows))
}

#[test]
fn a_move_starts_from_the_nearest_kept_position(rt: HostRuntime) {
    assert!(rt; wrong_in(rt.alloc(), "0 0 2000\n", &FROM_THE_NEAREST) == Some(None));
    assert!(rt; wrong_in(rt.alloc(), "0 0 20000\n", &AFTER_THE_SPACING_DOUBLED) == Some(None));
}

#[test]
fn going_back_runs_each_interval_once(rt: HostRuntime) {
    assert!(rt; wrong_in(rt.alloc(), "0 0 2000\n", &GOING_BACK) == Some(None));
    let rows = &GOING_BACK_AFTER_THE_SPACING_DOUBLED;
    assert!(rt; wrong_in(rt.alloc(), "0 0 20000\n", rows) == Some(None));
}
