//! A session whose schedule is so long that the positions which it keeps come to lie twice as far apart.
use crate::endings::Ended;
use crate::runs::sessions::commands_of;
use asm_text::assemble;
use debug_commands::Command;
use std::alloc::Global;
use trace_text::read_schedule;

/// A countdown of 298 steps after a first one, then a load that empties the only word, then an endless loop.
const COUNTDOWN: &str = ".slim 1\n.entry 0\nLIT r2, 149\nSUB.T r2, r2, 1\nSKIP NE, 0, -2\n\
    LOAD.S r3, r0, 0\nSKIP ALWAYS, 0, -1\n.data 7\n";

/// Past 32 kept positions, 256 steps apart; the last steps are of no processor.
const SCHEDULE: &str = "0 0 9000\n200 0 5\n";

/// The load is step 300.
const COMMANDS: [(Command, &str); 11] = [
    (Command::WatchTags(0), "point 0\n"),
    (Command::Continue, "at 300 stop\n"),
    (Command::Show(0, 1), "000000000000 0000000000000007 0\n"),
    (Command::Back, "at 0 start\n"),
    (Command::Go(0), "at 0 moved\n"),
    (Command::Continue, "at 300 stop\n"),
    (Command::Continue, "at 9005 end\n"),
    (Command::Go(8447), "at 8447 moved\n"),
    (Command::Back, "at 300 stop\n"),
    (Command::Delete(0), "gone 0\n"),
    (Command::Back, "at 0 start\n"),
];

pub(crate) fn of_commands(alloc: Global) -> Ended {
    match assemble(alloc, COUNTDOWN.as_bytes()) {
        Ok(image) => {
            let steps = read_schedule(alloc, SCHEDULE.as_bytes()).ok();
            commands_of(alloc, &image, steps, &COMMANDS)
        }
        Err(_) => Ended::NotMade,
    }
}
