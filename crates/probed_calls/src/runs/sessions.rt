//! Calls of the debugger.
use crate::endings::Ended;
use crate::programs::{STEPS, steps};
use debug_commands::{Answer, Command, DebugFault, answer_text};
use image_file::Image;
use machine::LoadFault;
use processor::Step;
use replay_debugger::{BeginFault, Session};
use std::alloc::Global;

/// Commands, and their answers' texts.
const COMMANDS: [(Command, &str); 12] = [
    (Command::Break(0, 2), "point 0\n"),
    (Command::Watch(8), "point 1\n"),
    (Command::WatchTags(0), "point 2\n"),
    (Command::Continue, "at 2 stop\n"),
    (Command::Continue, "at 5 stop\n"),
    (Command::Continue, "at 6 end\n"),
    (Command::Back, "at 5 stop\n"),
    (
        Command::Show(0, 2),
        "000000000000 0000000000000008 1\n000000000008 0000000000000007 1\n",
    ),
    (
        Command::Registers(0, 1),
        "Idle ssw 0000000000000000 xr 0000000000000000 retries 0\n",
    ),
    (Command::Delete(1), "gone 1\n"),
    (Command::Back, "at 2 stop\n"),
    (Command::Go(6), "at 6 moved\n"),
];

fn begin_ended(begun: Result<Session<2>, BeginFault>) -> Ended {
    match begun {
        Ok(session) => Ended::answered(session.position() == 0),
        Err(fault) => Ended::refused(
            matches!(fault.kind, LoadFault::NoMemory)
                && fault.schedule.as_slice() == STEPS.as_slice(),
        ),
    }
}

pub(crate) fn of_begin(alloc: Global, image: &Image) -> Ended {
    match steps(alloc) {
        Some(steps) => begin_ended(Session::begin(alloc, image, steps)),
        None => Ended::NotMade,
    }
}

/// All commands in one session.
pub(crate) fn of_commands(alloc: Global, image: &Image) -> Ended {
    commands_of(alloc, image, steps(alloc), &COMMANDS)
}

/// Commands in one session over these steps, for which there may be no memory.
pub(crate) fn commands_of(
    alloc: Global,
    image: &Image,
    steps: Option<Vec<Step>>,
    commands: &[(Command, &str)],
) -> Ended {
    let Some(steps) = steps else {
        return Ended::NotMade;
    };
    match Session::begin(alloc, image, steps) {
        Ok(mut session) => commands_ended(alloc, &mut session, commands),
        Err(_) => Ended::NotMade,
    }
}

fn commands_ended(alloc: Global, session: &mut Session<2>, commands: &[(Command, &str)]) -> Ended {
    let mut ended = Ended::Done;
    for (command, text) in commands {
        ended = ended.and(of_command(alloc, session, command, text));
    }
    ended
}

/// A command, which is given again and answered then, where it is refused memory.
fn of_command(alloc: Global, session: &mut Session<2>, command: &Command, text: &str) -> Ended {
    let before = session.position();
    match of_one_command(alloc, session, command, text) {
        Ended::NotMade => {
            let is_as_before = session.position() == before;
            let again = of_one_command(alloc, session, command, text);
            Ended::refused(is_as_before && !matches!(again, Ended::NotMade)).and(again)
        }
        ended => ended,
    }
}

/// A command; it counts as not made where it is refused memory.
fn of_one_command(alloc: Global, session: &mut Session<2>, command: &Command, text: &str) -> Ended {
    match session.command(command) {
        Ok(answer) => of_answer(alloc, &answer, text),
        Err(DebugFault::NoMemory) => Ended::NotMade,
        Err(_) => Ended::Wrong,
    }
}

/// How the answer's text ends, which is made again where it is refused.
fn of_answer(alloc: Global, answer: &Answer, text: &str) -> Ended {
    match is_text(alloc, answer, text) {
        Some(is_right) => Ended::answered(is_right),
        None => Ended::refused(is_text(alloc, answer, text) == Some(true)),
    }
}

/// Whether the answer has this text; none where memory is refused.
fn is_text(alloc: Global, answer: &Answer, text: &str) -> Option<bool> {
    match answer_text(alloc, answer) {
        Ok(found) => Some(found.as_str() == text),
        Err(_) => None,
    }
}
