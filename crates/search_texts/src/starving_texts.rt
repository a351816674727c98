//! Who can wait forever, in words.

use command_parts::texts::{ProgramNames, RunPieces, TextWriter, wanted_word};
use expectation_files::Requirements;
use program_searches::Step;
use program_searches::endless::SeenRound;
use program_searches::endless::waits_of_streams::Wait;
use schedule_turns::turns_of;
use std::alloc::AllocError;

/// The most turns of a schedule, or of a round, that are shown.
const MOST_TURNS: usize = 40;

/// Adds that a stream can wait forever, where it stands in its round, and what it waits for.
pub fn put_waiting(
    out: &mut TextWriter,
    names: &ProgramNames<'_>,
    stream: Step,
    round: &SeenRound,
) {
    out.put_stream(stream.p, stream.s);
    out.put(" can wait forever at ");
    names.put_place(out, round.place);
    if let Some(wait) = round.wait {
        put_wait(out, names, wait);
    }
}

/// Adds what a stream waits for.
fn put_wait(out: &mut TextWriter, names: &ProgramNames<'_>, wait: Wait) {
    out.put(", for ");
    names.put_address(out, wait.address);
    out.put_all(&[" to be ", wanted_word(wait.wanted)]);
}

/// What holds at the end of a run that need not go on, by what is required of the program.
pub fn stop_words(required: &Requirements) -> &'static str {
    if required.rests().is_empty() {
        "no stream runs any more"
    } else {
        "no stream has to go on any more"
    }
}

/// Adds the turns of a schedule, as `0 0 3, 1 0 2`, up to 40.
pub fn put_turns(out: &mut TextWriter, steps: &[Step]) -> Result<(), AllocError> {
    for (index, turn) in turns_of(out.alloc(), steps)?.iter().enumerate() {
        if index == MOST_TURNS {
            out.put(", ..");
            break;
        }
        out.put(if index == 0 { "" } else { ", " });
        out.put_number(u64::from(turn.stream.p));
        out.put(" ");
        out.put_number(u64::from(turn.stream.s));
        out.put(" ");
        out.put_number(turn.count as u64);
    }
    Ok(())
}
