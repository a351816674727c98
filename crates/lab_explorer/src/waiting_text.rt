//! Who can wait forever, in words.

use crate::endless::WaitingProgram;
use crate::polling::PollingStream;
use crate::waiting_files::waiting_path;
use processor::Step;
use search_texts::parts::texts::{ProgramNames, RunPieces, TextWriter};
use search_texts::searches::endless::starving::Starving;
use search_texts::searches::endless::{EndlessWaits, SeenRound, StreamSteps, seen_round};
use search_texts::{put_turns, put_waiting};
use std::alloc::{AllocError, Global};

/// Blanks in front of the line below a stream.
pub(crate) const INDENT: &str = "        ";

/// Adds who can wait forever in a program.
pub(crate) fn push_waits_lines(
    alloc: Global,
    text: &mut String,
    waiting: WaitingProgram<'_, '_>,
) -> Result<(), AllocError> {
    let mut out = TextWriter::take(text);
    if waiting.waits.is_nobody() {
        out.put("fair by words: nobody can be blocked forever");
        if !waiting.rests.is_empty() {
            out.put(" where it may not rest");
        }
        out.put(match waiting.begin {
            0 => "\n",
            _ => " by a schedule that begins so\n",
        });
    }
    match waiting.waits {
        EndlessWaits::Unanswered(reason) => {
            out.put_all(&["not decided: who can wait forever: ", reason.words(), "\n"]);
        }
        EndlessWaits::Answered(answer) => {
            for starving in &answer.starving {
                let round = seen_round(alloc, waiting.image, starving)?;
                put_starving(&mut out, waiting.names, starving, &round);
                put_schedules(&mut out, starving)?;
                put_kept(&mut out, waiting.keep, starving)?;
            }
            put_undecided(&mut out, &answer.undecided);
            if !waiting.waits.is_nobody() {
                put_going(&mut out, waiting.going, waiting.begin);
            }
            put_polling(&mut out, waiting.names, waiting.polling);
        }
    }
    out.give_back(text)
}

/// Adds the streams of which it was not decided.
fn put_undecided(out: &mut TextWriter, streams: &[Step]) {
    for stream in streams {
        out.put("not decided: whether ");
        out.put_stream(stream.p, stream.s);
        out.put(" can wait forever\n");
    }
}

/// Adds the streams of endless loops that go on in every round, where some are, of schedules that all begin with so
/// many steps.
fn put_going(out: &mut TextWriter, streams: &[Step], begin: usize) {
    if streams.is_empty() {
        return;
    }
    out.put("fair by words: ");
    let mut left = streams.len();
    for stream in streams {
        out.put_stream(stream.p, stream.s);
        left = left.saturating_sub(1);
        out.put(match left {
            0 => "",
            1 => " and ",
            _ => ", ",
        });
    }
    out.put(match streams.len() {
        1 => " goes on in every round in which it runs",
        _ => " go on in every round in which they run",
    });
    out.put(match begin {
        0 => "\n",
        _ => ", by a schedule that begins so\n",
    });
}

/// Adds the streams that poll, where some do, and the line of a file of expectations that says of the first one whether it gets
/// further.
fn put_polling(out: &mut TextWriter, names: &ProgramNames<'_>, polling: &[PollingStream]) {
    let Some(first) = polling.first() else {
        return;
    };
    for (index, found) in polling.iter().enumerate() {
        out.put(if index == 0 { "" } else { ", " });
        out.put_stream(found.stream.p, found.stream.s);
        out.put(" polls at ");
        names.put_place(out, found.place);
    }
    out.put(": a stream that polls is not blocked; a line ");
    put_stream_in(out, first.stream);
    names.put_place(out, first.place);
    out.put(" leads to ");
    put_stream_in(out, first.stream);
    out.put("PLACES would say whether it gets further\n");
}

/// Adds a stream, as a line names it before the places where it stands.
fn put_stream_in(out: &mut TextWriter, stream: Step) {
    out.put_stream(stream.p, stream.s);
    out.put(" in ");
}

/// Adds a stream that can wait forever: where, for what, by how many steps, and what each stream does in the round.
fn put_starving(
    out: &mut TextWriter,
    names: &ProgramNames<'_>,
    starving: &Starving,
    round: &SeenRound,
) {
    out.put("fair by words: ");
    put_waiting(out, names, starving.stream, round);
    out.put(": a schedule of ");
    put_steps(out, starving.stem.len());
    out.put(", then ");
    put_steps(out, starving.round.len());
    out.put(" again and again, in which ");
    put_streams(out, &round.streams);
    out.put("\n");
}

/// Adds how many steps they are.
pub(crate) fn put_steps(out: &mut TextWriter, count: usize) {
    out.put_number(count as u64);
    out.put(if count == 1 { " step" } else { " steps" });
}

/// Adds what the streams do in a round: those that complete steps first, then those that are blocked each time.
fn put_streams(out: &mut TextWriter, streams: &[StreamSteps]) {
    let blocked = streams.iter().filter(|known| known.completed == 0).count();
    let completing = streams.len().saturating_sub(blocked);
    let mut left = completing;
    for known in streams.iter().filter(|known| known.completed > 0) {
        out.put_stream(known.stream.p, known.stream.s);
        out.put(" completes ");
        put_steps(out, known.completed);
        left = left.saturating_sub(1);
        out.put(if left > 0 { ", " } else { " and " });
    }
    put_blocked(out, streams, blocked);
}

/// Adds the streams that are blocked each time, which are so many.
fn put_blocked(out: &mut TextWriter, streams: &[StreamSteps], count: usize) {
    let mut left = count;
    for known in streams.iter().filter(|known| known.completed == 0) {
        out.put_stream(known.stream.p, known.stream.s);
        left = left.saturating_sub(1);
        out.put(match left {
            0 => "",
            1 => " and ",
            _ => ", ",
        });
    }
    out.put(if count == 1 { " is" } else { " are" });
    out.put(" blocked each time");
}

/// Adds the schedule that leads to a round, and the round, below a stream.
fn put_schedules(out: &mut TextWriter, starving: &Starving) -> Result<(), AllocError> {
    out.put(INDENT);
    if !starving.stem.is_empty() {
        out.put("by ");
        put_turns(out, &starving.stem)?;
        out.put(", then ");
    }
    out.put("again and again ");
    put_turns(out, &starving.round)?;
    out.put("\n");
    Ok(())
}

/// Adds the file that has the round twice, if it is kept, and what marks the round in it.
fn put_kept(
    out: &mut TextWriter,
    keep: Option<&str>,
    starving: &Starving,
) -> Result<(), AllocError> {
    let Some(folder) = keep else {
        return Ok(());
    };
    let path = waiting_path(out.alloc(), folder, starving.stream)?;
    out.put(INDENT);
    out.put_plain(&path);
    out.put(": view and page mark the round with --round ");
    out.put_number(starving.round.len() as u64);
    out.put("\n");
    Ok(())
}
