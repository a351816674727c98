//! Who can wait forever, as objects (docs/LAB_REFERENCE.md, "JSON").

use crate::endless::WaitingProgram;
use lab_json::{List, Object, stream_value, text_value, turns_value};
use processor::Step;
use search_texts::parts::push_object;
use search_texts::parts::texts::{ProgramNames, wanted_word};
use search_texts::searches::endless::starving::Starving;
use search_texts::searches::endless::{EndlessWaits, SeenRound, StreamSteps, seen_round};
use serde_json::Value;
use std::alloc::{AllocError, Global};

/// Adds the objects of who can wait forever in a program: what was decided, and each stream that can.
pub(crate) fn push_waits_objects(
    alloc: Global,
    out: &mut String,
    waiting: WaitingProgram<'_, '_>,
) -> Result<(), AllocError> {
    push_object(alloc, out, &waits_value(alloc, waiting)?)?;
    if let EndlessWaits::Answered(answer) = waiting.waits {
        for starving in &answer.starving {
            let round = seen_round(alloc, waiting.image, starving)?;
            let value = starving_value(alloc, waiting.names, starving, &round)?;
            push_object(alloc, out, &value)?;
        }
    }
    Ok(())
}

/// Whether it was asked who can wait forever, why not, of which streams it was not decided, and who goes on in every round.
fn waits_value(alloc: Global, waiting: WaitingProgram<'_, '_>) -> Result<Value, AllocError> {
    let waits = waiting.waits;
    let mut object = Object::of_kind(alloc, "waiting");
    object.put_text("fairness", "words");
    object.put("nobody", Ok(Value::from(waits.is_nobody())));
    object.put("going", streams_value(alloc, waiting.going));
    match waits {
        EndlessWaits::Unanswered(reason) => {
            object.put("decided", Ok(Value::from(false)));
            object.put("why", text_value(alloc, reason.json_name()));
            object.put("undecided", streams_value(alloc, &[]));
        }
        EndlessWaits::Answered(answer) => {
            object.put("decided", Ok(Value::from(answer.undecided.is_empty())));
            object.put("why", Ok(Value::Null));
            object.put("undecided", streams_value(alloc, &answer.undecided));
        }
    }
    object.whole()
}

/// Streams, by their names.
fn streams_value(alloc: Global, streams: &[Step]) -> Result<Value, AllocError> {
    let mut names = List::new(alloc);
    for stream in streams {
        names.put(stream_value(alloc, *stream));
    }
    names.whole()
}

/// A stream that can wait forever: where, for which word, by which schedule and round, and who completes steps in it.
fn starving_value(
    alloc: Global,
    names: &ProgramNames<'_>,
    starving: &Starving,
    round: &SeenRound,
) -> Result<Value, AllocError> {
    let mut object = Object::of_kind(alloc, "starving");
    object.put("stream", stream_value(alloc, starving.stream));
    object.put_number("pc", u64::from(round.place));
    let mut place = String::new(alloc);
    names.push_place(&mut place, round.place)?;
    object.put_text("place", &place);
    match round.wait {
        Some(wait) => {
            object.put_number("word", wait.address);
            object.put_text("for", wanted_word(wait.wanted));
        }
        None => {
            object.put("word", Ok(Value::Null));
            object.put("for", Ok(Value::Null));
        }
    }
    object.put_number("steps", starving.stem.len() as u64);
    object.put("schedule", turns_value(alloc, &starving.stem));
    object.put("round", turns_value(alloc, &starving.round));
    object.put("completed", completed_value(alloc, &round.streams));
    object.whole()
}

/// The streams that take steps in a round, each with how many of these complete.
fn completed_value(alloc: Global, streams: &[StreamSteps]) -> Result<Value, AllocError> {
    let mut pairs = List::new(alloc);
    for known in streams {
        let mut pair = List::new(alloc);
        pair.put(stream_value(alloc, known.stream));
        pair.put_number(known.completed as u64);
        pairs.put(pair.whole());
    }
    pairs.whole()
}
