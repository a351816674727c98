//! How a run evades a condition, in words.

use expectation_files::Requirements;
use lab_texts::TextWriter;
use processor::Step;
use search_texts::searches::endless::answered::{EvadingRun, RunEnd};
use search_texts::{put_turns, stop_words};
use std::alloc::{AllocError, Global};

/// How a run goes on from where it begins to evade a condition.
pub(crate) fn evasion_words(
    alloc: Global,
    required: &Requirements,
    run: &EvadingRun,
) -> Result<String, AllocError> {
    let mut out = TextWriter::new(alloc);
    out.put(match &run.end {
        RunEnd::Repeats(_) | RunEnd::Stops => "it may never come there: ",
        RunEnd::Anything => "it is overtaken more often: ",
    });
    if !run.way.is_empty() {
        out.put("then ");
        put_turns(&mut out, &run.way)?;
    }
    match &run.end {
        RunEnd::Repeats(round) => {
            put_comma(&mut out, &run.way);
            out.put("again and again ");
            put_turns(&mut out, round)?;
        }
        RunEnd::Stops => {
            out.put(if run.way.is_empty() { "" } else { ", and " });
            out.put(stop_words(required));
        }
        RunEnd::Anything => {}
    }
    out.take_text()
}

/// Adds what stands between the steps of a way and what follows, where it has steps.
fn put_comma(out: &mut TextWriter, way: &[Step]) {
    if !way.is_empty() {
        out.put(", ");
    }
}
