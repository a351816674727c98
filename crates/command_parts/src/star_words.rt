//! What is said of a schedule's stars.

use crate::stars::{MOST_STEPS_OF_STAR, Star, StarEnd};
use fault_messages::{Message, Severity};
use std::alloc::{AllocError, Global};

/// A message that has no place yet.
#[derive(Drop)]
pub(crate) struct Words {
    severity: Severity,
    words: String,
    help: String,
}

impl Words {
    /// The message, at the byte of a line that has so many before it, and so has the line.
    pub(crate) fn message(self, line: usize, start: usize, before: usize) -> Message {
        let Words {
            severity,
            words,
            help,
        } = self;
        Message {
            severity,
            number: None,
            line,
            column: before.saturating_add(1),
            width: 1,
            words,
            help: Some(help),
            start,
        }
    }
}

/// What a star means.
pub(crate) fn star_words(alloc: Global) -> Result<Words, AllocError> {
    let help = "mta_sim takes numbers alone; with --program check says how many steps this is";
    Ok(Words {
        severity: Severity::Warning,
        words: format!(in alloc;
            "* stands for the stream's steps until it is blocked, stops or quits, at most {MOST_STEPS_OF_STAR}"
        )?,
        help: String::from_str(alloc, help)?,
    })
}

/// What a star stands for in a run.
pub(crate) fn star_here(alloc: Global, star: Star) -> Result<Words, AllocError> {
    let Star {
        stream,
        steps,
        end,
        ..
    } = star;
    let why = match end {
        StarEnd::Blocked => "the last is blocked",
        StarEnd::Idle if steps == 0 => "the stream is idle",
        StarEnd::Idle => "the stream quits",
        StarEnd::Stopped if steps == 0 => "a trap has stopped the stream",
        StarEnd::Stopped => "a trap stops the stream",
        StarEnd::Most => "the most that it may stand for",
    };
    let (p, s) = (stream.p, stream.s);
    let (words, help) = match steps {
        0 => (
            format!(in alloc; "* stands for no step here: {why}")?,
            String::from_str(alloc, "mta_sim takes numbers alone: leave the line out")?,
        ),
        1 => (
            format!(in alloc; "* stands for 1 step here: {}", one_step(end))?,
            format!(in alloc; "mta_sim takes numbers alone: {p} {s} 1")?,
        ),
        _ => (
            format!(in alloc; "* stands for {steps} steps here: {why}")?,
            format!(in alloc; "mta_sim takes numbers alone: {p} {s} {steps}")?,
        ),
    };
    Ok(Words {
        severity: Severity::Warning,
        words,
        help,
    })
}

/// Why a star stands for one step.
fn one_step(end: StarEnd) -> &'static str {
    match end {
        StarEnd::Blocked => "it is blocked",
        StarEnd::Idle => "the stream quits",
        StarEnd::Stopped => "a trap stops the stream",
        StarEnd::Most => "the most that it may stand for",
    }
}

/// What is said of a line that takes a schedule past the most steps that one has.
pub(crate) fn past_words(alloc: Global) -> Result<Words, AllocError> {
    Ok(Words {
        severity: Severity::Error,
        words: String::from_str(
            alloc,
            "with this line the schedule has more than 1000000 steps",
        )?,
        help: String::from_str(alloc, "take lines out")?,
    })
}
