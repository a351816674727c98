//! The ends of all schedules in words.

use crate::end_texts::state_text;
use crate::findings::first_finding;
use crate::loop_texts::{cycle_text, loop_text};
use expectation_files::{NEVER_BUSY, Requirements};
use image_file::Image;
use image_machines::by_room;
use lab_texts::Notation;
use space_ends::{SpaceEnd, SpaceEndKind};
use std::alloc::{AllocError, Global};

/// An end of all schedules in words.
#[derive(Drop)]
pub struct EndWords {
    /// Who was stopped, who waits or goes on forever, and the words that changed. The claim, where it is broken.
    pub text: String,
    /// The first finding of the run of its schedule, and how many more there are; empty where there is none.
    pub finding: String,
    /// The steps of its cycle; empty where it does not loop.
    pub cycle: String,
}

/// The line of a file of expectations that worlds break.
#[derive(Clone, Copy)]
pub struct BrokenLine<'r> {
    /// Its number, counted from 1.
    pub number: usize,
    /// Its words.
    pub words: &'r str,
}

/// The line that worlds of this kind break; None of ends.
pub fn broken_line<'r>(required: &'r Requirements, kind: SpaceEndKind) -> Option<BrokenLine<'r>> {
    match kind {
        SpaceEndKind::End(_) => None,
        SpaceEndKind::Broken { claim } => {
            let line = required.claim_lines().get(claim)?;
            Some(BrokenLine {
                number: line.number,
                words: line.words.as_str(),
            })
        }
        SpaceEndKind::Busy => Some(BrokenLine {
            number: required.never_busy()?,
            words: NEVER_BUSY,
        }),
    }
}

/// Each of these ends of an image in words, of which this is required.
pub fn words_of_ends(
    alloc: Global,
    notation: Notation<'_, '_>,
    required: &Requirements,
    image: &Image,
    ends: &[SpaceEnd],
) -> Result<Vec<EndWords>, AllocError> {
    let mut words = Vec::new(alloc);
    for end in ends {
        words.push(words_of_end(alloc, notation, required, image, end)?)?;
    }
    Ok(words)
}

/// An end in words.
pub fn words_of_end(
    alloc: Global,
    notation: Notation<'_, '_>,
    required: &Requirements,
    image: &Image,
    end: &SpaceEnd,
) -> Result<EndWords, AllocError> {
    Ok(EndWords {
        text: text_of_end(alloc, notation, required, image, end)?,
        finding: by_room!(image, finding_of(alloc, notation, image, end))?,
        cycle: cycle_text(alloc, notation.names, image, end)?,
    })
}

/// Of an end of an image who was stopped, who waits or goes on forever, and the words that changed; the line of worlds that
/// break one.
pub fn text_of_end(
    alloc: Global,
    notation: Notation<'_, '_>,
    required: &Requirements,
    image: &Image,
    end: &SpaceEnd,
) -> Result<String, AllocError> {
    if let Some(line) = broken_line(required, end.kind) {
        return String::from_str(alloc, line.words);
    }
    if end.kind.is_endless() {
        return loop_text(alloc, notation, image, end);
    }
    state_text(alloc, notation, image, &end.state)
}

/// The first finding of the run of an end's schedule.
fn finding_of<const S: usize>(
    alloc: Global,
    notation: Notation<'_, '_>,
    image: &Image,
    end: &SpaceEnd,
) -> Result<String, AllocError> {
    first_finding::<S>(alloc, notation, image, &end.schedule, &[])
}
