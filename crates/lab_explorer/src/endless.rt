//! What endless loops of a program are: who can wait forever, who goes on, and whether nothing comes of their steps.

use crate::polling::PollingStream;
use crate::waiting_objects::push_waits_objects;
use crate::waiting_text::push_waits_lines;
use image_file::Image;
use processor::Step;
use search_texts::parts::texts::ProgramNames;
use search_texts::searches::Explored;
use search_texts::searches::endless::EndlessWaits;
use search_texts::searches::endless::answered::Rest;
use search_texts::searches::endless::starving::StarvingStreams;
use space_graphs::ends_of_space::SpaceEnd;
use std::alloc::{AllocError, Global};

/// A program of which it was asked who can wait forever.
#[derive(Clone, Copy)]
pub(crate) struct WaitingProgram<'a, 't> {
    /// The names of its places.
    pub names: &'a ProgramNames<'t>,
    /// Its image.
    pub image: &'a Image,
    /// How many steps were given that all schedules begin with.
    pub begin: usize,
    /// The folder in which the schedules are kept, if they are.
    pub keep: Option<&'a str>,
    /// Who can.
    pub waits: &'a EndlessWaits,
    /// Which streams may rest.
    pub rests: &'a [Rest],
    /// The streams of endless loops that can't, of which that was decided, and which may rest nowhere.
    pub going: &'a [Step],
    /// The streams that poll, of which no line says whether they get further.
    pub polling: &'a [PollingStream],
}

impl WaitingProgram<'_, '_> {
    /// Adds who can, as objects or in words.
    pub(crate) fn push(
        self,
        alloc: Global,
        out: &mut String,
        is_json: bool,
    ) -> Result<(), AllocError> {
        if is_json {
            push_waits_objects(alloc, out, self)
        } else {
            push_waits_lines(alloc, out, self)
        }
    }
}

/// The streams that can go on in an endless loop, and of which it was decided that they can't wait forever, but for those
/// that may rest: each of them completes a step in every round that is fair by words, and in which it runs. They come in the
/// order of processor and stream; none if it was not asked.
pub(crate) fn going_streams(
    alloc: Global,
    found: &Explored<'_>,
    waits: &EndlessWaits,
    rests: &[Rest],
) -> Result<Vec<Step>, AllocError> {
    let mut going: Vec<Step> = Vec::new(alloc);
    let EndlessWaits::Answered(answer) = waits else {
        return Ok(going);
    };
    for end in found.ends.iter() {
        for stream in &end.running(alloc)? {
            if !going.contains(stream) && is_never(answer, *stream) && !is_of_rest(rests, *stream) {
                going.push(*stream)?;
            }
        }
    }
    going.sort_by_key(|stream: &Step| (stream.p, stream.s))?;
    Ok(going)
}

/// Whether a stream is neither shown to wait forever nor left undecided.
fn is_never(answer: &StarvingStreams, stream: Step) -> bool {
    !answer.undecided.contains(&stream)
        && !answer.starving.iter().any(|shown| shown.stream == stream)
}

/// Whether a stream may rest somewhere.
pub(crate) fn is_of_rest(rests: &[Rest], stream: Step) -> bool {
    rests.iter().any(|rest| rest.who == stream)
}

/// Whether it is an endless loop.
pub(crate) fn is_spinning(end: &SpaceEnd) -> bool {
    end.kind.is_endless()
}

/// Whether it is a livelock: an endless loop in which no step changes a word, so that streams do no more than try.
pub(crate) fn is_livelock(end: &SpaceEnd) -> bool {
    is_spinning(end) && end.changing.is_empty()
}
