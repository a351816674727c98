//! The pages of programs, of their images and their schedules.

use crate::marked_rounds::MarkedRound;
use crate::pages::{page_of, pair_page_of};
use crate::run_verdicts::JudgedRun;
use crate::runs::{PairNames, RunNames, both_names, pair_json, round_json, run_json};
use image_file::Image;
use image_machines::{by_room, loaded};
use processor::Step;
use std::alloc::{AllocError, Global};

/// The page of the run of a program with this text and this image by a schedule, with its names as the title, and how its
/// end was judged.
pub fn page_of_run(
    alloc: Global,
    names: RunNames,
    judged: JudgedRun<'_>,
    text: &[u8],
    image: &Image,
    schedule: &[Step],
) -> Result<String, AllocError> {
    let json = by_room!(image, run_on(alloc, names, judged, text, image, schedule))?;
    let title = title_of(alloc, names.program, names.schedule)?;
    page_of(alloc, &title, &json)
}

/// The page of such a run whose last steps are marked as a round; its end was not judged.
pub fn page_of_round(
    alloc: Global,
    names: RunNames,
    round: MarkedRound,
    text: &[u8],
    image: &Image,
    schedule: &[Step],
) -> Result<String, AllocError> {
    let json = by_room!(image, round_on(alloc, names, round, text, image, schedule))?;
    let title = title_of(alloc, names.program, names.schedule)?;
    page_of(alloc, &title, &json)
}

/// The page of two runs of a program with this text and this image, with their names as the title.
pub fn page_of_pair(
    alloc: Global,
    names: PairNames,
    text: &[u8],
    image: &Image,
    one: &[Step],
    other: &[Step],
) -> Result<String, AllocError> {
    let json = by_room!(image, pair_on(alloc, names, text, image, one, other))?;
    let title = title_of(alloc, names.program, &both_names(alloc, names)?)?;
    pair_page_of(alloc, &title, &json)
}

/// The JSON of a run, on a machine with room for `S` streams a processor.
fn run_on<const S: usize>(
    alloc: Global,
    names: RunNames,
    judged: JudgedRun<'_>,
    text: &[u8],
    image: &Image,
    schedule: &[Step],
) -> Result<String, AllocError> {
    let machine = loaded::<S>(alloc, image)?;
    run_json(alloc, names, judged, text, &machine, schedule)
}

/// The JSON of a run with a round, on a machine with room for `S` streams a processor.
fn round_on<const S: usize>(
    alloc: Global,
    names: RunNames,
    round: MarkedRound,
    text: &[u8],
    image: &Image,
    schedule: &[Step],
) -> Result<String, AllocError> {
    let machine = loaded::<S>(alloc, image)?;
    round_json(alloc, names, round, text, &machine, schedule)
}

/// The JSON of two runs, on machines with room for `S` streams a processor.
fn pair_on<const S: usize>(
    alloc: Global,
    names: PairNames,
    text: &[u8],
    image: &Image,
    one: &[Step],
    other: &[Step],
) -> Result<String, AllocError> {
    let machine = loaded::<S>(alloc, image)?;
    pair_json(alloc, names, text, &machine, one, other)
}

/// The title of a page.
fn title_of(alloc: Global, program: &str, schedules: &str) -> Result<String, AllocError> {
    format!(in alloc; "{program}, {schedules}")
}
