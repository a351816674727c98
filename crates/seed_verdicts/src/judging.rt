//! What runs are judged by.

ghost use Rattle.std.specs.Prelude.{◌≡◌, ◌<◌, ◌↔◌, IfOk, Err};
ghost use Rattle.seed_verdicts.specs.Seeds.{loaded};
ghost use Rattle.schedule_makers.specs.FairLengths.{IsFairLength};

use claims::Claim;
use expectations::Expectation;
use image_file::Image;
use machine::{LoadFault, Machine};
use schedule_makers::fair_length;
use std::alloc::Global;

/// The program whose runs are judged, what is wanted of them, and how their schedules are made.
#[derive(Clone, Copy)]
pub(crate) struct Judging<'a> {
    pub(crate) image: &'a Image,
    pub(crate) expected: &'a [Expectation],
    pub(crate) claims: &'a [Claim],
    /// How many steps the fair run of the image has.
    pub(crate) fair: usize,
    /// The most steps of a run.
    pub(crate) most: usize,
}

/// How many steps the fair run of an image has.
pub(crate) fn fair_length_of<const S: usize>(
    alloc: Global,
    image: &Image,
) -> Result<usize, LoadFault>
    ensures is { IfOk result (λ n. IsFairLength (loaded image.now) n) }
    ensures streams { (result ≡ Err LoadFault.Streams) ↔ (S < image.now.slim) }
{
    let machine: Machine<'_, S> = Machine::load(alloc, image)?;
    let length = fair_length(alloc, &machine)?;
    Ok(length)
}
