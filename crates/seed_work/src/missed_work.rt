//! The run of a seed that does not meet the lines about who does the work.

ghost use Rattle.std.specs.Prelude.{◌≡◌, ◌<◌, IfOk, Err, Some, MatchOption};
ghost use Rattle.seed_verdicts.specs.Seeds.{loaded};
ghost use Rattle.schedule_makers.specs.FairLengths.{IsFairLength};
ghost use Rattle.seed_work.specs.SeedWork.{IsKnownOfSeed};

use image_file::Image;
use machine::{LoadFault, Machine};
use schedule_makers::{MadeEnd, fair_length, seeded};
use std::alloc::Global;
use work_rules::{WorkRule, first_missed_by};

/// The run of a seed that does not meet a line about who does the work.
#[derive(Clone, Copy, Debug, PartialEq, Eq)]
pub struct MissedWork {
    /// The seed.
    pub seed: u64,
    /// The place of the first line that it does not meet, among all.
    pub rule: usize,
    /// Why the run ends: one that is out of steps might meet the line later.
    pub end: MadeEnd,
}

/// The program whose runs are looked at, the lines, and how the schedules of the runs are made.
#[derive(Clone, Copy)]
pub(crate) struct Working<'a> {
    pub(crate) image: &'a Image,
    pub(crate) rules: &'a [WorkRule],
    /// How many steps the fair run of the image has.
    pub(crate) fair: usize,
    /// The most steps of a run.
    pub(crate) most: usize,
}

/// How many steps the fair run of an image has.
pub(crate) fn fair_length_of<const S: usize>(
    alloc: Global,
    image: &Image,
) -> Result<usize, LoadFault>
    ensures is { IfOk result (λ n. IsFairLength (loaded image.now) n) }
    ensures streams { result ≡ Err LoadFault.Streams → S < image.now.slim }
{
    let machine: Machine<'_, S> = Machine::load(alloc, image)?;
    Ok(fair_length(alloc, &machine)?)
}

/// The first line that the run of a seed does not meet; None where it meets all.
pub(crate) fn missed_by_seed<const S: usize>(
    alloc: Global,
    working: &Working<'_>,
    seed: u64,
) -> Result<Option<MissedWork>, LoadFault>
    ensures known { let w = working.now in IfOk result
        (λ found. IsKnownOfSeed w.image.now w.rules.now w.fair w.most seed found) }
    ensures streams { result ≡ Err LoadFault.Streams → S < working.now.image.now.slim }
{
    let mut machine: Machine<'_, S> = Machine::load(alloc, working.image)?;
    let made = seeded(alloc, &mut machine, seed, working.fair, working.most)?;
    match first_missed_by::<S>(alloc, working.image, &made.steps, working.rules)? {
        Some(rule) => Ok(Some(MissedWork {
            seed,
            rule,
            end: made.end,
        })),
        None => Ok(None),
    }
}
