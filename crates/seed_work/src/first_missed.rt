//! The first of many seeds whose run does not meet the lines about who does the work.

ghost use Rattle.std.specs.Prelude.{◌≡◌, ◌<◌, ◌≤◌, ◌+◌, ◌-◌, ◌%◌, ◌^◌, ℕ, IfOk, Err, Some, None, MatchOption, IfSome, slice_get, length};
ghost use Rattle.seed_verdicts.specs.Seeds.{seed_at};
ghost use Rattle.seed_work.specs.SeedWork.{IsWorkJudged, AreKnownFrom, IsKnownOfSeed};

use crate::missed_work::{MissedWork, Working, fair_length_of, missed_by_seed};
use image_file::Image;
use machine::LoadFault;
use rayon::prelude::*;
use seed_verdicts::Seeds;
use std::alloc::Global;
use std::thread::Threads;
use work_rules::WorkRule;

/// How many seeds are run at first before it is looked at what they show.
const FIRST_COUNT: usize = 8;

/// The most seeds that are run before it is looked at what they show.
const MOST_COUNT: usize = 256;

/// Of seeds the first whose run does not meet all of these lines, and the first line that it does not meet; None where the
/// run of each meets all.
///
/// The work is shared among as many threads as there are processors, up to 32, and the answer is the one that a single
/// thread gives. Few seeds are run before what they show is looked at, then more and more.
///
/// `Streams` only where the image's slim is above `S`.
pub fn first_missed_by_seeds<R: Threads + Sync, const S: usize>(
    rt: &R,
    alloc: Global,
    image: &Image,
    rules: &[WorkRule],
    seeds: Seeds,
) -> Result<Option<MissedWork>, LoadFault>
    ensures judged { IfOk result (λ found. IsWorkJudged image.now rules.now seeds found) }
    ensures streams { result ≡ Err LoadFault.Streams → S < image.now.slim }
{
    let working = Working {
        image,
        rules,
        fair: fair_length_of::<S>(alloc, image)?,
        most: seeds.most,
    };
    let mut begin = 0;
    let mut count = FIRST_COUNT;
    while begin < seeds.count {
        let end = begin + count.min(seeds.count - begin);
        let found = missed_from::<R, S>(rt, alloc, &working, seeds.first, begin, end)?;
        if let Some(missed) = first_of(&found) {
            return Ok(Some(missed.1));
        }
        begin = end;
        count = (2 * count).min(MOST_COUNT);
    }
    Ok(None)
}

/// The same on the thread that calls.
pub fn first_missed_alone<const S: usize>(
    alloc: Global,
    image: &Image,
    rules: &[WorkRule],
    seeds: Seeds,
) -> Result<Option<MissedWork>, LoadFault>
    ensures judged { IfOk result (λ found. IsWorkJudged image.now rules.now seeds found) }
    ensures streams { result ≡ Err LoadFault.Streams → S < image.now.slim }
{
    let working = Working {
        image,
        rules,
        fair: fair_length_of::<S>(alloc, image)?,
        most: seeds.most,
    };
    for place in 0..seeds.count {
        let seed = seeds.first.wrapping_add(place as u64);
        if let Some(missed) = missed_by_seed::<S>(alloc, &working, seed)? {
            return Ok(Some(missed));
        }
    }
    Ok(None)
}

/// The lines that the runs of the seeds from one place to another do not meet, in their order.
fn missed_from<R: Threads + Sync, const S: usize>(
    rt: &R,
    alloc: Global,
    working: &Working<'_>,
    first: u64,
    begin: usize,
    end: usize,
) -> Result<Vec<Option<MissedWork>>, LoadFault>
    requires { begin ≤ end }
    ensures known { let w = working.now in IfOk result
        (λ v. AreKnownFrom w.image.now w.rules.now w.fair w.most first begin end v.items) }
    ensures memory { ¬ (result ≡ Err LoadFault.Streams) }
{
    let found = (begin..end)
        .into_par_iter()
        .map(
            |place: usize| -> Result<Option<MissedWork>, LoadFault>
                ensures { let w = working.entry.now in IfOk result (λ found. IsKnownOfSeed
                    w.image.now w.rules.now w.fair w.most (seed_at first place) found) }
            { missed_by_seed::<S>(alloc, working, first.wrapping_add(place as u64)) },
        )
        .with_min_len(1)
        .collect::<Result<Vec<Option<MissedWork>>, LoadFault>>(rt, alloc);
    match found {
        Ok(Ok(found)) => Ok(found),
        Ok(Err(_)) | Err(_) => Err(LoadFault::NoMemory),
    }
}

/// The first of some that is one, and its place.
fn first_of(found: &[Option<MissedWork>]) -> Option<(usize, MissedWork)>
    ensures within { IfSome result (λ f. f.0 < length found.now) }
    ensures first { MatchOption result
        ((k : ℕ) → k < length found.now → slice_get found.now k ≡ Some None)
        (λ f. (slice_get found.now f.0 ≡ Some (Some f.1)) × ((k : ℕ) → k < f.0 → slice_get found.now k ≡ Some None)) }
{
    for place in 0..found.len() {
        if let Some(missed) = found[place] {
            return Some((place, missed));
        }
    }
    None
}
