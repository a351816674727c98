//! The least of many seeds whose run is not right.

ghost use Rattle.std.specs.Prelude.{◌≡◌, ◌<◌, ◌≤◌, ◌+◌, ◌-◌, ◌%◌, ◌^◌, ◌↔◌, ℕ, IfOk, Err, MatchOption, IfSome, Some, None, slice_get, length};
ghost use Rattle.seed_verdicts.specs.Seeds.{AreJudged, AreToldFrom, IsSeedTold, seed_at};

use crate::judging::{Judging, fair_length_of};
use crate::run_flaw::{RunFlaw, SeedFlaw, Seeds};
use crate::seed_runs::seed_flaw;
use claims::Claim;
use expectations::Expectation;
use image_file::Image;
use machine::LoadFault;
use rayon::prelude::*;
use std::alloc::Global;
use std::thread::Threads;

/// How many seeds are run at first before it is looked at what they show.
const FIRST_COUNT: usize = 8;

/// The most seeds that are run before it is looked at what they show.
const MOST_COUNT: usize = 256;

/// Of seeds the first whose run is not right, and what is wrong with that run; None where the run of each is right. A run
/// is right exactly where no stream runs at its end, all that is expected is so there, each trap that stopped a stream is
/// one that is expected of it, and the claims hold of each world on its way.
///
/// The work is shared among as many threads as there are processors, up to 32, and the answer is the one that a single
/// thread gives. Few seeds are run before what they show is looked at, then more and more: a program that is wrong by
/// some of the first costs little.
///
/// `Streams` exactly where the image's slim is above `S`.
pub fn first_flaw<R: Threads + Sync, const S: usize>(
    rt: &R,
    alloc: Global,
    image: &Image,
    expected: &[Expectation],
    claims: &[Claim],
    seeds: Seeds,
) -> Result<Option<SeedFlaw>, LoadFault>
    ensures judged { IfOk result (λ found. AreJudged image.now expected.now claims.now seeds found) }
    ensures streams { (result ≡ Err LoadFault.Streams) ↔ (S < image.now.slim) }
{
    let judging = Judging {
        image,
        expected,
        claims,
        fair: fair_length_of::<S>(alloc, image)?,
        most: seeds.most,
    };
    let mut begin = 0;
    let mut count = FIRST_COUNT;
    while begin < seeds.count {
        let end = begin + count.min(seeds.count - begin);
        let known = flaws_of::<R, S>(rt, alloc, &judging, seeds.first, begin, end)?;
        if let Some((place, flaw)) = first_known(&known) {
            let seed = seeds.first.wrapping_add((begin + place) as u64);
            return Ok(Some(SeedFlaw { seed, flaw }));
        }
        begin = end;
        count = (2 * count).min(MOST_COUNT);
    }
    Ok(None)
}

/// The same on the thread that calls.
pub fn first_flaw_alone<const S: usize>(
    alloc: Global,
    image: &Image,
    expected: &[Expectation],
    claims: &[Claim],
    seeds: Seeds,
) -> Result<Option<SeedFlaw>, LoadFault>
    ensures judged { IfOk result (λ found. AreJudged image.now expected.now claims.now seeds found) }
    ensures streams { (result ≡ Err LoadFault.Streams) ↔ (S < image.now.slim) }
{
    let judging = Judging {
        image,
        expected,
        claims,
        fair: fair_length_of::<S>(alloc, image)?,
        most: seeds.most,
    };
    for place in 0..seeds.count {
        let seed = seeds.first.wrapping_add(place as u64);
        if let Some(flaw) = seed_flaw::<S>(alloc, &judging, seed)? {
            return Ok(Some(SeedFlaw { seed, flaw }));
        }
    }
    Ok(None)
}

/// What is wrong with the runs of the seeds from one place to another, in their order.
fn flaws_of<R: Threads + Sync, const S: usize>(
    rt: &R,
    alloc: Global,
    judging: &Judging<'_>,
    first: u64,
    begin: usize,
    end: usize,
) -> Result<Vec<Option<RunFlaw>>, LoadFault>
    requires { begin ≤ end }
    ensures known { let j = judging.now in IfOk result
        (λ v. AreToldFrom j.image.now j.expected.now j.claims.now j.fair j.most first begin end v.items) }
    ensures memory { ¬ (result ≡ Err LoadFault.Streams) }
{
    let known = (begin..end)
        .into_par_iter()
        .map(
            |place: usize| -> Result<Option<RunFlaw>, LoadFault>
                ensures { let j = judging.entry.now in IfOk result (λ known. IsSeedTold
                    j.image.now j.expected.now j.claims.now j.fair j.most (seed_at first place) known) }
            { seed_flaw::<S>(alloc, judging, first.wrapping_add(place as u64)) },
        )
        .with_min_len(1)
        .collect::<Result<Vec<Option<RunFlaw>>, LoadFault>>(rt, alloc);
    match known {
        Ok(Ok(known)) => Ok(known),
        Ok(Err(_)) | Err(_) => Err(LoadFault::NoMemory),
    }
}

/// The first flaw of some, and its place.
fn first_known(known: &[Option<RunFlaw>]) -> Option<(usize, RunFlaw)>
    ensures within { IfSome result (λ f. f.0 < length known.now) }
    ensures first { MatchOption result
        ((k : ℕ) → k < length known.now → slice_get known.now k ≡ Some None)
        (λ f. (slice_get known.now f.0 ≡ Some (Some f.1)) × ((k : ℕ) → k < f.0 → slice_get known.now k ≡ Some None)) }
{
    for place in 0..known.len() {
        if let Some(flaw) = known[place] {
            return Some((place, flaw));
        }
    }
    None
}
