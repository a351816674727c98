//! The outcomes of seeds.

ghost use Rattle.std.specs.Prelude.{◌≡◌, ◌≤◌, ◌<◌, IfOk, OnOk};
ghost use Rattle.seed_outcomes.specs.SeedLists.{seeds_between};
ghost use Rattle.seed_outcomes.specs.SeedRuns.{surveyed_program};
ghost use Rattle.seed_outcomes.specs.Outcomes.{CountsSeeds, AreOutcomes, AreOutcomesOf, runs_in_all};
ghost use Rattle.seed_outcomes.specs.Sharing.{AreShared};
ghost use Rattle.seed_outcomes.specs.Adding.{AreAdded};
ghost use Rattle.seed_outcomes.specs.Parts.{part_begin, part_end, all_outcomes};

use crate::adding::add_outcomes;
use crate::outcomes::SeedOutcome;
use crate::parts::{begin_of_part, end_of_part, part_size, parts_of};
use crate::seed_runs::{Surveyed, outcomes_between};
use expectation_files::Requirements;
use image_file::Image;
use image_machines::{by_room, loaded};
use rayon::prelude::*;
use schedule_makers::fair_length;
use std::alloc::{AllocError, Global};
use std::thread::Threads;

/// How many seeds are shared out among threads at once: so many that those which are done first wait for little.
const AT_ONCE: usize = 131_072;

/// Which seeds are run, and for how many steps at most.
#[derive(Clone, Copy)]
pub struct SurveySeeds {
    /// The first seed. After the greatest seed comes 0.
    pub first: u64,
    /// How many there are.
    pub count: usize,
    /// The most steps of each schedule.
    pub most: usize,
}

/// The outcomes of the schedules of these seeds, in the order of their first seeds. Each seed is counted by one of them,
/// whose judgement and state are those of the end of its run.
pub fn outcomes_of<X: Threads + Sync>(
    rt: &X,
    alloc: Global,
    image: &Image,
    required: &Requirements,
    seeds: SurveySeeds,
) -> Result<Vec<SeedOutcome>, AllocError>
    ensures outcomes { IfOk result (λ v. AreOutcomesOf image.now required.now seeds v.items) }
    ensures runs { IfOk result (λ v. runs_in_all v.items ≡ seeds.count) }
{
    by_room!(image, outcomes_on::<X>(rt, alloc, image, required, seeds))
}

/// The same on machines with room for `S` streams a processor.
fn outcomes_on<X: Threads + Sync, const S: usize>(
    rt: &X,
    alloc: Global,
    image: &Image,
    required: &Requirements,
    seeds: SurveySeeds,
) -> Result<Vec<SeedOutcome>, AllocError>
    ensures outcomes { IfOk result (λ v. AreOutcomesOf image.now required.now seeds v.items) }
    ensures runs { IfOk result (λ v. runs_in_all v.items ≡ seeds.count) }
{
    let machine = loaded::<S>(alloc, image)?;
    let fair_steps = fair_length(alloc, &machine)?;
    let surveyed = Surveyed {
        image,
        required,
        fair_steps,
        most: seeds.most,
    };
    let mut outcomes = Vec::new(alloc);
    let mut begin = 0;
    while begin < seeds.count {
        let end = begin + AT_ONCE.min(seeds.count - begin);
        let found = outcomes_of_parts::<X, S>(rt, alloc, &surveyed, seeds.first, begin, end)?;
        add_parts(&mut outcomes, found)?;
        begin = end;
    }
    Ok(outcomes)
}

/// The outcomes of the parts of the seeds from one place to another, over all cores.
fn outcomes_of_parts<X: Threads + Sync, const S: usize>(
    rt: &X,
    alloc: Global,
    surveyed: &Surveyed<'_>,
    first: u64,
    begin: usize,
    end: usize,
) -> Result<Vec<Vec<SeedOutcome>>, AllocError>
    requires { begin ≤ end }
    ensures { IfOk result (λ v. AreShared (CountsSeeds (surveyed_program surveyed.now)) (seeds_between first begin end)
        (all_outcomes v.items)) }
{
    let size = part_size(rt, end - begin);
    let found = (0..parts_of(end - begin, size))
        .into_par_iter()
        .map(
            |part: usize| -> Result<Vec<SeedOutcome>, AllocError>
                ensures { IfOk result (λ v. AreOutcomes (surveyed_program surveyed.entry.now)
                    (seeds_between first (part_begin begin end size part) (part_end begin end size part)) v.items) }
            {
                let from = begin_of_part(begin, end, size, part);
                outcomes_between::<S>(alloc, surveyed, first, from, end_of_part(from, end, size))
            },
        )
        .with_min_len(1)
        .collect::<Result<Vec<Vec<SeedOutcome>>, AllocError>>(rt, alloc);
    match found {
        Ok(Ok(found)) => Ok(found),
        Ok(Err(_)) | Err(_) => Err(AllocError),
    }
}

/// Adds the outcomes of parts, in the order of the parts.
fn add_parts(
    outcomes: &mut Vec<SeedOutcome>,
    parts: Vec<Vec<SeedOutcome>>,
) -> Result<(), AllocError>
    ensures { OnOk result (AreAdded outcomes.old.items (all_outcomes parts.items) outcomes.new.items) }
{
    for part in parts {
        add_outcomes(outcomes, part)?;
    }
    Ok(())
}
