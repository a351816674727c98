//! What the runs of seeds come to.

ghost use Rattle.std.specs.Prelude.{◌≡◌, ◌≤◌, IfOk};
ghost use Rattle.seed_outcomes.specs.SeedLists.{seeds_between};
ghost use Rattle.seed_outcomes.specs.SeedRuns.{surveyed_program, IsSeedRun};
ghost use Rattle.space_ends.specs.FirstBroken.{IsBrokenClaim};
ghost use Rattle.seed_outcomes.specs.Outcomes.{AreOutcomes};

use crate::adding::add_outcome;
use crate::outcomes::SeedOutcome;
use claims::Claim;
use expectation_files::Requirements;
use image_file::Image;
use image_machines::loaded;
use machine::LoadFault;
use processor::Step;
use schedule_makers::seeded;
use space_ends::seeds::first_broken;
use space_ends::states::{EndJudgement, judged_end};
use std::alloc::{AllocError, Global};

/// A program, what is required of it, and how the schedule of a seed is made of it.
#[derive(Clone, Copy)]
pub(crate) struct Surveyed<'a> {
    /// The program.
    pub image: &'a Image,
    /// What is required of it.
    pub required: &'a Requirements,
    /// How many steps the program's fair run has.
    pub fair_steps: usize,
    /// The most steps of a schedule.
    pub most: usize,
}

/// The outcomes of the seeds from one place to another, of those that begin with the first, in the order of their first
/// seeds.
pub(crate) fn outcomes_between<const S: usize>(
    alloc: Global,
    surveyed: &Surveyed<'_>,
    first: u64,
    begin: usize,
    end: usize,
) -> Result<Vec<SeedOutcome>, AllocError>
    requires { begin ≤ end }
    ensures { IfOk result (λ v. AreOutcomes (surveyed_program surveyed.now) (seeds_between first begin end) v.items) }
{
    let mut outcomes = Vec::new(alloc);
    for place in begin..end {
        let outcome = outcome_of::<S>(alloc, surveyed, first.wrapping_add(place as u64))?;
        add_outcome(&mut outcomes, outcome)?;
    }
    Ok(outcomes)
}

/// The outcome of one seed.
fn outcome_of<const S: usize>(
    alloc: Global,
    surveyed: &Surveyed<'_>,
    seed: u64,
) -> Result<SeedOutcome, AllocError>
    ensures seed { IfOk result (λ o. o.seed ≡ seed) }
    ensures runs { IfOk result (λ o. o.runs ≡ 1) }
    ensures run { IfOk result (λ o. IsSeedRun (surveyed_program surveyed.now) seed o.steps o.judgement o.state) }
{
    let mut machine = loaded::<S>(alloc, surveyed.image)?;
    let made = seeded(
        alloc,
        &mut machine,
        seed,
        surveyed.fair_steps,
        surveyed.most,
    )?;
    let end = judged_end(alloc, &machine, surveyed.required.ends())?;
    let broken = broken_by::<S>(
        alloc,
        surveyed.image,
        &made.steps,
        surveyed.required.claims(),
    )?;
    Ok(SeedOutcome {
        judgement: EndJudgement {
            broken,
            ..end.judgement
        },
        state: end.state,
        seed,
        steps: made.steps.len(),
        runs: 1,
    })
}

/// The place of the first claim that is broken on the way through these steps.
fn broken_by<const S: usize>(
    alloc: Global,
    image: &Image,
    steps: &[Step],
    claims: &[Claim],
) -> Result<Option<usize>, AllocError>
    ensures { IfOk result (λ broken. IsBrokenClaim image.now steps.now claims.now broken) }
{
    if claims.is_empty() {
        return Ok(None);
    }
    match first_broken::<S>(alloc, image, steps, claims) {
        Ok(Some(broken)) => Ok(Some(broken.claim)),
        Ok(None) => Ok(None),
        Err(LoadFault::NoMemory | LoadFault::Streams) => Err(AllocError),
    }
}
