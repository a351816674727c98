//! What random schedules say of a submission.

ghost use Rattle.std.specs.Prelude.{◌≡◌, ◌<◌, ◌+◌, false, IfOk, None, Some};
ghost use Rattle.seed_outcomes.specs.SeedVerdicts.Seeds.{AreJudged};
ghost use Rattle.judgements.specs.Cases.{seeds_of};
ghost use Rattle.judgements.specs.Flaws.{kind_of_run};
ghost use Rattle.judgements.specs.Known.{IsKnownByRuns, is_open, known_by};
ghost use Rattle.judgements.specs.Right.{IsRightBySeeds};
ghost use Rattle.end_kinds.specs.Statuses.{badness};
ghost use Rattle.judgements.specs.Statuses.{badness_of_run};
ghost use Rattle.judgements.specs.Shown.{EndsAsShown, IsShownWithoutSearch};

use crate::case_judgements::{CaseJudgement, Reason, ShownRun};
use crate::cases::AskedJudging;
use crate::knowledge::Known;
use crate::verdict_kinds::VerdictKind;
use expectation_files::Requirements;
use image_file::Image;
use image_machines::{by_room, loaded};
use machine::LoadFault;
use schedule_makers::{fair_length, seeded};
use seed_outcomes::seeds::{RunFlaw, SeedFlaw, Seeds, first_flaw, first_flaw_alone};
use seed_outcomes::states::judged_end;
use seed_outcomes::{SeedOutcome, SurveySeeds, outcomes_of, unshown_by_seeds};
use std::alloc::{AllocError, Global};
use std::thread::Threads;

impl AskedJudging {
    /// The seeds that are tried.
    pub(crate) fn sampled(self) -> Seeds
        ensures { result ≡ seeds_of self }
    {
        Seeds {
            first: 0,
            count: self.seeds,
            most: self.most,
        }
    }

    /// How many seeds were tried where this one is the last: they begin with 0.
    pub(crate) fn tried_up_to(self, seed: u64) -> usize
        requires { seed < self.seeds }
        ensures { result ≡ seed + 1 }
    {
        seed as usize + 1
    }
}

/// What random schedules say of a program of which this is required: by the first seed whose run is not right, what is wrong
/// with that run; where each is right, that it is right, or not decided, where none shows a claim that has to hold of one
/// world at least, or no stream is to loop alone, or to wait forever.
pub(crate) fn judged_by_seeds<X: Threads + Sync>(
    rt: &X,
    alloc: Global,
    asked: AskedJudging,
    image: &Image,
    required: &Requirements,
) -> Result<CaseJudgement, AllocError>
    ensures right { IfOk result (λ j. j.kind ≡ VerdictKind.Right
        → IsRightBySeeds image.now required.now (seeds_of asked)) }
    ensures shown { IfOk result (λ j. IsShownWithoutSearch asked image.now required.now j) }
    ensures known { IfOk result (λ j. IsKnownByRuns image.now required.now (seeds_of asked) j) }
    ensures status { IfOk result (λ j. asked.counts_all ≡ false → badness j.status ≡ badness_of_run j.reason) }
{
    let judgement = judged_by_runs(rt, alloc, asked, image, required)?;
    if !asked.counts_all {
        return Ok(judgement);
    }
    let outcomes = outcomes_by_runs(rt, alloc, asked, image, required)?;
    Ok(judgement.with_outcomes(outcomes))
}

/// The same, without the outcomes of all seeds.
fn judged_by_runs<X: Threads + Sync>(
    rt: &X,
    alloc: Global,
    asked: AskedJudging,
    image: &Image,
    required: &Requirements,
) -> Result<CaseJudgement, AllocError>
    ensures right { IfOk result (λ j. j.kind ≡ VerdictKind.Right
        → IsRightBySeeds image.now required.now (seeds_of asked)) }
    ensures shown { IfOk result (λ j. IsShownWithoutSearch asked image.now required.now j) }
    ensures known { IfOk result (λ j. IsKnownByRuns image.now required.now (seeds_of asked) j) }
    ensures status { IfOk result (λ j. badness j.status ≡ badness_of_run j.reason) }
{
    match flaw_of(rt, alloc, asked, image, required)? {
        Some(found) => judged_by_flaw(alloc, asked, image, required, found),
        None => judged_flawless(alloc, asked, image, required),
    }
}

/// The outcomes of all seeds, those that most seeds come to first.
fn outcomes_by_runs<X: Threads + Sync>(
    rt: &X,
    alloc: Global,
    asked: AskedJudging,
    image: &Image,
    required: &Requirements,
) -> Result<Vec<SeedOutcome>, AllocError> {
    let seeds = SurveySeeds {
        first: 0,
        count: asked.seeds,
        most: asked.most,
    };
    let mut outcomes = outcomes_of(rt, alloc, image, required, seeds)?;
    outcomes.sort_by_key(|outcome: &SeedOutcome| usize::MAX - outcome.runs)?;
    Ok(outcomes)
}

/// What is known of a program of which the run of each seed is right.
fn judged_flawless(
    alloc: Global,
    asked: AskedJudging,
    image: &Image,
    required: &Requirements,
) -> Result<CaseJudgement, AllocError>
    requires { AreJudged image.now required.now.ends.items required.now.claims.items (seeds_of asked) None }
    ensures right { IfOk result (λ j. j.kind ≡ VerdictKind.Right
        → IsRightBySeeds image.now required.now (seeds_of asked)) }
    ensures shown { IfOk result (λ j. IsShownWithoutSearch asked image.now required.now j) }
    ensures known { IfOk result (λ j. IsKnownByRuns image.now required.now (seeds_of asked) j) }
    ensures status { IfOk result (λ j. badness j.status ≡ badness_of_run j.reason) }
{
    let known = known_of(asked.seeds);
    if let Some(claim) = unshown_by_seeds(alloc, image, required.claims(), asked.sampled())? {
        let reason = Reason::NoRun { claim };
        return Ok(CaseJudgement::plain(alloc, VerdictKind::NotDecided, known, reason));
    }
    if required.never_busy().is_some() {
        let reason = Reason::NoRunCan;
        return Ok(CaseJudgement::plain(alloc, VerdictKind::NotDecided, known, reason));
    }
    if required.never_starved().is_some() {
        let reason = Reason::OpenWaits;
        return Ok(CaseJudgement::plain(alloc, VerdictKind::NotDecided, known, reason));
    }
    if !required.run_conditions().is_empty() {
        let reason = Reason::OpenConditions;
        return Ok(CaseJudgement::plain(alloc, VerdictKind::NotDecided, known, reason));
    }
    Ok(CaseJudgement::plain(alloc, VerdictKind::Right, known, Reason::Looked))
}

/// So many seeds were tried.
fn known_of(seeds: usize) -> Known
    ensures { result ≡ known_by None (Some seeds) }
{
    Known {
        seeds: Some(seeds),
        ..Known::NOTHING
    }
}

/// Of seeds the first whose run is not right, and what is wrong with it.
fn flaw_of<X: Threads + Sync>(
    rt: &X,
    alloc: Global,
    asked: AskedJudging,
    image: &Image,
    required: &Requirements,
) -> Result<Option<SeedFlaw>, AllocError>
    ensures { IfOk result (λ found. AreJudged
        image.now required.now.ends.items required.now.claims.items (seeds_of asked) found) }
{
    let found = by_room!(image, flaw_on::<X>(rt, alloc, asked, image, required));
    match found {
        Ok(found) => Ok(found),
        Err(LoadFault::NoMemory | LoadFault::Streams) => Err(AllocError),
    }
}

/// The same on machines with room for `S` streams a processor.
fn flaw_on<X: Threads + Sync, const S: usize>(
    rt: &X,
    alloc: Global,
    asked: AskedJudging,
    image: &Image,
    required: &Requirements,
) -> Result<Option<SeedFlaw>, LoadFault>
    ensures { IfOk result (λ found. AreJudged
        image.now required.now.ends.items required.now.claims.items (seeds_of asked) found) }
{
    let (ends, claims, seeds) = (required.ends(), required.claims(), asked.sampled());
    if asked.is_spread {
        first_flaw::<X, S>(rt, alloc, image, ends, claims, seeds)
    } else {
        first_flaw_alone::<S>(alloc, image, ends, claims, seeds)
    }
}

/// What a submission is with such a run.
fn kind_of(flaw: RunFlaw) -> VerdictKind
    ensures kind { result ≡ kind_of_run flaw }
    ensures decided { is_open result ≡ false }
{
    match flaw {
        RunFlaw::Trap => VerdictKind::Trap,
        RunFlaw::Deadlock => VerdictKind::Deadlock,
        RunFlaw::Missed { .. } | RunFlaw::Broken { .. } => VerdictKind::Wrong,
        RunFlaw::OutOfSteps => VerdictKind::RanOutOfSteps,
    }
}

/// What is known of a program with this flaw.
fn judged_by_flaw(
    alloc: Global,
    asked: AskedJudging,
    image: &Image,
    required: &Requirements,
    found: SeedFlaw,
) -> Result<CaseJudgement, AllocError>
    requires { AreJudged image.now required.now.ends.items required.now.claims.items (seeds_of asked) (Some found) }
    ensures right { IfOk result (λ j. ¬ (j.kind ≡ VerdictKind.Right)) }
    ensures shown { IfOk result (λ j. IsShownWithoutSearch asked image.now required.now j) }
    ensures known { IfOk result (λ j. IsKnownByRuns image.now required.now (seeds_of asked) j) }
    ensures status { IfOk result (λ j. badness j.status ≡ badness_of_run j.reason) }
{
    let run = run_shown(alloc, asked, image, required, found)?;
    let status = run.end.judgement.status();
    let tried = asked.tried_up_to(found.seed);
    let kind = kind_of(found.flaw);
    let mut judgement = CaseJudgement::plain(alloc, kind, known_of(tried), Reason::Run(run));
    judgement.status = status;
    Ok(judgement)
}

/// The run of a seed with this flaw, by its end.
fn run_shown(
    alloc: Global,
    asked: AskedJudging,
    image: &Image,
    required: &Requirements,
    found: SeedFlaw,
) -> Result<ShownRun, AllocError>
    ensures seed { IfOk result (λ run. run.seed ≡ found.seed) }
    ensures flaw { IfOk result (λ run. run.flaw ≡ found.flaw) }
    ensures end { IfOk result (λ run. EndsAsShown image.now required.now asked.most run) }
{
    by_room!(image, shown_run(alloc, asked, image, required, found))
}

/// The same on a machine with room for `S` streams a processor.
fn shown_run<const S: usize>(
    alloc: Global,
    asked: AskedJudging,
    image: &Image,
    required: &Requirements,
    found: SeedFlaw,
) -> Result<ShownRun, AllocError>
    ensures seed { IfOk result (λ run. run.seed ≡ found.seed) }
    ensures flaw { IfOk result (λ run. run.flaw ≡ found.flaw) }
    ensures end { IfOk result (λ run. EndsAsShown image.now required.now asked.most run) }
{
    let mut machine = loaded::<S>(alloc, image)?;
    let fair_steps = fair_length(alloc, &machine)?;
    seeded(alloc, &mut machine, found.seed, fair_steps, asked.most)?;
    Ok(ShownRun {
        seed: found.seed,
        flaw: found.flaw,
        end: judged_end(alloc, &machine, required.ends())?,
    })
}
