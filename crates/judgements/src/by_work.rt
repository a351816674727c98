//! What the runs of seeds say of who does the work in a program.

ghost use Rattle.std.specs.Prelude.{◌≡◌, ◌<◌, false, IfOk, Some};
ghost use Rattle.seed_work.specs.SeedWork.{IsWorkJudged};
ghost use Rattle.judgements.specs.Cases.{seeds_of};
ghost use Rattle.judgements.specs.Flaws.{kind_of_work};
ghost use Rattle.judgements.specs.Known.{has_work};
ghost use Rattle.judgements.specs.Right.{IsWorkDone};
ghost use Rattle.judgements.specs.Statuses.{IsStatusOfRun};
ghost use Rattle.judgements.specs.Shown.{IsRunFor, IsShownBy, judged_as};

use crate::by_schedules::JudgedProgram;
use crate::case_judgements::{CaseJudgement, Reason};
use crate::cases::AskedJudging;
use crate::thorough::is_open;
use crate::verdict_kinds::VerdictKind;
use image_file::Image;
use image_machines::by_room;
use machine::LoadFault;
use schedule_makers::MadeEnd;
use seed_work::rules::WorkRule;
use seed_work::{MissedWork, first_missed_alone, first_missed_by_seeds};
use std::alloc::{AllocError, Global};
use std::thread::Threads;

/// What is known of a program of which this is known by its ends and claims. If that says that it is right, or leaves it
/// open, the run of each seed has to meet the lines about who does the work as well: the first run that does not decides.
pub(crate) fn with_work<X: Threads + Sync>(
    rt: &X,
    alloc: Global,
    asked: AskedJudging,
    judged: JudgedProgram<'_>,
    judgement: CaseJudgement,
) -> Result<CaseJudgement, AllocError>
    ensures right { IfOk result (λ j. j.kind ≡ VerdictKind.Right → judgement.kind ≡ VerdictKind.Right) }
    ensures work { IfOk result (λ j. j.kind ≡ VerdictKind.Right
        → IsWorkDone judged.entry.image.now judged.entry.required.now (seeds_of asked)) }
    ensures shown { IfOk result (λ j.
        IsShownBy (judged_as asked judged.entry.image.now judged.entry.required.now) judgement
        → IsShownBy (judged_as asked judged.entry.image.now judged.entry.required.now) j) }
    ensures run { IfOk result (λ j.
        IsShownBy (judged_as asked judged.entry.image.now judged.entry.required.now) judgement
        → IsRunFor (judged_as asked judged.entry.image.now judged.entry.required.now) asked.is_thorough false judgement
        → IsRunFor (judged_as asked judged.entry.image.now judged.entry.required.now) asked.is_thorough
        (has_work judged.entry.required.now) j) }
    ensures status { IfOk result (λ j.
        IsShownBy (judged_as asked judged.entry.image.now judged.entry.required.now) judgement
        → IsStatusOfRun asked judgement → IsStatusOfRun asked j) }
{
    if judged.required.work().is_empty() {
        return Ok(judgement);
    }
    if !is_open(judgement.kind) {
        return Ok(judgement);
    }
    match missed_work(rt, alloc, asked, judged.image, judged.required.work())? {
        Some(missed) => {
            let tried = asked.tried_up_to(missed.seed);
            Ok(judged_by_work(judgement, missed, tried))
        }
        None => Ok(judgement.with_seeds(Some(asked.seeds))),
    }
}

/// Of seeds the first whose run does not meet all of these lines.
fn missed_work<X: Threads + Sync>(
    rt: &X,
    alloc: Global,
    asked: AskedJudging,
    image: &Image,
    rules: &[WorkRule],
) -> Result<Option<MissedWork>, AllocError>
    ensures { IfOk result (λ found. IsWorkJudged image.now rules.now (seeds_of asked) found) }
{
    let found = by_room!(image, missed_on::<X>(rt, alloc, asked, image, rules));
    match found {
        Ok(found) => Ok(found),
        Err(LoadFault::NoMemory | LoadFault::Streams) => Err(AllocError),
    }
}

/// The same on machines with room for `S` streams a processor.
fn missed_on<X: Threads + Sync, const S: usize>(
    rt: &X,
    alloc: Global,
    asked: AskedJudging,
    image: &Image,
    rules: &[WorkRule],
) -> Result<Option<MissedWork>, LoadFault>
    ensures { IfOk result (λ found. IsWorkJudged image.now rules.now (seeds_of asked) found) }
{
    let seeds = asked.sampled();
    if asked.is_spread {
        first_missed_by_seeds::<X, S>(rt, alloc, image, rules, seeds)
    } else {
        first_missed_alone::<S>(alloc, image, rules, seeds)
    }
}

/// What is known of a program of which the run of a seed, the last of so many, does not meet a line about who does the work.
fn judged_by_work(judgement: CaseJudgement, missed: MissedWork, tried: usize) -> CaseJudgement
    ensures kind { result.kind ≡ kind_of_work missed.end }
    ensures wrong { ¬ (result.kind ≡ VerdictKind.Right) }
    ensures known { result.known ≡ record judgement.known { seeds = Some tried } }
    ensures reason { result.reason ≡ Reason.Work missed }
    ensures status { result.status ≡ judgement.status }
{
    let mut judgement = judgement;
    judgement.kind = kind_of(missed.end);
    judgement.known.seeds = Some(tried);
    judgement.reason = Reason::Work(missed);
    judgement
}

/// What a submission is whose run ends so, and does not meet a line about who does the work: a longer run might meet it.
fn kind_of(end: MadeEnd) -> VerdictKind
    ensures kind { result ≡ kind_of_work end }
    ensures wrong { ¬ (result ≡ VerdictKind.Right) }
{
    match end {
        MadeEnd::NobodyRuns | MadeEnd::Standstill => VerdictKind::Wrong,
        MadeEnd::OutOfSteps => VerdictKind::RanOutOfSteps,
    }
}
