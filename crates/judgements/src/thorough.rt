//! What seeds, and then every schedule, say of a submission.

ghost use Rattle.std.specs.Prelude.{◌≡◌, IfOk, IfErr, Some, true, false};
ghost use Rattle.judgements.specs.Faults.{IsSearchFault};
ghost use Rattle.judgements.specs.Known.{is_open};
ghost use Rattle.judgements.specs.Right.{IsRightBySchedules};
ghost use Rattle.judgements.specs.Shown.{IsLeftOpen, IsShownBy, IsShownWithin, judged_within, limits_of};
ghost use Rattle.judgements.specs.Shown.{IsOfSearch, IsRunFor};

use crate::by_schedules::{JudgedProgram, SearchJudgement, searched, undecided};
use crate::by_seeds::judged_by_seeds;
use crate::case_judgements::CaseJudgement;
use crate::cases::AskedJudging;
use crate::judge_faults::CaseFault;
use crate::verdict_kinds::VerdictKind;
use lab_requests::Bounds;
use program_searches::{Console, SearchBound, USUAL_MEGABYTES};
use std::alloc::Global;
use std::io::Write;
use std::thread::Threads;
use std::time::Clock;

/// The megabytes of the first search of a program.
const FIRST_MEGABYTES: usize = 200;

/// How often they are doubled at most: more than any machine's memory allows.
const MOST_DOUBLINGS: usize = 64;

/// What seeds say of a program, where the run of one of them is not right; else what every schedule says. Each search has
/// twice the megabytes of the one before, from 200 on, up to those that are given, and the first that is ended by something
/// else is the last. If that is not decided, what seeds say is called so too.
pub(crate) fn judged_thoroughly<X: Threads + Sync, C: Clock, E: Write>(
    rt: &X,
    alloc: Global,
    asked: AskedJudging,
    bounds: Bounds,
    judged: JudgedProgram<'_>,
    console: &mut Console<'_, C, E>,
) -> Result<CaseJudgement, CaseFault>
    ensures right { IfOk result (λ j. j.kind ≡ VerdictKind.Right
        → IsRightBySchedules judged.entry.image.now judged.entry.required.now) }
    ensures shown { IfOk result (λ j. IsShownBy
        (judged_within (Some bounds) asked judged.entry.image.now judged.entry.required.now) j) }
    ensures run { IfOk result (λ j. IsRunFor
        (judged_within (Some bounds) asked judged.entry.image.now judged.entry.required.now) true false j) }
    ensures fault { IfErr result (λ f. IsSearchFault (Some bounds) f) }
{
    let sampled = judged_by_seeds(rt, alloc, asked, judged.image, judged.required)?;
    if !is_open(sampled.kind) {
        return Ok(sampled);
    }
    let found = searched_widely(alloc, bounds, judged, console)?;
    if found.judgement.kind.is_not_decided() {
        return Ok(undecided(sampled, found));
    }
    Ok(found.judgement.with_seeds(sampled.known.seeds))
}

/// Whether what seeds say leaves open what every schedule does.
pub(crate) fn is_open(kind: VerdictKind) -> bool
    ensures right { kind ≡ VerdictKind.Right → result ≡ true }
    ensures is { result ≡ is_open kind }
{
    match kind {
        VerdictKind::Right | VerdictKind::NotDecided => true,
        VerdictKind::NotRead
        | VerdictKind::SourceFault
        | VerdictKind::Trap
        | VerdictKind::Deadlock
        | VerdictKind::Wrong
        | VerdictKind::RanOutOfSteps
        | VerdictKind::Spins
        | VerdictKind::NotJudged => false,
    }
}

/// What searches of a program say of it, each with twice the megabytes of the one before.
fn searched_widely<C: Clock, E: Write>(
    alloc: Global,
    bounds: Bounds,
    judged: JudgedProgram<'_>,
    console: &mut Console<'_, C, E>,
) -> Result<SearchJudgement, CaseFault>
    ensures right { IfOk result (λ s. s.judgement.kind ≡ VerdictKind.Right
        → IsRightBySchedules judged.entry.image.now judged.entry.required.now) }
    ensures shown { IfOk result (λ s. IsShownWithin bounds judged.entry.image.now judged.entry.required.now s.judgement) }
    ensures left { IfOk result (λ s. s.judgement.kind ≡ VerdictKind.NotDecided
        → IsLeftOpen (limits_of (Some bounds)) judged.entry.image.now judged.entry.required.now) }
    ensures known { IfOk result (λ s. IsOfSearch
        (limits_of (Some bounds)) judged.entry.image.now judged.entry.required.now s.judgement) }
    ensures fault { IfErr result (λ f. IsSearchFault (Some bounds) f) }
{
    let most = bounds.megabytes.unwrap_or(USUAL_MEGABYTES);
    let mut megabytes = most.min(FIRST_MEGABYTES);
    for _ in 0..MOST_DOUBLINGS {
        let bounds = Bounds {
            megabytes: Some(megabytes),
            ..bounds
        };
        let found = searched(alloc, bounds, judged, console)?;
        if megabytes >= most || !is_ended_by_memory(&found.judgement) {
            return Ok(found);
        }
        megabytes = megabytes.saturating_mul(2).min(most);
    }
    searched(alloc, bounds, judged, console)
}

/// Whether a search did not decide since what it held took too many megabytes.
fn is_ended_by_memory(judgement: &CaseJudgement) -> bool {
    judgement.kind == VerdictKind::NotDecided && judgement.known.bound == Some(SearchBound::Memory)
}
