//! What every schedule says of a submission.

ghost use Rattle.std.specs.Prelude.{◌≡◌, ◌⊎◌, true, false, IsTrue, IfOk, IfErr, None, Some, []};
ghost use Rattle.judgements.specs.Faults.{IsSearchFault};
ghost use Rattle.judgements.specs.Known.{HasDecided, IsKnownBySearch, is_by_search, is_open, known_by};
ghost use Rattle.judgements.specs.Right.{IsRightBySchedules};
ghost use Rattle.judgements.specs.Shown.{JudgedAs, IsFound, IsLeftOpen, IsShownBy, IsShownFor, IsShownWithin, judged_within, limits_of};
ghost use Rattle.judgements.specs.Shown.{IsOfSearch, IsRunFor};

use crate::by_seeds::judged_by_seeds;
use crate::case_judgements::{CaseJudgement, Reason};
use crate::cases::AskedJudging;
use crate::end_flaws::first_end_flaw;
use crate::evaded::first_evasion;
use crate::judge_faults::CaseFault;
use crate::knowledge::Known;
use crate::starved::first_starving;
use crate::verdict_kinds::VerdictKind;
use expectation_files::Requirements;
use image_file::Image;
use lab_requests::Bounds;
use program_searches::{Console, Explored, ProgramSearch, explore_program};
use std::alloc::{AllocError, Global};
use std::io::Write;
use std::thread::Threads;
use std::time::Clock;

/// A program, and what is required of it.
#[derive(Clone, Copy)]
pub(crate) struct JudgedProgram<'a> {
    /// Its image, with the cells of a case.
    pub image: &'a Image,
    /// What the case requires of it.
    pub required: &'a Requirements,
}

/// What a search among the schedules of a program says of it.
#[derive(Drop)]
pub(crate) struct SearchJudgement {
    /// It, by what the search found alone.
    pub judgement: CaseJudgement,
    /// Whether the search has shown each claim that has to hold of one world at least.
    pub is_shown: bool,
}

/// What every schedule says of a program: the first that holds of any of its ends of a trap, a deadlock, a wrong end, a
/// broken claim, a set of worlds that spin. Where none does, it is whether some schedule shows each claim that has to hold
/// of one world at least, then who can wait forever, where nobody is to, and then whether all runs keep each condition. If
/// the search has none of them and did not find all worlds, or does not know of these, random schedules are tried: what they
/// say, and where they say right, that it is not decided. The status is the worst over all.
pub(crate) fn judged_by_schedules<X: Threads + Sync, C: Clock, E: Write>(
    rt: &X,
    alloc: Global,
    asked: AskedJudging,
    bounds: Bounds,
    judged: JudgedProgram<'_>,
    console: &mut Console<'_, C, E>,
) -> Result<CaseJudgement, CaseFault>
    ensures right { IfOk result (λ j. j.kind ≡ VerdictKind.Right
        → IsRightBySchedules judged.entry.image.now judged.entry.required.now) }
    ensures shown { IfOk result (λ j. IsShownBy
        (judged_within (Some bounds) asked judged.entry.image.now judged.entry.required.now) j) }
    ensures run { IfOk result (λ j. IsRunFor
        (judged_within (Some bounds) asked judged.entry.image.now judged.entry.required.now) false false j) }
    ensures fault { IfErr result (λ f. IsSearchFault (Some bounds) f) }
{
    let searched = searched(alloc, bounds, judged, console)?;
    if searched.judgement.kind.is_not_decided() {
        let sampled = judged_by_seeds(rt, alloc, asked, judged.image, judged.required)?;
        return Ok(undecided(sampled, searched));
    }
    Ok(searched.judgement)
}

/// What a search of a program that goes so far says of it.
pub(crate) fn searched<C: Clock, E: Write>(
    alloc: Global,
    bounds: Bounds,
    judged: JudgedProgram<'_>,
    console: &mut Console<'_, C, E>,
) -> Result<SearchJudgement, CaseFault>
    ensures right { IfOk result (λ s. s.judgement.kind ≡ VerdictKind.Right
        → IsRightBySchedules judged.entry.image.now judged.entry.required.now) }
    ensures shown { IfOk result (λ s. IsShownWithin bounds judged.entry.image.now judged.entry.required.now s.judgement) }
    ensures left { IfOk result (λ s. s.judgement.kind ≡ VerdictKind.NotDecided
        → IsLeftOpen (limits_of (Some bounds)) judged.entry.image.now judged.entry.required.now) }
    ensures known { IfOk result (λ s. IsOfSearch
        (limits_of (Some bounds)) judged.entry.image.now judged.entry.required.now s.judgement) }
    ensures fault { IfErr result (λ f. IsSearchFault (Some bounds) f) }
{
    let search = search_of(bounds, judged);
    let found = explore_program(alloc, judged.image, &search, console)?;
    let is_shown = found.unshown.is_none();
    let judgement = judged_by_search(alloc, found)?;
    Ok(SearchJudgement {
        judgement,
        is_shown,
    })
}

/// A search among all schedules of a program that goes so far.
fn search_of<'a>(bounds: Bounds, judged: JudgedProgram<'a>) -> ProgramSearch<'a>
    ensures required { result.required.now ≡ judged.entry.required.now }
    ensures begin { result.begin.now ≡ [] }
    ensures bounds { result.bounds ≡ bounds }
{
    ProgramSearch {
        required: judged.required,
        begin: &[],
        bounds,
        is_plain: false,
    }
}

/// What a search says of a program.
fn judged_by_search(alloc: Global, found: Explored<'_>) -> Result<CaseJudgement, AllocError>
    ensures right { IfOk result (λ j. j.kind ≡ VerdictKind.Right → IsTrue found.entry.is_right) }
    ensures shown { IfOk result (λ j. (p : JudgedAs) → IsFound p.limits p.image p.required found.entry
        → IsShownBy p j) }
    ensures left { IfOk result (λ j. (p : JudgedAs) → IsFound p.limits p.image p.required found.entry
        → j.kind ≡ VerdictKind.NotDecided → IsLeftOpen p.limits p.image p.required) }
    ensures known { IfOk result (λ j. IsKnownBySearch found.entry j) }
{
    let known = known_of(&found);
    let status = found.status();
    let decided = decided_by(alloc, &found)?;
    let mut judgement = CaseJudgement::plain(alloc, decided.0, known, decided.1);
    judgement.status = status;
    judgement.ends = found.ends;
    Ok(judgement)
}

/// What a program is by what a search found, and for which reason.
fn decided_by(alloc: Global, found: &Explored<'_>) -> Result<(VerdictKind, Reason), AllocError>
    ensures right { IfOk result (λ d. d.0 ≡ VerdictKind.Right → IsTrue found.now.is_right) }
    ensures shown { IfOk result (λ d. (p : JudgedAs) → IsFound p.limits p.image p.required found.now
        → IsShownFor p found.now.ends.items d.0 d.1) }
    ensures left { IfOk result (λ d. (p : JudgedAs) → IsFound p.limits p.image p.required found.now
        → d.0 ≡ VerdictKind.NotDecided → IsLeftOpen p.limits p.image p.required) }
    ensures searched { IfOk result (λ d. is_by_search d.1 ≡ true) }
    ensures decided { IfOk result (λ d. HasDecided found.now found.now.ends.items d.0 d.1) }
{
    if let Some(flawed) = first_end_flaw(&found.ends) {
        return Ok((flawed.flaw.kind(), Reason::End(flawed.end)));
    }
    if let Some(claim) = found.unkept().unshown {
        return Ok((VerdictKind::Wrong, Reason::NoSchedule { claim }));
    }
    let starved = first_starving(alloc, found)?;
    if let Some(starving) = starved {
        return Ok((VerdictKind::Wrong, Reason::Starved(starving)));
    }
    let evaded = first_evasion(alloc, found)?;
    if let Some(evasion) = evaded {
        return Ok((VerdictKind::Wrong, Reason::Evaded(evasion)));
    }
    if found.is_right {
        return Ok((VerdictKind::Right, Reason::Looked));
    }
    Ok((VerdictKind::NotDecided, Reason::Looked))
}

/// What a search found.
fn known_of(found: &Explored<'_>) -> Known
    ensures { result ≡ known_by (Some found.now) None }
{
    Known {
        worlds: Some(found.worlds()),
        is_every: found.is_complete,
        bound: found.bound,
        seeds: None,
    }
}

/// What is known of a program that a search did not decide: what random schedules say, and all that was looked at.
pub(crate) fn undecided(sampled: CaseJudgement, searched: SearchJudgement) -> CaseJudgement
    ensures right { ¬ (result.kind ≡ VerdictKind.Right) }
    ensures shown { (p : JudgedAs) → IsLeftOpen p.limits p.image p.required → IsShownBy p sampled
        → IsShownBy p result }
    ensures known { result.known ≡ record searched.judgement.known { seeds = sampled.known.seeds } }
    ensures kept { is_open sampled.kind ≡ false → result.reason ≡ sampled.reason }
    ensures left { is_open sampled.kind ≡ true → (result.kind ≡ VerdictKind.NotDecided)
        × ((result.reason ≡ Reason.Looked) ⊎ (result.reason ≡ sampled.reason)) }
{
    let mut judgement = not_decided(sampled, searched.is_shown);
    judgement.known = Known {
        seeds: judgement.known.seeds,
        ..searched.judgement.known
    };
    judgement.status = judgement.status.worse(searched.judgement.status);
    judgement
}

/// The judgement by seeds of a program of which a search did not decide: it is not decided in place of right. Where
/// `is_shown`, the search has shown each claim that has to hold of one world at least. That runs alone can't show that no
/// stream loops is no reason after a search.
fn not_decided(sampled: CaseJudgement, is_shown: bool) -> CaseJudgement
    ensures right { ¬ (result.kind ≡ VerdictKind.Right) }
    ensures shown { (p : JudgedAs) → IsLeftOpen p.limits p.image p.required → IsShownBy p sampled
        → IsShownBy p result }
    ensures known { result.known ≡ sampled.known }
    ensures kept { is_open sampled.kind ≡ false → result.reason ≡ sampled.reason }
    ensures left { is_open sampled.kind ≡ true → (result.kind ≡ VerdictKind.NotDecided)
        × ((result.reason ≡ Reason.Looked) ⊎ (result.reason ≡ sampled.reason)) }
{
    let is_answered = is_shown || is_of_runs_alone(&sampled.reason);
    let mut judgement = sampled;
    if judgement.kind == VerdictKind::Right {
        judgement.kind = VerdictKind::NotDecided;
    }
    if is_answered && judgement.kind == VerdictKind::NotDecided {
        judgement.reason = Reason::Looked;
    }
    judgement
}

/// Whether the reason is that no run can show it.
fn is_of_runs_alone(reason: &Reason) -> bool {
    matches!(reason, Reason::NoRunCan)
}
