//! What is wrong with the run of a seed.

ghost use Rattle.std.specs.Prelude.{◌≡◌, ◌<◌, IfOk, Err};
ghost use Rattle.processor.specs.World.{run};
ghost use Rattle.schedule_makers.specs.Made.{IsEnd};
ghost use Rattle.seed_verdicts.specs.RunFlaws.{IsTold};
ghost use Rattle.seed_verdicts.specs.EndFlaws.{IsFlawless};
ghost use Rattle.seed_verdicts.specs.Seeds.{IsSeedTold};

use crate::broken_claims::first_broken;
use crate::end_flaws::end_flaw;
use crate::judging::Judging;
use crate::run_flaw::RunFlaw;
use machine::{LoadFault, Machine};
use processor::Step;
use schedule_makers::{MadeEnd, seeded};
use std::alloc::Global;

/// What is wrong with the run by the schedule that `seeded` makes by this seed; None where it is right.
///
/// `Streams` only where the image's slim is above `S`.
pub(crate) fn seed_flaw<const S: usize>(
    alloc: Global,
    judging: &Judging<'_>,
    seed: u64,
) -> Result<Option<RunFlaw>, LoadFault>
    ensures told { let j = judging.now in IfOk result
        (λ told. IsSeedTold j.image.now j.expected.now j.claims.now j.fair j.most seed told) }
    ensures streams { result ≡ Err LoadFault.Streams → S < judging.now.image.now.slim }
{
    let mut machine: Machine<'_, S> = Machine::load(alloc, judging.image)?;
    let made = seeded(alloc, &mut machine, seed, judging.fair, judging.most)?;
    if let Some(flaw) = end_flaw(&machine, made.end, judging.expected) {
        return Ok(Some(flaw));
    }
    way_flaw::<S>(alloc, judging, &made.steps, made.end)
}

/// What is wrong with a run by these steps before its end, which shows nothing: a broken claim, or the bound.
fn way_flaw<const S: usize>(
    alloc: Global,
    judging: &Judging<'_>,
    steps: &[Step],
    end: MadeEnd,
) -> Result<Option<RunFlaw>, LoadFault>
    requires end { let j = judging.now in IsEnd j.image.now (run j.image.now steps.now) end }
    requires flawless { let j = judging.now in IsFlawless j.image.now (run j.image.now steps.now) j.expected.now }
    ensures told { let j = judging.now in IfOk result
        (λ told. IsTold j.image.now steps.now j.expected.now j.claims.now told) }
    ensures streams { result ≡ Err LoadFault.Streams → S < judging.now.image.now.slim }
{
    if let Some(broken) = first_broken::<S>(alloc, judging.image, steps, judging.claims)? {
        return Ok(Some(RunFlaw::Broken {
            taken: broken.taken,
            claim: broken.claim,
        }));
    }
    match end {
        MadeEnd::OutOfSteps => Ok(Some(RunFlaw::OutOfSteps)),
        MadeEnd::NobodyRuns | MadeEnd::Standstill => Ok(None),
    }
}
