//! What one step of a machine did.

ghost use Rattle.std.specs.Prelude.{◌≡◌, IfOk, OnOk, OnErr};
ghost use Rattle.machine.specs.Processor.World.{after};
ghost use Rattle.step_views.specs.StepViews.{reference_of, IsViewOf};

use crate::places::Change;
use crate::seen::Seen;
use machine::Machine;
use machine::processors::{Next, Step};
use std::alloc::{AllocError, Global};
use stream_core::Outcome;
use tag_memory::{Reply, Request, serving_laws};

/// The most changes of a step: 47 parts of its stream and as many of one that it starts, two counts, a word's value and
/// its tags.
const MOST_CHANGES: usize = 98;

/// What a step asked of the memory.
#[derive(Clone, Copy, Debug, PartialEq, Eq)]
pub struct Reference {
    /// What was asked.
    pub request: Request,
    /// The byte address at which it ended: of the word that it acted on or was blocked by, or at which it was refused.
    /// Where a word forwarded the reference, it is not the one that was asked.
    pub address: u64,
    /// What the memory replied.
    pub reply: Reply,
}

/// What a step did.
#[derive(Debug, Drop)]
pub struct StepView {
    /// The step.
    pub step: Step,
    /// The pc of its stream before it; 0 where there is no such stream.
    pub pc: u32,
    /// How it came out.
    pub outcome: Outcome,
    /// What it asked of the memory; None where it asked nothing.
    pub reference: Option<Reference>,
    /// Each place that does not hold what it held, once.
    pub changes: Vec<Change>,
}

/// Takes a step, as [`Machine::step`] does, and reports what it did: the changes are exactly the differences between
/// the world before it and the world after it. `Err` comes before the step: the machine is as it was.
pub fn take_step<const S: usize>(
    alloc: Global,
    machine: &mut Machine<'_, S>,
    step: Step,
) -> Result<StepView, AllocError>
    ensures view { IfOk result (λ v. IsViewOf machine.old.image machine.old.world step v) }
    ensures world { OnOk result (machine.new.world ≡ after machine.old.image machine.old.world step) }
    ensures image { machine.new.image ≡ machine.old.image }
    ensures err { OnErr result (machine.new ≡ machine.old) }
{
    let mut changes = Vec::with_capacity(alloc, MOST_CHANGES)?;
    let reference = reference_of(machine, step);
    let before = Seen::of(machine, step, &reference);
    let outcome = machine.step(step.p, step.s);
    serving_laws();
    before.note_changes(&mut changes, machine, step);
    changes.shrink_to_fit();
    Ok(StepView {
        step,
        pc: before.pc(),
        outcome,
        reference,
        changes,
    })
}

/// What a step would ask of the memory, where it would end, and the reply; None if it would ask nothing.
pub fn reference_of<const S: usize>(machine: &Machine<'_, S>, step: Step) -> Option<Reference>
    ensures { result ≡ reference_of machine.now.image machine.now.world step }
{
    match machine.next(step.p, step.s) {
        Next::Skip | Next::Local => None,
        Next::Ask(request) => {
            let ending = machine.ending(&request);
            Some(Reference {
                request,
                address: ending.address,
                reply: ending.reply,
            })
        }
    }
}
