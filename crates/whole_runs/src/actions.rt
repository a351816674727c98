//! What the steps of a run did, from which findings are computed.

ghost use Rattle.std.specs.Prelude.{◌≡◌, IfOk, OnOk};
ghost use Rattle.processor.specs.World.{steps, after};
ghost use Rattle.step_views.specs.Places.{used_stream};
ghost use Rattle.step_views.specs.StepViews.{pc_of};
ghost use Rattle.whole_runs.specs.RunActions.{action_of, actions_of, deed_by, insn_at, word_met, access_by};

use image_file::Image;
use insn_word::{Insn, decode_as};
use machine::Machine;
use processor::Step;
use run_findings::{Access, Action, Deed};
use std::alloc::{AllocError, Global};
use step_views::{Content, Place, Reference, StreamPart, content_of, reference_of};
use stream_core::Outcome;
use tag_memory::{Reply, Word};

/// Takes the steps of a schedule from whatever state the machine has reached, and reports what each of them did to its
/// stream and to the word at which its reference ended: one action a step, in their order.
pub fn run_actions<const S: usize>(
    alloc: Global,
    machine: &mut Machine<'_, S>,
    schedule: &[Step],
) -> Result<Vec<Action>, AllocError>
    ensures actions { IfOk result (λ actions. actions.items
        ≡ actions_of machine.old.image machine.old.world schedule.now) }
    ensures world { OnOk result (machine.new
        ≡ record machine.old { world = steps machine.old.image machine.old.world schedule.now }) }
{
    let mut actions = Vec::with_capacity(alloc, schedule.len())?;
    for step in schedule {
        let action = take_action(machine, *step);
        actions.push(action)?;
    }
    Ok(actions)
}

/// Takes a step, as [`Machine::step`] does, and reports what it did to its stream and to the word at which its
/// reference ended.
pub fn take_action<const S: usize>(machine: &mut Machine<'_, S>, step: Step) -> Action
    ensures action { result ≡ action_of machine.old.image machine.old.world step }
    ensures world { machine.new.world ≡ after machine.old.image machine.old.world step }
    ensures image { machine.new.image ≡ machine.old.image }
{
    let reference = reference_of(machine, step);
    let before = word_met(machine, &reference);
    let pc = pc_of(machine, step);
    let outcome = machine.step(step.p, step.s);
    let after = word_met(machine, &reference);
    Action {
        stream: step,
        deed: deed_by(machine.image(), pc, outcome),
        access: access_by(&reference, before, after),
    }
}

/// The word at which a reference ends.
fn word_met<const S: usize>(machine: &Machine<'_, S>, reference: &Option<Reference>) -> Option<Word>
    ensures { result ≡ word_met machine.now.world.memory reference.now }
{
    match reference {
        Some(reference) => machine.word(reference.address),
        None => None,
    }
}

/// The pc of a step's stream; 0 where there is none.
#[tactic(auto, unfolding(step_views::specs::Places::content_of))]
fn pc_of<const S: usize>(machine: &Machine<'_, S>, step: Step) -> u64
    ensures { result ≡ pc_of (used_stream machine.now.world step.p step.s) }
{
    let place = Place::Stream {
        p: step.p,
        s: step.s,
        part: StreamPart::Pc,
    };
    match content_of(machine, place) {
        Some(Content::Number(pc)) => pc,
        _ => 0,
    }
}

/// What a step that began at a pc and came out so did to its stream.
fn deed_by(image: &Image, pc: u64, outcome: Outcome) -> Deed
    ensures { result ≡ deed_by image.now pc outcome }
{
    match outcome {
        Outcome::Done => match insn_at(image, pc) {
            Some(insn) => Deed::Instruction(insn),
            None => Deed::Nothing,
        },
        Outcome::Trapped(_) => Deed::Trap,
        Outcome::Skipped | Outcome::Blocked | Outcome::Stopped(_) => Deed::Nothing,
    }
}

/// The instruction at a pc; None where there is none.
fn insn_at(image: &Image, pc: u64) -> Option<Insn>
    ensures { result ≡ insn_at image.now pc }
{
    let word = image.program().get(pc as usize)?;
    decode_as(image.profile(), *word)
}

/// What a reference did to the word at which it ended, which was so before and is so after.
fn access_by(
    reference: &Option<Reference>,
    before: Option<Word>,
    after: Option<Word>,
) -> Option<Access>
    ensures { result ≡ access_by reference.now before after }
{
    let Some(reference) = reference else {
        return None;
    };
    match (reference.reply, before, after) {
        (Reply::Done(_), Some(before), Some(after)) => Some(Access {
            address: reference.address,
            op: reference.request.op,
            before: before.value(),
            after: after.value(),
            full: before.is_full(),
            full_after: after.is_full(),
        }),
        _ => None,
    }
}
