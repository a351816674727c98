//! Steps with a request that nobody sees who looks at some places of a program and at some words alone.

ghost use Rattle.std.specs.Prelude.{◌≡◌, ◌≢◌, ◌⊎◌, ◌/◌, ℕ, false, Some, IsTrue, IfOk};
ghost use Rattle.std.specs.List.{Contains};
ghost use Rattle.tag_memory.specs.Address.{address_of};
ghost use Rattle.tag_memory.specs.ReadRequests.{may_change};
ghost use Rattle.tag_memory.specs.declared.requests.Request.{Request};
ghost use Rattle.stream_core.specs.Streams.{StreamValue};
ghost use Rattle.stream_core.specs.StreamRow.{plan_of};
ghost use Rattle.processor.specs.declared.steps.Step.{Step};
ghost use Rattle.first_sets.specs.LocalSteps.NeverAsking.{own_step};
ghost use Rattle.schedule_space.specs.Quiet.{is_looked_at, is_seen, IsUnseen};

use crate::observations::Observation;
use crate::quiet::is_looked_at;
use image_file::Image;
use machine::Machine;
use processor::Step;
use std::alloc::{AllocError, Global};
use stream_core::{Plan, Stream};
use tag_memory::{Reply, Request};

/// How many bytes a word has.
const WORD_BYTES: u64 = 8;

/// Those of these steps, in their order, whose requests nobody sees who looks at places and words.
pub(crate) fn unseen_steps<const S: usize>(
    alloc: Global,
    machine: &Machine<'_, S>,
    steps: &[Step],
    observation: Observation<'_>,
) -> Result<Vec<Step>, AllocError>
    ensures some { IfOk result (λ v. (t : Step) → Contains v.items t → Contains steps.now t) }
    ensures unseen { IfOk result (λ v. (t : Step) → Contains v.items t
        → IsUnseen observation.entry.places.now observation.entry.words.now machine.now.image machine.now.world t) }
{
    let mut unseen = Vec::new(alloc);
    for step in steps {
        if is_unseen(machine, *step, observation) {
            unseen.push(*step)?;
        }
    }
    Ok(unseen)
}

/// Whether nobody sees the request of a step so.
fn is_unseen<const S: usize>(
    machine: &Machine<'_, S>,
    step: Step,
    observation: Observation<'_>,
) -> bool
    ensures { IsTrue result
        → IsUnseen observation.entry.places.now observation.entry.words.now machine.now.image machine.now.world step }
{
    let image = machine.image();
    let Some(stream) = machine.stream(step.p, step.s) else {
        return false;
    };
    let Plan::Ask(request) = stream.plan(image.profile(), image.program()) else {
        return false;
    };
    let reply = machine.ending(&request).reply;
    is_unseen_stream(image, stream, reply, observation.places)
        && is_unseen_word(&request, observation.words)
}

/// Whether a stream whose request gets this reply stands at no place that is looked at, neither before its step nor after it.
fn is_unseen_stream(image: &Image, stream: &Stream, reply: Reply, looked_at: &[bool]) -> bool
    requires { (q : Request) × (plan_of image.now.profile image.now.program stream.now ≡ Plan.Ask q) }
    ensures before { IsTrue result → is_seen looked_at.now stream.now ≡ false }
    ensures behind { IsTrue result → is_seen looked_at.now (own_step image.now stream.now (Some reply)) ≡ false }
{
    let mut next = *stream;
    next.finish_reply(
        image.profile(),
        image.program(),
        reply,
        image.retry_limit(),
        0,
    );
    !is_looked_at(looked_at, stream.ssw().pc) && !is_looked_at(looked_at, next.ssw().pc)
}

/// Whether a request is of none of the words at these addresses, or only reads.
fn is_unseen_word(request: &Request, words: &[u64]) -> bool
    ensures { IsTrue result → (a : ℕ) → Contains words.now a
        → (a / 8 ≢ address_of request.now.pointer / 8) ⊎ (may_change request.now.op request.now.acc ≡ false) }
{
    !request.may_change() || !asks_for_one(request, words)
}

/// Whether a request is of one of the words at these addresses.
fn asks_for_one(request: &Request, words: &[u64]) -> bool
    ensures { result ≡ false → (a : ℕ) → Contains words.now a → a / 8 ≢ address_of request.now.pointer / 8 }
{
    for address in words {
        if *address / WORD_BYTES == request.pointer.address() / WORD_BYTES {
            return true;
        }
    }
    false
}
