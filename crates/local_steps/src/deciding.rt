//! Which steps concern their own stream alone, and which end a stream beside which nobody asks for one.

ghost use Rattle.std.specs.Prelude.{◌≡◌, ◌≢◌, ◌↔◌, ◌⊎◌, ◌==◌, ℕ, true, IsTrue};
ghost use Rattle.stream_core.specs.Registers.{target_at};
ghost use Rattle.stream_core.specs.Streams.{no_handler};
ghost use Rattle.local_steps.specs.LocalSteps.{IsLocalStep};
ghost use Rattle.local_steps.specs.EndingSteps.{IsEnding, IsEndingIn};
ghost use Rattle.local_steps.specs.SettledEndings.{is_settled, AreSettled, IsSettledEnding, stream_in};
ghost use Rattle.local_steps.specs.FreeSteps.{IsFreeStep};

use crate::settling::is_settled_place;
use image_file::Image;
use machine::Machine;
use processor::Step;
use stream_core::{Control, Plan, Status, Stream};

/// The pc that names no trap handler.
const NO_HANDLER: u32 = u32::MAX;

/// Whether the step of a stream concerns the stream alone.
pub fn is_local_step<const S: usize>(machine: &Machine<'_, S>, step: Step) -> bool
    ensures { IsTrue result ↔ IsLocalStep machine.now.image machine.now.world step }
{
    let image = machine.image();
    let Some(stream) = machine.stream(step.p, step.s) else {
        return false;
    };
    let is_unasked = matches!(stream.plan(image.profile(), image.program()), Plan::Local);
    let is_plain = matches!(
        stream.control(image.profile(), image.program()),
        Control::Plain
    );
    is_unasked && is_plain
}

/// Whether the step of a stream ends it by QUIT or QUITP, without a memory reference, and each other stream of its
/// processor that runs stands at one of these places, with no handler for traps.
pub fn is_settled_ending<const S: usize>(
    machine: &Machine<'_, S>,
    step: Step,
    places: &[bool],
) -> bool
    ensures { IsTrue result ↔ IsSettledEnding places.now machine.now.image machine.now.world step }
{
    let image = machine.image();
    let Some(stream) = machine.stream(step.p, step.s) else {
        return false;
    };
    ends_next(image, stream) && others_are_settled(machine, step, places)
}

/// Whether the step of a stream can be taken before all others, where these places are settled (`settled_places`): it
/// concerns the stream alone, or ends it while each other stream of its processor that runs stands at a settled place,
/// with no handler for traps.
pub fn is_free_step<const S: usize>(machine: &Machine<'_, S>, step: Step, places: &[bool]) -> bool
    ensures kinds { IsTrue result
        ↔ (IsLocalStep machine.now.image machine.now.world step
        ⊎ IsSettledEnding places.now machine.now.image machine.now.world step) }
    ensures free { AreSettled machine.now.image places.now → IsTrue result
        → IsFreeStep machine.now.image machine.now.world step }
{
    is_local_step(machine, step) || is_settled_ending(machine, step, places)
}

/// Whether the next instruction of a stream has no memory reference, and ends it.
fn ends_next(image: &Image, stream: &Stream) -> bool
    ensures { IsTrue result ↔ IsEndingIn image.now stream.now }
{
    let is_unasked = matches!(stream.plan(image.profile(), image.program()), Plan::Local);
    is_unasked && is_ending(stream.control(image.profile(), image.program()))
}

/// Whether what an instruction asks ends its stream.
fn is_ending(control: Control) -> bool
    ensures { IsTrue result ↔ IsEnding control }
{
    matches!(control, Control::Quit | Control::QuitKeep)
}

/// Whether each other stream of its processor that runs stands at one of these places, with no handler.
fn others_are_settled<const S: usize>(machine: &Machine<'_, S>, step: Step, places: &[bool]) -> bool
    ensures { IsTrue result
        ↔ ((k : ℕ) → k ≢ step.s → is_settled places.now (stream_in machine.now.world step.p k) ≡ true) }
{
    for other in 0..machine.image().slim() {
        let other = other as u8;
        if other != step.s && !is_settled_there(machine, step.p, other, places) {
            return false;
        }
    }
    true
}

/// Whether a stream of a processor stands at one of these places, with no handler, if it runs.
fn is_settled_there<const S: usize>(machine: &Machine<'_, S>, p: u8, s: u8, places: &[bool]) -> bool
    ensures { result ≡ is_settled places.now (stream_in machine.now.world p s) }
{
    let _image = machine.image();
    let Some(stream) = machine.stream(p, s) else {
        return true;
    };
    is_settled(stream, places)
}

/// Whether a stream stands at one of these places, with no handler, if it runs.
fn is_settled(stream: &Stream, places: &[bool]) -> bool
    ensures { result ≡ is_settled places.now stream.now }
{
    if stream.status() != Status::Running {
        return true;
    }
    is_settled_place(places, stream.ssw().pc) && has_no_handler(stream)
}

/// Whether t0 of a stream names no handler.
fn has_no_handler(stream: &Stream) -> bool
    ensures { result ≡ ((target_at stream.now.targets 0).pc == no_handler) }
{
    let Some(handler) = stream.target(0) else {
        return false;
    };
    handler.pc == NO_HANDLER
}
