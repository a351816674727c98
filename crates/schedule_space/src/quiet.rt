//! Steps that nobody sees who looks at some places of a program alone.

ghost use Rattle.std.specs.Prelude.{◌≡◌, ℕ, false, None, IsTrue, IsFalse};
ghost use Rattle.stream_core.specs.StreamRow.{plan_of, control_at, stream_row};
ghost use Rattle.agreeing_ends.specs.LocalSteps.FreeSteps.{IsFreeStep};
ghost use Rattle.schedule_space.specs.Quiet.{is_looked_at, is_seen, IsQuietStep};

use image_file::Image;
use machine::Machine;
use processor::Step;
use stream_core::{Control, Plan, Stream};

/// Whether the stream of a step that can be taken before all others stands at no place that is looked at, neither before
/// the step nor after it, if it still runs then. Where no place is looked at, nothing is asked of the stream.
pub(crate) fn is_quiet_step<const S: usize>(
    machine: &Machine<'_, S>,
    step: Step,
    looked_at: &[bool],
) -> bool
    requires { IsFreeStep machine.now.image machine.now.world step }
    ensures { IsTrue result → IsQuietStep looked_at.now machine.now.image machine.now.world step }
{
    if looked_at.is_empty() {
        return true;
    }
    let image = machine.image();
    let Some(stream) = machine.stream(step.p, step.s) else {
        return false;
    };
    if is_looked_at(looked_at, stream.ssw().pc) {
        return false;
    }
    !leads_there(image, stream, looked_at)
}

/// Whether the next instruction of a stream leads it to a place that is looked at. One that ends it leads nowhere.
fn leads_there(image: &Image, stream: &Stream, looked_at: &[bool]) -> bool
    requires { plan_of image.now.profile image.now.program stream.now ≡ Plan.Local }
    ensures { IsFalse result → control_at image.now.profile image.now.program stream.now ≡ Control.Plain → (limit : ℕ)
        → is_seen looked_at.now (stream_row image.now.profile image.now.program limit stream.now 0 None).0 ≡ false }
{
    match stream.control(image.profile(), image.program()) {
        Control::Plain => {
            let mut next = *stream;
            next.finish_local(image.profile(), image.program(), 0);
            is_looked_at(looked_at, next.ssw().pc)
        }
        Control::Reserve(_) | Control::Create(_) | Control::Quit | Control::QuitKeep => false,
    }
}

/// Whether a place is looked at.
pub(crate) fn is_looked_at(looked_at: &[bool], place: u32) -> bool
    ensures { result ≡ is_looked_at looked_at.now place }
{
    match looked_at.get(place as usize) {
        Some(is_looked_at) => *is_looked_at,
        None => false,
    }
}
