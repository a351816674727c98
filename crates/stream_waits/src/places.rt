//! Where a stream stands.

ghost use Rattle.std.specs.Prelude.{◌≡◌};
ghost use Rattle.step_views.specs.Places.{used_stream};
ghost use Rattle.step_views.specs.StepViews.{pc_of};

use machine::Machine;
use processor::Step;

/// The pc of a stream; 0 where there is none.
pub fn pc_of<const S: usize>(machine: &Machine<'_, S>, stream: Step) -> u32
    ensures { result ≡ pc_of (used_stream machine.now.world stream.p stream.s) }
{
    // It says that no stream that is used stands past the room.
    let _image = machine.image();
    match machine.stream(stream.p, stream.s) {
        Some(stream) => stream.ssw().pc,
        None => 0,
    }
}
