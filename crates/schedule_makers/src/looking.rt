//! What is seen of a stream before and after its step, and what that shows of the step.

ghost use Rattle.std.specs.Prelude.{◌≡◌};
ghost use Rattle.machine.specs.MachineValue.{IsMachine};
ghost use Rattle.processor.specs.Records.{is_running_status};
ghost use Rattle.schedule_makers.specs.Advancing.{seen_of, is_in_vain, is_same_run};

use machine::Machine;
use processor::Step;
use stream_core::{Outcome, Status};

/// What is seen of a stream before and after its step.
#[derive(Clone, Copy, Debug)]
pub(crate) struct Seen {
    /// Whether it runs.
    pub(crate) runs: bool,
    /// Its retry count.
    pub(crate) retries: u32,
    /// How many streams of its processor are current.
    pub(crate) current: u16,
}

/// Whether a step of this outcome left the world as it was, by the retry counts before and after it.
pub(crate) fn is_in_vain(outcome: Outcome, before: u32, after: u32) -> bool
    ensures { result ≡ is_in_vain outcome before after }
{
    match outcome {
        Outcome::Blocked => before == after,
        Outcome::Skipped | Outcome::Done | Outcome::Trapped(_) | Outcome::Stopped(_) => false,
    }
}

/// Whether the same streams run after a step as before it: its stream still does, and as many are current.
pub(crate) fn is_same_run(before: &Seen, after: &Seen) -> bool
    ensures { result ≡ is_same_run before.now after.now }
{
    after.runs && after.current == before.current
}

/// What is seen of the stream that a step names.
pub(crate) fn look<const S: usize>(machine: &Machine<'_, S>, step: Step) -> Seen
    ensures is { result ≡ seen_of S machine.now.world step }
    ensures kept { IsMachine S machine.now }
{
    // It says that no stream that is used stands past the room.
    let _image = machine.image();
    let current = match machine.counts(step.p) {
        Some((scur, _)) => scur,
        None => 0,
    };
    match machine.stream(step.p, step.s) {
        Some(stream) => Seen {
            runs: is_running(stream.status()),
            retries: stream.retries(),
            current,
        },
        None => Seen {
            runs: false,
            retries: 0,
            current,
        },
    }
}

fn is_running(status: Status) -> bool
    ensures { result ≡ is_running_status status }
{
    match status {
        Status::Running => true,
        Status::Idle | Status::Stopped(_) => false,
    }
}
