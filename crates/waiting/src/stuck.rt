//! Which streams can't go on while nobody else does.

ghost use Rattle.std.specs.Prelude.{◌≡◌, ◌↔◌, IsTrue};
ghost use Rattle.waiting.specs.Stuck.{IsStuck, SomeRuns, AllStuck, IsStandstill, StaysForEver};
ghost use Rattle.waiting.specs.Deciding.{is_kept_by};

use crate::running::runs;
use machine::Machine;
use machine::processors::Next;
use stream_core::Stream;
use tag_memory::Reply;

/// Whether stream `s` of processor `p` runs, and its step is Blocked and leaves the world as it is: so it is tried in
/// vain forever, unless another stream changes what it finds. A stream whose retry count still grows, or that would
/// trap, is not stuck ("Retries", docs/MACHINE.md).
pub fn is_stuck<const S: usize>(machine: &Machine<'_, S>, p: u8, s: u8) -> bool
    ensures { IsTrue result ↔ IsStuck machine.now.image machine.now.world (record { p = p; s = s }) }
{
    let limit = machine.image().retry_limit();
    let Some(stream) = machine.stream(p, s) else {
        return false;
    };
    match machine.next(p, s) {
        Next::Skip | Next::Local => false,
        Next::Ask(request) => is_kept_by(limit, stream, machine.ending(&request).reply),
    }
}

/// Whether the reply to its request leaves the stream as it is, where the retry limit is so.
fn is_kept_by(limit: u32, stream: &Stream, reply: Reply) -> bool
    ensures { result ≡ is_kept_by limit stream.now reply }
{
    match reply {
        Reply::Blocked(_) => limit == 0 || limit <= stream.retries() && stream.ssw().mask.blocked,
        Reply::Done(_) | Reply::Trap(_, _) => false,
    }
}

/// Whether it is a deadlock: some stream runs, and each that runs is stuck. Then no schedule ever changes anything.
pub fn is_standstill<const S: usize>(machine: &Machine<'_, S>) -> bool
    ensures is { IsTrue result ↔ IsStandstill machine.now.image machine.now.world }
    ensures for_ever { IsTrue result → StaysForEver machine.now.image machine.now.world }
{
    some_run(machine) && all_stuck(machine)
}

/// Whether some stream runs.
pub fn some_run<const S: usize>(machine: &Machine<'_, S>) -> bool
    ensures { IsTrue result ↔ SomeRuns machine.now.world }
{
    let image = machine.image();
    for p in 0..image.processors() {
        for s in 0..image.slim() {
            if runs(machine, p as u8, s as u8) {
                return true;
            }
        }
    }
    false
}

/// Whether each stream that runs is stuck.
fn all_stuck<const S: usize>(machine: &Machine<'_, S>) -> bool
    ensures { IsTrue result ↔ AllStuck machine.now.image machine.now.world }
{
    let image = machine.image();
    for p in 0..image.processors() {
        for s in 0..image.slim() {
            if runs(machine, p as u8, s as u8) && !is_stuck(machine, p as u8, s as u8) {
                return false;
            }
        }
    }
    true
}
