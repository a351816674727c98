//! What a stream waits for whose reference is blocked.

ghost use Rattle.std.specs.Prelude.{◌≡◌, ◌↔◌, Some, IsSome};
ghost use Rattle.waiting.specs.Stuck.{IsStuck};
ghost use Rattle.waiting.specs.Waits.{IsWaitOf, IsAskedInVain};
ghost use Rattle.waiting.specs.Deciding.{wait_replied, wanted_by};

use crate::waits::{Wait, Wanted};
use machine::Machine;
use machine::processors::Next;
use tag_memory::{Acc, AccessControl, MemOp, Reply, Request};

/// What stream `s` of processor `p` waits for: Some exactly where its next step asks the memory and the memory would
/// reply Blocked. That step need not leave all as it is: a retry count may grow, and the stream may trap for it.
pub fn wait_of<const S: usize>(machine: &Machine<'_, S>, p: u8, s: u8) -> Option<Wait>
    ensures asked { IsSome result ↔ IsAskedInVain machine.now (record { p = p; s = s }) }
    ensures is { (wait : Wait) → (result ≡ Some wait) ↔ IsWaitOf machine.now (record { p = p; s = s }) wait }
    ensures stuck { IsStuck machine.now.image machine.now.world (record { p = p; s = s }) → IsSome result }
{
    match machine.next(p, s) {
        Next::Skip | Next::Local => None,
        Next::Ask(request) => wait_replied(&request, machine.ending(&request).reply),
    }
}

/// What a stream waits for whose request gets this reply.
fn wait_replied(request: &Request, reply: Reply) -> Option<Wait>
    ensures { result ≡ wait_replied request.now reply }
{
    match reply {
        Reply::Blocked(address) => Some(Wait {
            address,
            wanted: wanted_by(request),
        }),
        Reply::Done(_) | Reply::Trap(_, _) => None,
    }
}

/// The state that the full/empty table wants of a word that blocks the request.
fn wanted_by(request: &Request) -> Wanted
    ensures { result ≡ wanted_by request.now }
{
    let control = match request.acc {
        Acc::FromPointer => request.pointer.control(),
        Acc::Normal => AccessControl::Normal,
        Acc::Future => AccessControl::Future,
        Acc::Sync => AccessControl::Sync,
    };
    match (request.op, control) {
        (MemOp::Store, AccessControl::Sync) => Wanted::Empty,
        _ => Wanted::Full,
    }
}
