//! What a request would come to.
ghost use Rattle.std.specs.Prelude.{◌≡◌};
ghost use Rattle.tag_memory.specs.Storage.{TaggedMemory};
ghost use Rattle.tag_memory.specs.Chain.{end_of};
ghost use Rattle.tag_memory.specs.Answer.{answer, at_end, address_at};

use crate::chain::{End, Probe};
use crate::full_empty::effect;
use crate::{Memory, Reply, Request};

/// Where a request would end, and what the memory would reply.
#[derive(Clone, Copy, PartialEq, Eq, Debug)]
pub struct Ending {
    /// The byte address at which the request would end: of the word that it acts on or is blocked by, or at which it is
    /// refused.
    pub address: u64,
    /// The reply.
    pub reply: Reply,
}

impl Memory {
    /// Where a request would end, and what `serve` would reply to it. Nothing is changed.
    pub fn ending(&self, request: &Request) -> Ending
        ensures address { result.address ≡ address_at (end_of self.now request.now) }
        ensures reply { result.reply ≡ (answer self.now request.now).1 }
    {
        ending_at(request, self.end(request))
    }

    /// How the request's chain ends.
    fn end(&self, request: &Request) -> End
        ensures { result ≡ end_of self.now request.now }
    {
        let pointer = request.pointer;
        match self.probe(request, pointer) {
            Probe::Trap(kind) => End::Trap(kind, pointer.address()),
            Probe::Reach(word) => End::Last(pointer, word),
            Probe::Forward(next) => self.forwarded_end(request, pointer, next),
        }
    }
}

/// What a request comes to whose chain ends so.
fn ending_at(request: &Request, end: End) -> Ending
    ensures address { result.address ≡ address_at end }
    ensures reply { (m : TaggedMemory) → result.reply ≡ (at_end m request.now end).1 }
{
    match end {
        End::Trap(kind, address) => Ending {
            address,
            reply: Reply::Trap(kind, address),
        },
        End::Last(last, word) => {
            let control = request.acc.control(request.pointer);
            let address = last.address();
            let reply = match effect(request.op, control, word, request.value) {
                None => Reply::Blocked(address),
                Some((_, number)) => Reply::Done(number),
            };
            Ending { address, reply }
        }
    }
}
