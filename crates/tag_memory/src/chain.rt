//! How a reference is led through forwarding words to the word that it acts on.
ghost use Rattle.std.specs.Prelude.{◌≡◌, Some};
ghost use Rattle.tag_memory.specs.Chain.{probe_cell, probe, end_from};

use crate::{MemTrap, Memory, Pointer, Request, Word};

/// What one probe decides.
pub(crate) enum Probe {
    /// The request is refused.
    Trap(MemTrap),
    /// The word is the one that the request acts on.
    Reach(Word),
    /// The word sends the request on to another pointer.
    Forward(Pointer),
}

/// How a request's chain ends.
pub(crate) enum End {
    /// In a refusal at a byte address.
    Trap(MemTrap, u64),
    /// At the last pointer, with the word that stands there.
    Last(Pointer, Word),
}

impl Memory {
    /// Where the request's chain ends, whose first word, at `first`, forwards it to `next`.
    pub(crate) fn forwarded_end(&self, request: &Request, first: Pointer, next: Pointer) -> End
        requires { probe self.now request.now first ≡ Probe.Forward next }
        ensures { result ≡ end_from self.now request.now self.now.chain_limit first }
    {
        let mut forwarding = first;
        let mut pointer = next;
        for _ in 0..self.chain_limit() {
            match self.probe(request, pointer) {
                Probe::Trap(kind) => return End::Trap(kind, pointer.address()),
                Probe::Reach(word) => return End::Last(pointer, word),
                Probe::Forward(next) => {
                    forwarding = pointer;
                    pointer = next;
                }
            }
        }
        End::Trap(MemTrap::Forward, forwarding.address())
    }

    /// What the probe at a pointer decides: the first of the request rules that holds.
    pub(crate) fn probe(&self, request: &Request, pointer: Pointer) -> Probe
        ensures { result ≡ probe self.now request.now pointer }
    {
        if pointer.is_reserved() {
            return Probe::Trap(MemTrap::Pointer);
        }
        let address = pointer.address();
        if address % 8 != 0 {
            return Probe::Trap(MemTrap::Align);
        }
        match self.word(address) {
            None => Probe::Trap(MemTrap::Range),
            Some(word) => probe_word(request, pointer, word),
        }
    }
}

/// What the probe decides of the word at its pointer.
fn probe_word(request: &Request, pointer: Pointer, word: Word) -> Probe
    ensures { result ≡ probe_cell request.now pointer (Some word) }
{
    if word.is_unguarded() || request.op.is_tag_operation() {
        Probe::Reach(word)
    } else if word.has_trap0() && !pointer.disables_trap0() && !request.masked.trap0 {
        Probe::Trap(MemTrap::Trap0)
    } else if word.has_trap1() && !pointer.disables_trap1() && !request.masked.trap1 {
        Probe::Trap(MemTrap::Trap1)
    } else if word.is_forward() && !pointer.disables_forward() {
        Probe::Forward(Pointer::new(word.value()))
    } else {
        Probe::Reach(word)
    }
}
