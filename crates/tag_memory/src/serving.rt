//! The answer to one request, and the laws of answers.
ghost use Rattle.std.specs.Prelude.{◌≡◌, Some};
ghost use Rattle.tag_memory.specs.Address.{address_of};
ghost use Rattle.tag_memory.specs.Storage.{cell_at};
ghost use Rattle.tag_memory.specs.Chain.{IsLedAlongOnePath, probe, end_from};
ghost use Rattle.tag_memory.specs.Answer.{answer, at_end, AnswersAreComputed, OthersStay, IsDeterminedByWords};

use crate::chain::{End, Probe};
use crate::full_empty::effect;
use crate::{Memory, Pointer, Reply, Request, Word};

impl Memory {
    /// Answers a request, by the request rules, forwarding and the full/empty table of docs/MACHINE.md. At most one
    /// word changes, and none where the reply is `Blocked` or `Trap`; their address is that of the probe that failed.
    pub fn serve(&mut self, request: &Request) -> Reply
        ensures { (self.new, result) ≡ answer self.old request.now }
    {
        let pointer = request.pointer;
        match self.probe(request, pointer) {
            Probe::Trap(kind) => Reply::Trap(kind, pointer.address()),
            Probe::Reach(word) => self.serve_word(request, pointer, word),
            Probe::Forward(next) => self.serve_forwarded(request, pointer, next),
        }
    }

    /// The same of a request whose first word, at `first`, forwards it to `next`.
    // few requests are forwarded: in a function of its own it makes the others no dearer
    #[inline(never)]
    fn serve_forwarded(&mut self, request: &Request, first: Pointer, next: Pointer) -> Reply
        requires { probe self.old request.now first ≡ Probe.Forward next }
        ensures { (self.new, result) ≡ at_end self.old request.now
            (end_from self.old request.now self.old.chain_limit first) }
    {
        match self.forwarded_end(request, first, next) {
            End::Trap(kind, address) => Reply::Trap(kind, address),
            End::Last(last, word) => self.serve_word(request, last, word),
        }
    }

    /// Answers a request that ends at the pointer `last`, where this word stands.
    #[inline(always)]
    fn serve_word(&mut self, request: &Request, last: Pointer, word: Word) -> Reply
        requires { cell_at self.old (address_of last) ≡ Some word }
        ensures { (self.new, result) ≡ at_end self.old request.now (End.Last last word) }
    {
        let control = request.acc.control(request.pointer);
        match effect(request.op, control, word, request.value) {
            None => Reply::Blocked(last.address()),
            Some((after, number)) => {
                self.set_word(last.address(), after);
                Reply::Done(number)
            }
        }
    }
}

/// Does nothing: its clauses are the laws of answers. A request is led along one path (`one_path`) and has one answer,
/// the computed one (`computed`); it changes no word but the one at the address where it ends (`others`); a memory is
/// known by its words and its chain limit (`words`).
pub fn serving_laws()
    ensures one_path { IsLedAlongOnePath }
    ensures computed { AnswersAreComputed }
    ensures others { OthersStay }
    ensures words { IsDeterminedByWords }
{}
