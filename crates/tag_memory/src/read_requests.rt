//! Requests that only read, and what holds of them.

ghost use Rattle.std.specs.Prelude.{◌≡◌, false};
ghost use Rattle.tag_memory.specs.Storage.{TaggedMemory};
ghost use Rattle.tag_memory.specs.Answer.{answer};
ghost use Rattle.tag_memory.specs.ReadRequests.{may_change};
ghost use Rattle.tag_memory.specs.declared.requests.Request.{Request as AnyRequest};

use crate::{Acc, MemOp, Request};

impl Request {
    /// Whether the request may change its word, whatever stands there: a LOAD does where it is by sync access or by the
    /// control of its pointer, and all else but a TAGGET does.
    pub fn may_change(&self) -> bool
        ensures { result ≡ may_change self.now.op self.now.acc }
    {
        match self.op {
            MemOp::Load => match self.acc {
                Acc::Normal | Acc::Future => false,
                Acc::FromPointer | Acc::Sync => true,
            },
            MemOp::TagGet => false,
            MemOp::Store | MemOp::Fadd | MemOp::TagSet | MemOp::Purge => true,
        }
    }
}

/// A TAGGET, and a LOAD by normal or future access, leaves the memory as it is.
pub fn read_requests_change_nothing()
    ensures { (m : TaggedMemory) (q : AnyRequest) → may_change q.op q.acc ≡ false → (answer m q).0 ≡ m }
{}
