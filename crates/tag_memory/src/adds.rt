//! Requests that add to a word, and what holds of two of them.

ghost use Rattle.std.specs.Prelude.{◌≡◌, true};
ghost use Rattle.tag_memory.specs.Storage.{TaggedMemory};
ghost use Rattle.tag_memory.specs.Unforwarded.{IsUnforwarded};
ghost use Rattle.tag_memory.specs.Adds.{is_add, DoCommuteButForNumbers};
ghost use Rattle.tag_memory.specs.declared.requests.Request.{Request as AnyRequest};

use crate::{AccessControl, MemOp, Request};

impl Request {
    /// Whether the request adds to its word, full or empty: a FADD by normal control.
    pub fn is_add(&self) -> bool
        ensures { result ≡ is_add self.now }
    {
        match self.op {
            MemOp::Fadd => match self.acc.control(self.pointer) {
                AccessControl::Normal => true,
                AccessControl::Future | AccessControl::Sync => false,
            },
            MemOp::Load | MemOp::Store | MemOp::TagGet | MemOp::TagSet | MemOp::Purge => false,
        }
    }
}

/// Two FADDs by normal control commute but for the numbers that they get, where no word has the forward bit.
pub fn adds_commute_but_for_numbers()
    ensures { (m : TaggedMemory) (q r : AnyRequest) → IsUnforwarded m → is_add q ≡ true → is_add r ≡ true
        → DoCommuteButForNumbers m q r }
{}
