//! What is asked of the memory, and what it replies.
ghost use Rattle.std.specs.Prelude.{◌≡◌};
ghost use Rattle.tag_memory.specs.Access.{access_control};
ghost use Rattle.tag_memory.specs.Chain.{is_tag_operation};

use crate::{AccessControl, Pointer};

/// The operation of a request.
#[derive(Clone, Copy, PartialEq, Eq, Debug)]
pub enum MemOp {
    /// LOAD: reads the value.
    Load,
    /// STORE: writes the value.
    Store,
    /// FADD, fetch-and-add: adds to the value, modulo 2^64, and reads what it was.
    Fadd,
    /// TAGGET: reads the four tags of the word at the pointer itself, whatever they are.
    TagGet,
    /// TAGSET: writes the four tags of the word at the pointer itself, whatever they are.
    TagSet,
    /// PURGE: writes the value and empties the word, whatever the control. It waits for nothing.
    Purge,
}

impl MemOp {
    /// Whether the operation is on the tags alone.
    pub(crate) fn is_tag_operation(self) -> bool
        ensures { result ≡ is_tag_operation self }
    {
        match self {
            MemOp::Load | MemOp::Store | MemOp::Fadd | MemOp::Purge => false,
            MemOp::TagGet | MemOp::TagSet => true,
        }
    }
}

/// The access field of a request: where its control comes from.
#[derive(Clone, Copy, PartialEq, Eq, Debug)]
pub enum Acc {
    /// The control is the pointer's.
    FromPointer,
    /// The control is normal.
    Normal,
    /// The control is future.
    Future,
    /// The control is sync.
    Sync,
}

impl Acc {
    /// The control of a reference with this access field by a pointer.
    pub(crate) fn control(self, pointer: Pointer) -> AccessControl
        ensures { result ≡ access_control self pointer }
    {
        match self {
            Acc::FromPointer => pointer.control(),
            Acc::Normal => AccessControl::Normal,
            Acc::Future => AccessControl::Future,
            Acc::Sync => AccessControl::Sync,
        }
    }
}

/// Why a request is refused ("the request rules", docs/MACHINE.md).
#[derive(Clone, Copy, PartialEq, Eq, Debug)]
pub enum MemTrap {
    /// POINTER: no reference may use the pointer: a bit of 48 to 58 is set, or its control is the reserved one.
    Pointer,
    /// ALIGN: the address is not a multiple of 8.
    Align,
    /// RANGE: there is no word at the address.
    Range,
    /// TRAP0: the word's trap0 bit is set, and neither disabled by the pointer nor masked.
    Trap0,
    /// TRAP1: the word's trap1 bit is set, and neither disabled by the pointer nor masked.
    Trap1,
    /// FORWARD: the word forwards a reference that was forwarded as often as the chain limit allows already.
    Forward,
}

/// Which of the two trap bits a request passes over, on every word of its chain. Where it is written as a number,
/// trap0 counts 1 and trap1 counts 2.
#[derive(Clone, Copy, PartialEq, Eq, Debug)]
pub struct RequestMask {
    /// The trap0 bit is passed over.
    pub trap0: bool,
    /// The trap1 bit is passed over.
    pub trap1: bool,
}

/// A request to the memory. Each combination of parts is one.
#[derive(Clone, Copy, PartialEq, Eq, Debug)]
pub struct Request {
    // the long fields in front: a request takes 24 bytes so, and 40 in the order of the operation table
    /// Where to begin.
    pub pointer: Pointer,
    /// What `Store` and `Purge` write, what `Fadd` adds, and for `TagSet` the tags as a number, of which the four low
    /// bits count. `Load` and `TagGet` make nothing of it.
    pub value: u64,
    /// What to do.
    pub op: MemOp,
    /// Where the control comes from.
    pub acc: Acc,
    /// The trap bits that are passed over.
    pub masked: RequestMask,
}

/// What the memory replies to a request.
#[derive(Clone, Copy, PartialEq, Eq, Debug)]
pub enum Reply {
    /// It is done: the value of the word before it for `Load` and `Fadd`, the tags for `TagGet`, else 0.
    Done(u64),
    /// The full bit of the word at this byte address does not let the reference through. Nothing was changed.
    Blocked(u64),
    /// The request is refused at this byte address. Nothing was changed.
    Trap(MemTrap, u64),
}
