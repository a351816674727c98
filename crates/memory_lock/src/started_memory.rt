//! A memory in a lock that is known to go on from one start.

ghost use Rattle.std.specs.Prelude.{◌≡◌, ◌-◌, ◌++◌, ◌∷◌, [], IfOk, OnErr};
ghost use Rattle.memory_lock.specs.Runs.{IsContinued};

use crate::requests::ask_memory;
use shared_history::{NoRoom, SharedMemory};
use std::marker::{Brand, Model, PhantomData};
use tag_memory::{Reply, Request};

/// A type that names the memory that a run begins with. Of a value in a lock no more is known than its type, so the
/// type has to say what the memory goes on from.
pub trait StartBrand {
    ghost use Rattle.shared_history.specs.SharedMemory.{SharedValue};

    /// The memory at the start.
    ghost start: { SharedValue };
}

impl StartBrand for Brand {
    ghost use Rattle.memory_lock.specs.Runs.{no_memory};

    ghost start = { no_memory };
}

/// A memory that lies in a lock.
pub trait LockedMemory {
    ghost use Rattle.shared_history.specs.SharedMemory.{SharedValue};

    /// The memory that it is.
    ghost memory: { Self → SharedValue };

    /// Asks for stream `s` of processor `p`. `NoRoom` where there is no such processor, or no room for an entry: then
    /// nothing is asked and nothing changes.
    fn ask_for(&mut self, p: u8, s: u8, request: &Request) -> Result<Reply, NoRoom>
        ensures ok { IfOk result (λ reply. memory self.new ≡ record (memory self.old) {
          history = (memory self.old).history ++ record { p = p; s = s; request = request.now; reply = reply } ∷ [];
          spare = (memory self.old).spare - 1;
        }) }
        ensures err { OnErr result (memory self.new ≡ memory self.old) };
}

impl<'i> LockedMemory for SharedMemory<'i> {
    ghost memory = { λ m. m };

    fn ask_for(&mut self, p: u8, s: u8, request: &Request) -> Result<Reply, NoRoom> {
        ask_memory(self, p, s, request)
    }
}

/// A memory that goes on from the one that its type names: it is of the same image, and its history begins with that
/// one's. Contracts see the memory.
#[derive(Drop)]
pub struct StartedMemory<'i, B: StartBrand> {
    memory: SharedMemory<'i>,
    start: PhantomData<B>,
}

impl<'i, B: StartBrand> Model for StartedMemory<'i, B> {
    ghost use Rattle.shared_history.specs.SharedMemory.{SharedValue};
    ghost use Rattle.memory_lock.specs.Runs.{IsContinued};

    ghost Value = { SharedValue };

    ghost view = { λ m. m.memory };

    ghost invariant = { λ m. IsContinued B.start m.memory };
}

impl<'i, B: StartBrand> StartedMemory<'i, B> {
    /// The memory at its start.
    pub fn new(memory: SharedMemory<'i>) -> StartedMemory<'i, B>
        requires { memory ≡ B.start }
        ensures { result ≡ memory.entry }
    {
        StartedMemory {
            memory,
            start: PhantomData,
        }
    }

    /// The memory, which went on from its start.
    pub fn into_memory(self) -> SharedMemory<'i>
        ensures is { result ≡ self.entry }
        ensures continued { IsContinued B.start result }
    {
        let StartedMemory { memory, start: _ } = self;
        memory
    }
}

impl<'i, B: StartBrand> LockedMemory for StartedMemory<'i, B> {
    ghost memory = { λ m. m };

    fn ask_for(&mut self, p: u8, s: u8, request: &Request) -> Result<Reply, NoRoom> {
        ask_memory(&mut self.memory, p, s, request)
    }
}
