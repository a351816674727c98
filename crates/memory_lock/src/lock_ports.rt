//! The port through a lock.

ghost use Rattle.std.specs.Prelude.{◌≡◌, None, false};

use crate::back_off::BackOff;
use crate::ports::Port;
use crate::started_memory::LockedMemory;
use shared_history::NoRoom;
use std::marker::Model;
use std::sync::{Mutex, MutexGuard, Wait};
use tag_memory::{Reply, Request};

/// A port that takes the memory's lock for each request and holds it for no longer. It keeps no list of entries.
/// Contracts see whether it was refused.
#[derive(Drop)]
pub struct LockPort<'m, M: LockedMemory> {
    memory: &'m Mutex<M>,
    refused: bool,
    back_off: BackOff,
}

impl<'m, M: LockedMemory> Model for LockPort<'m, M> {
    ghost use Rattle.std.specs.Prelude.{Bool};

    ghost Value = { Bool };

    ghost view = { λ port. port.refused };
}

impl<'m, M: LockedMemory> LockPort<'m, M> {
    /// A port to this memory, which was not refused yet.
    pub fn new(memory: &'m Mutex<M>) -> LockPort<'m, M>
        ensures { result ≡ false }
    {
        LockPort {
            memory,
            refused: false,
            back_off: BackOff::new(),
        }
    }
}

impl<'m, M: LockedMemory> Port for LockPort<'m, M> {
    ghost made = { λ _. None };

    ghost is_refused = { λ port. port };

    fn ask<R: Wait>(&mut self, rt: &R, p: u8, s: u8, request: &Request) -> Result<Reply, NoRoom> {
        let reply = locked(rt, self.memory, &mut self.back_off).ask_for(p, s, request);
        if reply.is_err() {
            self.refused = true;
        }
        reply
    }

    fn refused(&self) -> bool {
        self.refused
    }
}

/// How often a thread looks at a lock that is held before it sleeps.
const LOOKS: u32 = 200;

/// Takes the lock. A thread that finds it held looks again some times, and sleeps at last.
fn locked<'m, M, R: Wait>(
    rt: &R,
    memory: &'m Mutex<M>,
    back_off: &mut BackOff,
) -> MutexGuard<'m, M> {
    if let Some(guard) = memory.try_lock() {
        back_off.was_free();
        return guard;
    }
    for looks in 0..LOOKS {
        back_off.pause(looks);
        if let Some(guard) = memory.try_lock() {
            return guard;
        }
    }
    memory.lock(rt)
}
