//! How a thread reaches the memory.

ghost use Rattle.std.specs.Prelude.{◌≡◌, ◌∷◌, [], Bool, true, List, Option, IfOk, OnOk, OnErr};
ghost use Rattle.processor.specs.declared.steps.Entry.{Entry};
ghost use Rattle.memory_lock.specs.Driving.{with_entries};

use shared_history::NoRoom;
use std::sync::Wait;
use tag_memory::{Reply, Request};

/// One thread's own way to the shared memory.
pub trait Port {
    /// The entries that it made, in order, where it keeps them.
    ghost made: { Self → Option (List Entry) };

    /// Whether it was refused.
    ghost is_refused: { Self → Bool };

    /// Asks the memory for stream `s` of processor `p`. It may wait. `NoRoom` where the memory has no room for an
    /// entry, or `p` is not below its processors: nothing is asked then.
    fn ask<R: Wait>(&mut self, rt: &R, p: u8, s: u8, request: &Request) -> Result<Reply, NoRoom>
        ensures ok { IfOk result (λ reply. made self.new
            ≡ with_entries (made self.old) (record { p = p; s = s; request = request.now; reply = reply } ∷ [])) }
        ensures err { OnErr result (made self.new ≡ made self.old) }
        ensures keeps { OnOk result (is_refused self.new ≡ is_refused self.old) }
        ensures refuses { OnErr result (is_refused self.new ≡ true) };

    /// Whether the memory ever answered it `NoRoom`.
    fn refused(&self) -> bool
        ensures { result ≡ is_refused self.now };
}
