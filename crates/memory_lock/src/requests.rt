//! One request of a memory, as both ports make it.

ghost use Rattle.std.specs.Prelude.{◌≡◌, ◌≤◌, ◌-◌, ◌++◌, ◌∷◌, [], ◌↔◌, ◌⊎◌, length, IfOk, OnErr, IsErr};

use shared_history::{NoRoom, SharedMemory};
use tag_memory::{Reply, Request};

/// Asks the memory for stream `s` of processor `p`. `NoRoom` exactly where it has no such processor, or no room for an
/// entry: then nothing is asked and nothing changes.
#[inline(always)]
pub(crate) fn ask_memory(
    memory: &mut SharedMemory,
    p: u8,
    s: u8,
    request: &Request,
) -> Result<Reply, NoRoom>
    ensures ok { IfOk result (λ reply. memory.new ≡ record memory.old {
      history = memory.old.history ++ record { p = p; s = s; request = request.now; reply = reply } ∷ [];
      spare = memory.old.spare - 1;
    }) }
    ensures refuses { IsErr result ↔ ((length memory.old.image.entries ≤ p) ⊎ (memory.old.spare ≡ 0)) }
    ensures err { OnErr result (memory.new ≡ memory.old) }
{
    if usize::from(p) >= memory.image().processors() {
        return Err(NoRoom);
    }
    memory.ask(p, s, request)
}
