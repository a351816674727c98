//! What holds of a memory in which no word has the forward bit.

ghost use Rattle.std.specs.Prelude.{◌≡◌, ◌≢◌, ◌/◌, ℕ, false};
ghost use Rattle.tag_memory.specs.Address.{address_of};
ghost use Rattle.tag_memory.specs.Storage.{TaggedMemory};
ghost use Rattle.tag_memory.specs.Answer.{answer};
ghost use Rattle.tag_memory.specs.Distant.{last_word, LeavesOut};
ghost use Rattle.tag_memory.specs.Unforwarded.{IsUnforwarded, sets_forward};
ghost use Rattle.tag_memory.specs.declared.requests.Request.{Request};

/// Where no word has the forward bit, none has it after a request that sets none. A request ends at the word of its own
/// pointer there, and is led to no other one.
pub fn unforwarded_memories_stay()
    ensures stays { (m : TaggedMemory) (q : Request) → IsUnforwarded m → sets_forward q.op q.value ≡ false
        → IsUnforwarded (answer m q).0 }
    ensures ends { (m : TaggedMemory) (q : Request) → IsUnforwarded m → last_word m q ≡ address_of q.pointer / 8 }
    ensures apart { (m : TaggedMemory) (q : Request) (k : ℕ) → IsUnforwarded m → address_of q.pointer / 8 ≢ k
        → LeavesOut m q k }
{}
