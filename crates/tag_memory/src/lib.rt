//! The tagged memory of the machine: words with four tags, and the answer to one request at a time.
//! docs/MACHINE.md has the rules in words: words and tags, pointers, the request rules, forwarding and the full/empty
//! table.
#![tactic(auto)]

mod adds;
mod bank;
mod chain;
mod distant;
mod endings;
mod full_empty;
mod packed_tags;
mod pointers;
mod read_requests;
mod requests;
mod serving;
mod storage;
mod tag_set;
mod tagged_word;
mod unforwarded;

pub use adds::adds_commute_but_for_numbers;
pub use distant::distant_requests_swap;
pub use endings::Ending;
pub use pointers::{AccessControl, Pointer};
pub use read_requests::read_requests_change_nothing;
pub use requests::{Acc, MemOp, MemTrap, Reply, Request, RequestMask};
pub use serving::serving_laws;
pub use storage::{DEFAULT_CHAIN_LIMIT, MAX_CHAIN_LIMIT, MAX_WORDS, Memory};
pub use tag_set::Tags;
pub use tagged_word::Word;
pub use unforwarded::unforwarded_memories_stay;
