//! Which writes are halves of one change, and which reads are torn by them.

ghost use Rattle.std.specs.Prelude.{◌≡◌, ◌<◌, length};
ghost use Rattle.run_findings.specs.TornReads.{other_half, is_other_half, is_torn_pair, is_of_later_round, lets_go};
ghost use Rattle.run_findings.specs.Links.{AreWrites};

use crate::actions::Action;
use crate::glimpse::Glimpse;
use crate::pairs::{Look, is_half};
use crate::parting::{Meeting, Pair, word_changed};
use crate::searching::{Sought, is_any_after};
use processor::Step;

/// The word that a step changed, where that belongs to the change that is seen.
#[tactic(auto, unfolding(crate::specs::TornReads::other_half))]
pub(crate) fn other_half(
    actions: &[Action],
    past_writes: &[Option<usize>],
    glimpse: &Glimpse,
    write: usize,
) -> Option<u64>
    requires fresh_in { glimpse.now.fresh_write < length actions.now }
    requires write_in { write < length actions.now }
    requires linked { AreWrites actions.now past_writes.now }
    ensures { result ≡ other_half actions.now glimpse.now write }
{
    let action = &actions[write];
    let stale = word_changed(&action.access)?;
    if is_other_half(actions, past_writes, glimpse, stale, action.stream, write) {
        Some(stale)
    } else {
        None
    }
}

/// Whether a write of this word by a stream belongs to the change that is seen.
fn is_other_half(
    actions: &[Action],
    past_writes: &[Option<usize>],
    glimpse: &Glimpse,
    stale: u64,
    stream: Step,
    write: usize,
) -> bool
    requires fresh_in { glimpse.now.fresh_write < length actions.now }
    requires write_in { write < length actions.now }
    requires linked { AreWrites actions.now past_writes.now }
    ensures { result ≡ is_other_half actions.now glimpse.now stale stream write }
{
    let changes = Pair {
        way: Meeting::Writes,
        stream: glimpse.writer,
        one: stale,
        other: glimpse.fresh,
    };
    stream.p == glimpse.writer.p
        && stream.s == glimpse.writer.s
        && stale != glimpse.fresh
        && !changes.is_parted(actions, past_writes, write, glimpse.fresh_write)
}

/// Whether this read of a word with this write of it makes a pair that is torn.
pub(crate) fn is_torn_pair(
    actions: &[Action],
    past_writes: &[Option<usize>],
    glimpse: &Glimpse,
    stale: u64,
    write: usize,
    read: usize,
) -> bool
    requires glimpse_in { glimpse.now.fresh_read < length actions.now }
    requires fresh_in { glimpse.now.fresh_write < length actions.now }
    requires write_in { write < length actions.now }
    requires read_in { read < length actions.now }
    requires linked { AreWrites actions.now past_writes.now }
    ensures { result ≡ is_torn_pair actions.now glimpse.now stale write read }
{
    let one = Look {
        word: stale,
        step: read,
    };
    let other = Look {
        word: glimpse.fresh,
        step: glimpse.fresh_read,
    };
    !is_of_later_round(actions, glimpse, stale, write, read)
        && !lets_go(actions, past_writes, glimpse, stale, write, read)
        && is_half(actions, glimpse.reader, one, other)
}

/// Whether the write of a word comes after the glimpse's, and the writer wrote the word between the read and the
/// glimpse's write already.
fn is_of_later_round(
    actions: &[Action],
    glimpse: &Glimpse,
    stale: u64,
    write: usize,
    read: usize,
) -> bool
    requires { glimpse.now.fresh_write < length actions.now }
    ensures { result ≡ is_of_later_round actions.now glimpse.now.writer stale read write glimpse.now.fresh_write }
{
    let writes = Sought::WrittenBy(glimpse.writer);
    glimpse.fresh_write < write && is_any_after(actions, read, glimpse.fresh_write, stale, writes)
}

/// Whether the reader wrote some word between its reads, and the writer, before its write, heard of what another stream
/// wrote after the read.
fn lets_go(
    actions: &[Action],
    past_writes: &[Option<usize>],
    glimpse: &Glimpse,
    stale: u64,
    write: usize,
    read: usize,
) -> bool
    requires glimpse_in { glimpse.now.fresh_read < length actions.now }
    requires write_in { write < length actions.now }
    requires read_in { read < length actions.now }
    requires linked { AreWrites actions.now past_writes.now }
    ensures { result ≡ lets_go actions.now glimpse.now.reader glimpse.now.writer stale glimpse.now.fresh read
        glimpse.now.fresh_read write }
{
    let written = Sought::WritesBy(glimpse.reader);
    let news = Pair {
        way: Meeting::News,
        stream: glimpse.writer,
        one: stale,
        other: glimpse.fresh,
    };
    is_any_after(actions, read, glimpse.fresh_read, stale, written)
        && news.is_parted(actions, past_writes, read, write)
}
