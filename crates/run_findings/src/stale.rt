//! The reads near a glimpse that may be torn from it: those of other words, which are written later.

ghost use Rattle.std.specs.Prelude.{◌≡◌, ℕ, ◌<◌, [], false, length, IfOk, OnOk};
ghost use Rattle.run_findings.specs.TornReads.{is_load_of, is_later, torn_by_read, torn_by_write};
ghost use Rattle.run_findings.specs.Links.{AreWrites, AreLastWrites, is_overwritten};
ghost use Rattle.run_findings.specs.Rounds.{is_stale_look, is_look, is_other};
ghost use Rattle.run_findings.specs.Stale.{AreLooks, AreWithin, found_in, with_look};

use crate::actions::Action;
use crate::glimpse::Glimpse;
use crate::parting::{Meeting, word_changed, word_loaded};
use crate::rounds::Round;
use std::alloc::{AllocError, Global};

/// The reads near a glimpse, in their order, that may be torn from it. No other is.
pub(crate) fn stale_looks(
    alloc: Global,
    actions: &[Action],
    past_writes: &[Option<usize>],
    last_writes: &[Option<usize>],
    glimpse: &Glimpse,
) -> Result<Vec<usize>, AllocError>
    requires read_in { glimpse.now.fresh_read < length actions.now }
    requires linked { AreWrites actions.now past_writes.now }
    requires last { AreLastWrites actions.now last_writes.now }
    ensures { IfOk result (λ looks. AreLooks actions.now glimpse.now looks.items) }
{
    let round = Round {
        way: Meeting::Reads,
        stream: glimpse.reader,
        word: glimpse.fresh,
    };
    let start = round.start(actions, past_writes, glimpse.fresh_read);
    let end = round.end(actions, past_writes, glimpse.fresh_read);
    let mut looks = Vec::new(alloc);
    for read in start..end {
        note_look(&mut looks, actions, last_writes, glimpse, read)?;
    }
    Ok(looks)
}

/// Notes a step, if it is such a read.
fn note_look(
    looks: &mut Vec<usize>,
    actions: &[Action],
    last_writes: &[Option<usize>],
    glimpse: &Glimpse,
    read: usize,
) -> Result<(), AllocError>
    requires read_in { read < length actions.now }
    requires last { AreLastWrites actions.now last_writes.now }
    ensures { OnOk result (looks.new.items
        ≡ with_look (is_stale_look actions.now glimpse.now read) looks.old.items read) }
{
    if is_stale_look(actions, last_writes, glimpse, read) {
        looks.push(read)?;
    }
    Ok(())
}

/// Whether one of these reads is of the word that a step changed. Where none is, the step tears none.
pub(crate) fn may_tear(actions: &[Action], looks: &[usize], write: usize) -> bool
    requires write_in { write < length actions.now }
    requires looks_in { AreWithin actions.now looks.now }
    ensures { result ≡ false → (g : Glimpse) → AreLooks actions.now g looks.now → torn_by_write actions.now g write ≡ [] }
{
    match word_changed(&actions[write].access) {
        Some(word) => is_looked_at(actions, looks, word),
        None => false,
    }
}

/// Whether one of these reads is of a word.
fn is_looked_at(actions: &[Action], looks: &[usize], word: u64) -> bool
    requires looks_in { AreWithin actions.now looks.now }
    ensures { result ≡ false → (g : Glimpse) (k : ℕ) → found_in (torn_by_read actions.now g word k) looks.now ≡ [] }
{
    for look in looks {
        if is_load_of(word_loaded(&actions[*look].access), word) {
            return true;
        }
    }
    false
}

/// Whether a step is a LOAD of the reader of another word than the glimpse's, which is written later.
fn is_stale_look(
    actions: &[Action],
    last_writes: &[Option<usize>],
    glimpse: &Glimpse,
    read: usize,
) -> bool
    requires read_in { read < length actions.now }
    requires last { AreLastWrites actions.now last_writes.now }
    ensures { result ≡ is_stale_look actions.now glimpse.now read }
{
    is_look(&actions[read], glimpse) && is_overwritten(actions, last_writes, read)
}

/// Whether the word of a step is written after it.
fn is_overwritten(actions: &[Action], last_writes: &[Option<usize>], read: usize) -> bool
    requires read_in { read < length actions.now }
    requires last { AreLastWrites actions.now last_writes.now }
    ensures { result ≡ is_overwritten actions.now read }
{
    is_later(read, last_writes[read])
}

/// Whether a step, if there is one, comes after step `first`.
fn is_later(first: usize, step: Option<usize>) -> bool
    ensures { result ≡ is_later first step }
{
    match step {
        Some(step) => first < step,
        None => false,
    }
}

/// Whether a step is a LOAD of the reader of another word than the glimpse's.
fn is_look(action: &Action, glimpse: &Glimpse) -> bool
    ensures { result ≡ is_look glimpse.now action.now }
{
    action.is_by(glimpse.reader) && is_other(word_loaded(&action.access), glimpse.fresh)
}

/// Whether it is a word other than this.
fn is_other(loaded: Option<u64>, address: u64) -> bool
    ensures { result ≡ is_other loaded address }
{
    match loaded {
        Some(word) => word != address,
        None => false,
    }
}

/// Whether this word was loaded.
pub(crate) fn is_load_of(loaded: Option<u64>, address: u64) -> bool
    ensures { result ≡ is_load_of loaded address }
{
    match loaded {
        Some(word) => word == address,
        None => false,
    }
}
