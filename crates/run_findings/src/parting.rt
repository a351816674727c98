//! What parts two steps of a stream that else belong together.

ghost use Rattle.std.specs.Prelude.{◌≡◌, ℕ, ◌≤◌, ◌<◌, true, length, Some};
ghost use Rattle.std.specs.Option.{option_copied};
ghost use Rattle.run_findings.specs.Actions.{is_by};
ghost use Rattle.run_findings.specs.Places.{passes};
ghost use Rattle.run_findings.specs.Links.{AreWrites, word_at, news_at, other_step};
ghost use Rattle.run_findings.specs.TornReads.{word_loaded, word_heard, word_changed, meets, are_parted};
ghost use Rattle.run_findings.specs.TornReads.{is_newer, brings_news};
ghost use Rattle.run_findings.specs.TornReads.{any_between, parts_at};

use crate::actions::{Access, Action, is_load, op_hears};
use crate::searching::last_write;
use processor::Step;

/// How the steps that may be parted meet their words.
#[derive(Clone, Copy)]
pub(crate) enum Meeting {
    /// They read them.
    Reads,
    /// They write them.
    Writes,
    /// It does not matter how: they are parted by news alone.
    News,
}

impl Meeting {
    /// Whether a step meets the word at this address so.
    pub(crate) fn meets(self, address: u64, action: &Action) -> bool
        ensures { result ≡ meets self address action.now }
    {
        match self {
            Meeting::Reads => action.reads(address),
            Meeting::Writes => action.writes(address),
            Meeting::News => false,
        }
    }
}

/// Two words, and a stream that meets both of them.
#[derive(Clone, Copy)]
pub(crate) struct Pair {
    /// How it meets them.
    pub(crate) way: Meeting,
    /// The stream.
    pub(crate) stream: Step,
    /// The address of one word.
    pub(crate) one: u64,
    /// The address of the other.
    pub(crate) other: u64,
}

impl Pair {
    /// Whether two steps, in which the stream meets the words, are parted by one between them.
    pub(crate) fn is_parted(
        &self,
        actions: &[Action],
        past_writes: &[Option<usize>],
        m: usize,
        n: usize,
    ) -> bool
        requires m_in { m ≤ length actions.now }
        requires n_in { n ≤ length actions.now }
        requires linked { AreWrites actions.now past_writes.now }
        ensures { result ≡ are_parted actions.now self.now.way self.now.stream self.now.one self.now.other m n }
    {
        if m < n {
            self.is_parted_between(actions, past_writes, m, n)
        } else {
            self.is_parted_between(actions, past_writes, n, m)
        }
    }

    /// The same of steps in this order.
    fn is_parted_between(
        &self,
        actions: &[Action],
        past_writes: &[Option<usize>],
        first: usize,
        last: usize,
    ) -> bool
        requires order { first ≤ last }
        requires last_in { last ≤ length actions.now }
        requires linked { AreWrites actions.now past_writes.now }
        ensures { result ≡ any_between
            (parts_at actions.now self.now.way self.now.stream self.now.one self.now.other first) first last }
    {
        for place in first + 1..last {
            if self.is_parted_by(actions, past_writes, first, place) {
                return true;
            }
        }
        false
    }

    /// Whether a step parts them, of which the first is in step `first`.
    pub(crate) fn is_parted_by(
        &self,
        actions: &[Action],
        past_writes: &[Option<usize>],
        first: usize,
        place: usize,
    ) -> bool
        requires place_in { place < length actions.now }
        requires linked { AreWrites actions.now past_writes.now }
        ensures { result ≡ parts_at actions.now self.now.way self.now.stream self.now.one self.now.other first place }
    {
        let action = &actions[place];
        action.is_by(self.stream)
            && (self.way.meets(self.one, action)
                || self.way.meets(self.other, action)
                || brings_news(
                    actions,
                    past_writes,
                    self.stream,
                    first,
                    place,
                    word_heard(&action.access),
                ))
    }
}

/// Whether step `place`, which hears of this word, hears of what another stream wrote after step `first`.
fn brings_news(
    actions: &[Action],
    past_writes: &[Option<usize>],
    stream: Step,
    first: usize,
    place: usize,
    word: Option<u64>,
) -> bool
    requires place_in { place < length actions.now }
    requires heard { (a : ℕ) → word ≡ Some a → word_at actions.now place ≡ Some a }
    requires linked { AreWrites actions.now past_writes.now }
    ensures { result ≡ brings_news actions.now stream first place word }
{
    match word {
        Some(address) => is_newer(
            actions,
            stream,
            first,
            last_write(actions, past_writes, place, address),
        ),
        None => false,
    }
}

/// The step of another stream of which step `place` hears, as the last write of its word; 0 where it hears of none.
pub(crate) fn last_news(
    actions: &[Action],
    past_writes: &[Option<usize>],
    stream: Step,
    place: usize,
) -> usize
    requires place_in { place < length actions.now }
    requires linked { AreWrites actions.now past_writes.now }
    ensures within { result ≤ place }
    ensures news { (k : ℕ) → k < result → news_at actions.now stream k place ≡ true }
{
    match word_heard(&actions[place].access) {
        Some(word) => other_step(
            actions,
            stream,
            last_write(actions, past_writes, place, word),
        ),
        None => 0,
    }
}

/// A step, if there is one and it is another stream's; else 0.
fn other_step(actions: &[Action], stream: Step, step: Option<usize>) -> usize
    ensures { result ≡ other_step actions.now stream step }
{
    match step {
        Some(step) => {
            if is_step_of(actions.get(step), stream) {
                0
            } else {
                step
            }
        }
        None => 0,
    }
}

/// Whether a step, if there is one, comes after step `first` and is another stream's.
fn is_newer(actions: &[Action], stream: Step, first: usize, step: Option<usize>) -> bool
    ensures { result ≡ is_newer actions.now stream first step }
{
    match step {
        Some(step) => first < step && !is_step_of(actions.get(step), stream),
        None => false,
    }
}

/// Whether a step is of this stream, if there is one.
fn is_step_of(action: Option<&Action>, stream: Step) -> bool
    ensures { result ≡ passes (is_by stream) (option_copied action.entry) }
{
    match action {
        Some(action) => action.is_by(stream),
        None => false,
    }
}

/// The word that a LOAD read, if it did.
pub(crate) fn word_loaded(access: &Option<Access>) -> Option<u64>
    ensures { result ≡ word_loaded access.now }
{
    match access {
        Some(access) if is_load(access.op) => Some(access.address),
        _ => None,
    }
}

/// The word of which an access may bring news, if it may.
fn word_heard(access: &Option<Access>) -> Option<u64>
    ensures { result ≡ word_heard access.now }
{
    match access {
        Some(access) if op_hears(access.op, access.full) => Some(access.address),
        _ => None,
    }
}

/// The full word whose value an access changed, if it did: what stands in an empty word nobody may read.
pub(crate) fn word_changed(access: &Option<Access>) -> Option<u64>
    ensures { result ≡ word_changed access.now }
{
    match access {
        Some(access) if access.before != access.after && access.full => Some(access.address),
        _ => None,
    }
}
