//! The finding that is shown of a run where one alone is.

ghost use Rattle.std.specs.Prelude.{◌≡◌, ◌||◌};
ghost use Rattle.std.specs.List.{list_any, position};
ghost use Rattle.first_findings.specs.Choosing.{is_between, is_about, first_by, first_finding};

use run_findings::{LostUpdate, TornRead, UnreadStore};

/// Where a finding stands among those of its kind, from 0.
#[derive(Clone, Copy, Debug, PartialEq, Eq)]
pub enum FindingPlace {
    /// Among the lost updates.
    Lost(usize),
    /// Among the torn reads.
    Torn(usize),
    /// Among the unread stores.
    Unread(usize),
}

/// The words from one to another.
#[derive(Clone, Copy, Debug, PartialEq, Eq)]
pub struct WordRange {
    /// The first one's byte address.
    pub first: u64,
    /// The last one's byte address.
    pub last: u64,
}

/// The finding of a run that is shown where one alone is: the first lost update, else torn read, else unread store, that is
/// about one of these words; where none is about them, the first of all in the same order. None only if there is no finding.
pub fn first_finding(
    lost: &[LostUpdate],
    torn: &[TornRead],
    unread: &[UnreadStore],
    words: &[WordRange],
) -> Option<FindingPlace>
    ensures { result ≡ first_finding lost.now torn.now unread.now words.now }
{
    match first_by(lost, torn, unread, words, false) {
        Some(place) => Some(place),
        None => first_by(lost, torn, unread, words, true),
    }
}

/// The first finding that is about one of these words, or about any word.
fn first_by(
    lost: &[LostUpdate],
    torn: &[TornRead],
    unread: &[UnreadStore],
    words: &[WordRange],
    is_any: bool,
) -> Option<FindingPlace>
    ensures { result ≡ first_by is_any words.now lost.now torn.now unread.now }
{
    if let Some(place) = lost_about(lost, words, is_any) {
        return Some(FindingPlace::Lost(place));
    }
    if let Some(place) = torn_about(torn, words, is_any) {
        return Some(FindingPlace::Torn(place));
    }
    match unread_about(unread, words, is_any) {
        Some(place) => Some(FindingPlace::Unread(place)),
        None => None,
    }
}

/// The place of the first lost update that is.
fn lost_about(lost: &[LostUpdate], words: &[WordRange], is_any: bool) -> Option<usize>
    ensures { result ≡ position (λ f. is_about is_any words.now f.word) lost.now }
{
    lost.iter().position(
        |found: &LostUpdate| -> bool
            ensures { result ≡ is_about is_any words.entry.now found.now.word }
        { is_about(words, is_any, found.word) },
    )
}

/// The place of the first torn read that is, by one of its words.
fn torn_about(torn: &[TornRead], words: &[WordRange], is_any: bool) -> Option<usize>
    ensures { result ≡ position (λ f. is_about is_any words.now f.stale || is_about is_any words.now f.fresh) torn.now }
{
    torn.iter().position(
        |found: &TornRead| -> bool
            ensures { result
                ≡ (is_about is_any words.entry.now found.now.stale || is_about is_any words.entry.now found.now.fresh) }
        { is_about(words, is_any, found.stale) || is_about(words, is_any, found.fresh) },
    )
}

/// The place of the first unread store that is.
fn unread_about(unread: &[UnreadStore], words: &[WordRange], is_any: bool) -> Option<usize>
    ensures { result ≡ position (λ f. is_about is_any words.now f.word) unread.now }
{
    unread.iter().position(
        |found: &UnreadStore| -> bool
            ensures { result ≡ is_about is_any words.entry.now found.now.word }
        { is_about(words, is_any, found.word) },
    )
}

/// Whether a byte address is one of these words, or any will do.
fn is_about(words: &[WordRange], is_any: bool, address: u64) -> bool
    ensures { result ≡ is_about is_any words.now address }
{
    is_any || is_among(words, address)
}

/// Whether a byte address is one of these words.
fn is_among(words: &[WordRange], address: u64) -> bool
    ensures { result ≡ list_any (is_between address) words.now }
{
    words.iter().any(
        |range: &WordRange| -> bool
            ensures { result ≡ is_between address range.now }
        { range.first <= address && address <= range.last },
    )
}
