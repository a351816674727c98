//! Of which words of the memory the lines of a case speak.

ghost use Rattle.std.specs.Prelude.{◌≡◌, ◌+◌, ◌*◌, ◌≤◌, ◌<◌, ℕ, Some, map, IfOk};
ghost use Rattle.expectations.specs.WordRanges.{word_count};
ghost use Rattle.case_cells.specs.SpokenWords.{spoken_at_end, spoken_in_claim, spoken_in_work, spoken_words};
ghost use Rattle.case_cells.specs.SpokenWords.{is_word_at, is_same_word, are_same_words, is_same_range, is_alike, first_other};

use crate::named_words::WordPlaces;
use claims::{Claim, ClaimForm};
use expectation_files::Requirements;
use expectations::Expectation;
use std::alloc::{AllocError, Global};
use work_rules::WorkRule;

/// The words from one to another.
#[derive(Clone, Copy, Debug, PartialEq, Eq)]
pub struct SpokenRange {
    /// The first one's byte address.
    pub first: u64,
    /// The last one's byte address.
    pub last: u64,
}

/// The words of which a line speaks.
#[derive(Clone, Copy, Debug, PartialEq, Eq)]
pub struct SpokenWords {
    /// Those of its first address or range; None if it has none.
    pub one: Option<SpokenRange>,
    /// Those of its second one; None if it has none.
    pub other: Option<SpokenRange>,
}

/// The words of which the lines about the end speak, then those of the claims, and then those of the lines about who does the
/// work, in their order.
pub fn spoken_words(alloc: Global, required: &Requirements) -> Result<Vec<SpokenWords>, AllocError>
    ensures { IfOk result (λ words. words.items ≡ spoken_words required.now) }
{
    let mut words = words_of_ends(alloc, required.ends())?;
    let mut others = words_of_claims(alloc, required.claims())?;
    let of_work = words_of_work(alloc, required.work())?;
    others.extend_from_slice(&of_work)?;
    words.extend_from_slice(&others)?;
    Ok(words)
}

/// The words of which lines about the end speak.
fn words_of_ends(alloc: Global, ends: &[Expectation]) -> Result<Vec<SpokenWords>, AllocError>
    ensures { IfOk result (λ words. words.items ≡ map spoken_at_end ends.now) }
{
    let mut words = Vec::new(alloc);
    for end in ends {
        words.push(spoken_at_end(end))?;
    }
    Ok(words)
}

/// The words of which claims speak.
fn words_of_claims(alloc: Global, claims: &[Claim]) -> Result<Vec<SpokenWords>, AllocError>
    ensures { IfOk result (λ words. words.items ≡ map spoken_in_claim claims.now) }
{
    let mut words = Vec::new(alloc);
    for claim in claims {
        words.push(spoken_in_claim(claim))?;
    }
    Ok(words)
}

/// The words of which lines about who does the work speak.
fn words_of_work(alloc: Global, rules: &[WorkRule]) -> Result<Vec<SpokenWords>, AllocError>
    ensures { IfOk result (λ words. words.items ≡ map spoken_in_work rules.now) }
{
    let mut words = Vec::new(alloc);
    for rule in rules {
        words.push(spoken_in_work(*rule))?;
    }
    Ok(words)
}

/// The words of which a line about who does the work speaks.
fn spoken_in_work(rule: WorkRule) -> SpokenWords
    ensures { result ≡ spoken_in_work rule }
{
    let one = match rule {
        WorkRule::Writes { address, .. } => one_word(address),
        WorkRule::AtLeast { first, last, .. } => Some(SpokenRange { first, last }),
    };
    SpokenWords { one, other: None }
}

/// The words of which a line about the end speaks.
fn spoken_at_end(end: &Expectation) -> SpokenWords
    ensures { result ≡ spoken_at_end end.now }
{
    match *end {
        Expectation::Word { address, .. } => SpokenWords {
            one: one_word(address),
            other: None,
        },
        Expectation::Words { first, last, .. } | Expectation::Sum { first, last, .. } =>
            SpokenWords {
                one: Some(SpokenRange { first, last }),
                other: None,
            },
        Expectation::Compared { address, other, .. } => SpokenWords {
            one: one_word(address),
            other: one_word(other),
        },
        Expectation::Register { .. }
        | Expectation::Finished
        | Expectation::Stopped { .. }
        | Expectation::Waits { .. }
        | Expectation::Loops => SpokenWords {
            one: None,
            other: None,
        },
    }
}

/// The words of which a claim speaks.
fn spoken_in_claim(claim: &Claim) -> SpokenWords
    ensures { result ≡ spoken_in_claim claim.now }
{
    match &claim.form {
        ClaimForm::Word { address, .. } => SpokenWords {
            one: one_word(*address),
            other: None,
        },
        ClaimForm::Compared { address, other, .. } => SpokenWords {
            one: one_word(*address),
            other: one_word(*other),
        },
        ClaimForm::Streams { .. } => SpokenWords {
            one: None,
            other: None,
        },
    }
}

/// The word of a byte address.
fn one_word(address: u64) -> Option<SpokenRange>
    ensures { result ≡ Some (record { first = address; last = address }) }
{
    Some(SpokenRange {
        first: address,
        last: address,
    })
}

/// The place of the first line that speaks of other words of a submission (`own`) than those of the case of which it speaks
/// (`given`), or of words that stand at none of the places.
pub fn first_other(
    places: &[WordPlaces],
    given: &[SpokenWords],
    own: &[SpokenWords],
) -> Option<usize>
    ensures { result ≡ first_other places.now 0 given.now own.now }
{
    let mut rest = own;
    let mut place = 0;
    for words in given {
        match rest {
            [first, later @ ..] => {
                if !is_alike(places, words, first) {
                    return Some(place);
                }
                rest = later;
            }
            [] => return Some(place),
        }
        place += 1;
    }
    None
}

/// Whether the words of a case of which a line speaks are those of the submission of which it speaks.
fn is_alike(places: &[WordPlaces], given: &SpokenWords, own: &SpokenWords) -> bool
    ensures { result ≡ is_alike places.now given.now own.now }
{
    is_same_range(places, given.one, own.one) && is_same_range(places, given.other, own.other)
}

/// The same of one range of words.
fn is_same_range(
    places: &[WordPlaces],
    given: Option<SpokenRange>,
    own: Option<SpokenRange>,
) -> bool
    ensures { result ≡ is_same_range places.now given own }
{
    match (given, own) {
        (None, None) => true,
        (Some(given), Some(own)) => are_same_words(places, given, own),
        (None, Some(_)) | (Some(_), None) => false,
    }
}

/// Whether as many words of a submission are those of a case, one after the other.
fn are_same_words(places: &[WordPlaces], given: SpokenRange, own: SpokenRange) -> bool
    ensures { result ≡ are_same_words places.now given own }
{
    let count = word_count(given);
    if count != word_count(own) {
        return false;
    }
    for number in 0..count {
        if !is_same_word(places, given.first + 8 * number, own.first + 8 * number) {
            return false;
        }
    }
    true
}

/// How many words a range has.
fn word_count(range: SpokenRange) -> u64
    ensures is { result ≡ word_count range.first range.last }
    ensures within { (k : ℕ) → k < result → range.first + 8 * k ≤ range.last }
{
    if range.last < range.first {
        0
    } else {
        (range.last - range.first) / 8 + 1
    }
}

/// Whether the word of a byte address of a submission is the word of another byte address of a case, by one of the places.
fn is_same_word(places: &[WordPlaces], given: u64, own: u64) -> bool
    ensures { result ≡ is_same_word places.now given own }
{
    let (given, own) = (given as usize / 8, own as usize / 8);
    places.iter().any(
        |place: &WordPlaces| -> bool
            ensures { result ≡ is_word_at given own place.now }
        { is_word_at(place, given, own) },
    )
}

/// Whether a word of a submission is a word of a case by this place.
fn is_word_at(place: &WordPlaces, given: usize, own: usize) -> bool
    ensures { result ≡ is_word_at given own place.now }
{
    place.given <= given
        && given - place.given < place.count
        && place.own <= own
        && own - place.own == given - place.given
}
