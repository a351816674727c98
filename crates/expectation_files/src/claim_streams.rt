//! What a claim says of streams.

ghost use Rattle.std.specs.Prelude.{◌≡◌, ◌==◌, ◌&&◌, ◌<◌, ◌++◌, ◌∷◌, false, length, map, List, [], Ok, Err, IfOk, IfErr};
ghost use Rattle.std.specs.Option.{option_map};
ghost use Rattle.claims.specs.Missing.{has_stream};
ghost use Rattle.expectation_files.specs.Words.{words_of};
ghost use Rattle.expectation_files.specs.Values.{stream_named};
ghost use Rattle.claims.specs.declared.claim.CountTest.TheVariants as count;
ghost use Rattle.expectation_files.specs.ClaimLines.{is_among, next_stream, group_of, last_group, groups_said, counted_of};
ghost use Rattle.expectation_files.specs.ClaimLines.{streams_claimed, ends_with_comma, without_comma, GroupValue};
ghost use Rattle.expectation_files.specs.Seen.{names_in, form_seen, group_seen};
ghost use Rattle.expectation_files.specs.declared.faults.Unread.TheVariants as unread;
ghost use Rattle.expectation_files.specs.declared.faults.LineFault.{LineFault};

use crate::addresses::{KnownNames, places_said};
use crate::claim_tests::CLAIM;
use crate::faults::{LineFault, LineFaultKind, Unread};
use crate::values::{count_named, stream_named};
use crate::words::next_word;
use claims::{ClaimForm, CountTest, StreamGroup};
use image_file::Image;
use processor::Step;
use std::alloc::Global;

/// Which word of a line the first stream is.
const FIRST_STREAM: usize = 5;

/// `most N of GROUPS` or `least N of GROUPS`: at most, or at least, so many of the streams of groups run at places of their
/// ranges. A group is `P.S .. in FIRST..LAST`, and a comma right after a range has another group after it.
#[tactic(auto, unfolding(crate::specs::ClaimLines::streams_claimed))]
pub(crate) fn read_streams(
    alloc: Global,
    names: KnownNames<'_, '_, '_>,
    image: &Image,
    text: &[u8],
) -> Result<ClaimForm, Unread>
    ensures means { IfOk result (λ f. streams_claimed (names_in names.entry) image.now (words_of text.now) ≡ Ok (form_seen f)) }
    ensures fault { IfErr result (λ u. (f : LineFault) → u ≡ unread.Fault f
        → streams_claimed (names_in names.entry) image.now (words_of text.now) ≡ Err f) }
{
    let Some((limit, rest)) = next_word(text) else {
        return Err(Unread::Fault(LineFault::at(1, CLAIM)));
    };
    let Some((number, rest)) = next_word(rest) else {
        return Err(Unread::Fault(LineFault::at(1, CLAIM)));
    };
    let Some((of, rest)) = next_word(rest) else {
        return Err(Unread::Fault(LineFault::at(1, CLAIM)));
    };
    if limit == b"most".as_slice() {
        let test = at_most(count_named(number));
        return counted_of(alloc, names, image, of, test, rest);
    }
    if limit == b"least".as_slice() {
        let test = at_least(count_named(number));
        return counted_of(alloc, names, image, of, test, rest);
    }
    Err(Unread::Fault(LineFault::at(2, CLAIM)))
}

fn at_most(number: Option<usize>) -> Option<CountTest>
    ensures { result ≡ option_map (λ k. count.AtMost k) number }
{
    Some(CountTest::AtMost(number?))
}

fn at_least(number: Option<usize>) -> Option<CountTest>
    ensures { result ≡ option_map (λ k. count.AtLeast k) number }
{
    Some(CountTest::AtLeast(number?))
}

/// So many of the streams of the groups of a text, after the word `of`.
fn counted_of(
    alloc: Global,
    names: KnownNames<'_, '_, '_>,
    image: &Image,
    of: &[u8],
    test: Option<CountTest>,
    text: &[u8],
) -> Result<ClaimForm, Unread>
    ensures means { IfOk result (λ f. counted_of (names_in names.entry) image.now of.now test (words_of text.now)
        ≡ Ok (form_seen f)) }
    ensures fault { IfErr result (λ u. (f : LineFault) → u ≡ unread.Fault f
        → counted_of (names_in names.entry) image.now of.now test (words_of text.now) ≡ Err f) }
{
    if of != b"of".as_slice() {
        return Err(Unread::Fault(LineFault::at(4, CLAIM)));
    }
    let Some(test) = test else {
        return Err(Unread::Fault(LineFault::at(3, LineFaultKind::Count)));
    };
    let groups = groups_said(alloc, names, image, text)?;
    Ok(ClaimForm::Streams { test, groups })
}

/// The groups of a text, each of one stream at least.
#[tactic(auto, using(crate::proofs::WordCounts::few_words))]
fn groups_said(
    alloc: Global,
    names: KnownNames<'_, '_, '_>,
    image: &Image,
    text: &[u8],
) -> Result<Vec<StreamGroup>, Unread>
    ensures means { IfOk result (λ gs. groups_said (names_in names.entry) image.now 5 [] [] false (words_of text.now)
        ≡ Ok (map group_seen gs.items)) }
    ensures fault { IfErr result (λ u. (f : LineFault) → u ≡ unread.Fault f
        → groups_said (names_in names.entry) image.now 5 [] [] false (words_of text.now) ≡ Err f) }
{
    let mut groups = Vec::new(alloc);
    let mut streams = Vec::new(alloc);
    let mut number = FIRST_STREAM;
    let mut rest = text;
    while let Some((word, following)) = next_word(rest) {
        if word != b"in".as_slice() {
            streams.push(next_stream(image, number, &streams, word)?)?;
            rest = following;
            number += 1;
            continue;
        }
        let Some((range, following)) = next_word(following) else {
            return Err(Unread::Fault(LineFault::at(1, CLAIM)));
        };
        if !ends_with_comma(range) {
            groups.push(last_group(names, image, number + 1, streams, range, following)?)?;
            return Ok(groups);
        }
        let range = without_comma(range);
        groups.push(group_of(names, image, number + 1, streams, range)?)?;
        streams = Vec::new(alloc);
        rest = following;
        number += 2;
    }
    Err(Unread::Fault(LineFault::at(1, CLAIM)))
}

/// The last group, after whose range nothing stands.
fn last_group(
    names: KnownNames<'_, '_, '_>,
    image: &Image,
    number: usize,
    streams: Vec<Step>,
    range: &[u8],
    rest: &[u8],
) -> Result<StreamGroup, LineFault>
    ensures means { (gs : List GroupValue) → IfOk result (λ g. last_group gs (words_of rest.now)
        (group_of (names_in names.entry) image.now number streams.items range.now) ≡ Ok (gs ++ group_seen g ∷ [])) }
    ensures fault { (gs : List GroupValue) → IfErr result (λ f. last_group gs (words_of rest.now)
        (group_of (names_in names.entry) image.now number streams.items range.now) ≡ Err f) }
{
    if next_word(rest).is_some() {
        return Err(LineFault::at(1, CLAIM));
    }
    group_of(names, image, number, streams, range)
}

/// Streams, and the range in which they count, which is the word of this number.
fn group_of(
    names: KnownNames<'_, '_, '_>,
    image: &Image,
    number: usize,
    streams: Vec<Step>,
    range: &[u8],
) -> Result<StreamGroup, LineFault>
    ensures means { IfOk result (λ g. group_of (names_in names.entry) image.now number streams.items range.now
        ≡ Ok (group_seen g)) }
    ensures fault { IfErr result (λ f. group_of (names_in names.entry) image.now number streams.items range.now
        ≡ Err f) }
{
    if streams.is_empty() {
        return Err(LineFault::at(1, CLAIM));
    }
    match places_said(names, image.program().len(), range) {
        Ok(range) => Ok(StreamGroup {
            streams,
            first: range.first,
            last: range.last,
        }),
        Err(kind) => Err(LineFault::at(number, kind)),
    }
}

/// Whether another group follows the one whose range is this word.
fn ends_with_comma(range: &[u8]) -> bool
    ensures { result ≡ ends_with_comma range.now }
{
    !range.is_empty() && range[range.len() - 1] == b','
}

/// A word without its last byte.
fn without_comma(range: &[u8]) -> &[u8]
    requires some { 0 < length range.now }
    ensures { result.now ≡ without_comma range.now }
{
    &range[..range.len() - 1]
}

/// The stream that the word of this number names, which the image has, and which is none of those of its group before it.
pub(crate) fn next_stream(
    image: &Image,
    number: usize,
    before: &[Step],
    word: &[u8],
) -> Result<Step, LineFault>
    ensures { result ≡ next_stream image.now number before.now (stream_named word.now) }
{
    let stream = stream_named(word).ok_or(LineFault::at(number, LineFaultKind::Stream))?;
    if !has_stream(image, stream) {
        return Err(LineFault::at(number, LineFaultKind::MissingStream));
    }
    if is_among(before, stream) {
        return Err(LineFault::at(number, LineFaultKind::Twice));
    }
    Ok(stream)
}

/// Whether a stream is among these.
fn is_among(streams: &[Step], stream: Step) -> bool
    ensures { result ≡ is_among streams.now stream }
{
    streams.iter().any(
        |other: &Step| -> bool
            ensures { result ≡ (other.now.p == stream.p && other.now.s == stream.s) }
        { other.p == stream.p && other.s == stream.s },
    )
}

/// Whether an image has a stream.
pub(crate) fn has_stream(image: &Image, stream: Step) -> bool
    ensures { result ≡ has_stream image.now stream }
{
    usize::from(stream.p) < image.processors() && u16::from(stream.s) < image.slim()
}
