//! What a line says of streams that come from one range of program words to another ("Leads to", docs/LAB_REFERENCE.md).

ghost use Rattle.std.specs.Prelude.{◌≡◌, ◌≤◌, ◌+◌, ℕ, List, [], map, Ok, Err, IfOk, IfErr};
ghost use Rattle.expectation_files.specs.Words.{words_of};
ghost use Rattle.expectation_files.specs.Values.{stream_named};
ghost use Rattle.expectation_files.specs.LeadsLines.{leads_said, stream_leads_said, each_leads_said, each_leads, streams_said};
ghost use Rattle.expectation_files.specs.LeadsLines.{standing_here, places_here, stream_here, stands_in, stream_leads};
ghost use Rattle.expectation_files.specs.LeadsLines.{is_leading, begins_with_to, fairness_said};
ghost use Rattle.expectation_files.specs.OperandsSeen.{AreOperands};
ghost use Rattle.expectation_files.specs.Seen.{names_in, form_seen, condition_seen};
ghost use Rattle.expectation_files.specs.declared.faults.Unread.TheVariants as unread;
ghost use Rattle.expectation_files.specs.declared.faults.LineFault.{LineFault};

use crate::addresses::{KnownNames, PlaceRange, place_or_places_said};
use crate::claim_streams::{has_stream, next_stream};
use crate::faults::{LineFault, LineFaultKind, LineForm, Unread};
use crate::values::stream_named;
use crate::words::{Operands, next_word, read_operands};
use claims::{ClaimForm, CountTest, Fairness, LeadsTo, RunCondition, StreamGroup};
use image_file::Image;
use processor::Step;
use std::alloc::{AllocError, Global};

/// That a line has another form than those that say what leads to what.
const NO_FORM: LineFault = LineFault {
    word: 0,
    kind: LineFaultKind::Form(LineForm::Leads),
};

/// Which word of a line that begins with `each` the first stream is.
const FIRST_STREAM: usize = 2;

/// Whether `to` stands after `leads` in a text.
pub(crate) fn is_leading(text: &[u8]) -> bool
    ensures { result ≡ is_leading (words_of text.now) }
{
    let mut rest = text;
    while let Some((word, following)) = next_word(rest) {
        if word == b"leads".as_slice() && begins_with_to(following) {
            return true;
        }
        rest = following;
    }
    false
}

/// Whether a text begins with the word `to`.
fn begins_with_to(text: &[u8]) -> bool
    ensures { result ≡ begins_with_to (words_of text.now) }
{
    match next_word(text) {
        Some((word, _)) => word == b"to".as_slice(),
        None => false,
    }
}

/// What such a line says that begins with this word.
pub(crate) fn read_leads(
    alloc: Global,
    names: KnownNames<'_, '_, '_>,
    image: &Image,
    name: &[u8],
    text: &[u8],
) -> Result<Vec<RunCondition>, Unread>
    ensures means { IfOk result (λ cs. leads_said (names_in names.entry) image.now name.now (words_of text.now)
        ≡ Ok (map condition_seen cs.items)) }
    ensures fault { IfErr result (λ u. (f : LineFault) → u ≡ unread.Fault f
        → leads_said (names_in names.entry) image.now name.now (words_of text.now) ≡ Err f) }
{
    if name == b"each".as_slice() {
        return read_each_leads(alloc, names, image, text);
    }
    read_stream_leads(alloc, names, image, name, text)
}

/// `P.S in PLACES leads to P.S in PLACES`, with the first stream before it, and `by steps` after it where that is said.
fn read_stream_leads(
    alloc: Global,
    names: KnownNames<'_, '_, '_>,
    image: &Image,
    name: &[u8],
    text: &[u8],
) -> Result<Vec<RunCondition>, Unread>
    ensures means { IfOk result (λ cs. stream_leads_said (names_in names.entry) image.now name.now (words_of text.now)
        ≡ Ok (map condition_seen cs.items)) }
    ensures fault { IfErr result (λ u. (f : LineFault) → u ≡ unread.Fault f
        → stream_leads_said (names_in names.entry) image.now name.now (words_of text.now) ≡ Err f) }
{
    let Operands::More(inside, places, leads, to, rest) = read_operands(text) else {
        return Err(Unread::Fault(NO_FORM));
    };
    let Some((other, rest)) = next_word(rest) else {
        return Err(Unread::Fault(NO_FORM));
    };
    let Some((inside_other, rest)) = next_word(rest) else {
        return Err(Unread::Fault(NO_FORM));
    };
    let Some((other_places, rest)) = next_word(rest) else {
        return Err(Unread::Fault(NO_FORM));
    };
    let is_first = inside == b"in".as_slice() && leads == b"leads".as_slice();
    let is_second = to == b"to".as_slice() && inside_other == b"in".as_slice();
    if !is_first || !is_second {
        return Err(Unread::Fault(NO_FORM));
    }
    let Some(fairness) = fairness_said(rest) else {
        return Err(Unread::Fault(NO_FORM));
    };
    let from = standing_here(alloc, names, image, 0, name, places)?;
    let to = standing_here(alloc, names, image, 5, other, other_places)?;
    let mut conditions = Vec::new(alloc);
    let leads = LeadsTo { from, to };
    conditions.push(RunCondition::Leads { leads, fairness })?;
    Ok(conditions)
}

/// On which runs, by what follows the second places: nothing, or `by steps`.
fn fairness_said(text: &[u8]) -> Option<Fairness>
    ensures { result ≡ fairness_said (words_of text.now) }
{
    match read_operands(text) {
        Operands::Zero => Some(Fairness::ByWords),
        Operands::Two(by, steps) => {
            if by == b"by".as_slice() && steps == b"steps".as_slice() {
                Some(Fairness::BySteps)
            } else {
                None
            }
        }
        Operands::One(_) | Operands::Three(..) | Operands::More(..) => None,
    }
}

/// That a stream, which the word of this number names, runs at program words, which the second word after it says.
fn standing_here(
    alloc: Global,
    names: KnownNames<'_, '_, '_>,
    image: &Image,
    number: usize,
    stream: &[u8],
    places: &[u8],
) -> Result<ClaimForm, Unread>
    requires at_the_front { number ≤ 5 }
    ensures means { IfOk result (λ f. standing_here (names_in names.entry) image.now number stream.now (number + 2) places.now
        ≡ Ok (form_seen f)) }
    ensures fault { IfErr result (λ u. (f : LineFault) → u ≡ unread.Fault f
        → standing_here (names_in names.entry) image.now number stream.now (number + 2) places.now ≡ Err f) }
{
    let stream = stream_here(image, number, stream_named(stream))?;
    let places = places_here(names, image, number + 2, places)?;
    Ok(stands_in(alloc, stream, places)?)
}

/// The stream that the word of this number names, which the image has.
pub(crate) fn stream_here(
    image: &Image,
    number: usize,
    stream: Option<Step>,
) -> Result<Step, LineFault>
    ensures { result ≡ stream_here image.now number stream }
{
    let stream = stream.ok_or(LineFault::at(number, LineFaultKind::Stream))?;
    if !has_stream(image, stream) {
        return Err(LineFault::at(number, LineFaultKind::MissingStream));
    }
    Ok(stream)
}

/// The program words that the word of this number says.
#[tactic(auto, unfolding(crate::specs::LeadsLines::places_here))]
pub(crate) fn places_here(
    names: KnownNames<'_, '_, '_>,
    image: &Image,
    number: usize,
    text: &[u8],
) -> Result<PlaceRange, LineFault>
    ensures { result ≡ places_here (names_in names.entry) image.now number text.now }
{
    match place_or_places_said(names, image.program().len(), text) {
        Ok(places) => Ok(places),
        Err(kind) => Err(LineFault::at(number, kind)),
    }
}

/// That a stream runs at program words of a range.
pub(crate) fn stands_in(
    alloc: Global,
    stream: Step,
    places: PlaceRange,
) -> Result<ClaimForm, AllocError>
    ensures { IfOk result (λ f. form_seen f ≡ stands_in stream places) }
{
    let mut streams = Vec::new(alloc);
    streams.push(stream)?;
    let mut groups = Vec::new(alloc);
    groups.push(StreamGroup {
        streams,
        first: places.first,
        last: places.last,
    })?;
    Ok(ClaimForm::Streams {
        test: CountTest::AtLeast(1),
        groups,
    })
}

/// Streams, and what follows the word `in` after them.
#[derive(Drop)]
struct StreamsRead<'t> {
    /// The streams.
    streams: Vec<Step>,
    /// What follows.
    rest: &'t [u8],
}

/// `of P.S .. in PLACES leads to PLACES`, and `by steps` where that is said: each of these streams comes from the one to the
/// other.
#[tactic(auto, unfolding(crate::specs::LeadsLines::each_leads_said))]
fn read_each_leads(
    alloc: Global,
    names: KnownNames<'_, '_, '_>,
    image: &Image,
    text: &[u8],
) -> Result<Vec<RunCondition>, Unread>
    ensures means { IfOk result (λ cs. each_leads_said (names_in names.entry) image.now (words_of text.now)
        ≡ Ok (map condition_seen cs.items)) }
    ensures fault { IfErr result (λ u. (f : LineFault) → u ≡ unread.Fault f
        → each_leads_said (names_in names.entry) image.now (words_of text.now) ≡ Err f) }
{
    let Some((of, rest)) = next_word(text) else {
        return Err(Unread::Fault(NO_FORM));
    };
    if of != b"of".as_slice() {
        return Err(Unread::Fault(NO_FORM));
    }
    let read = streams_said(alloc, image, rest)?;
    each_leads(
        alloc,
        names,
        image,
        &read.streams,
        &read_operands(read.rest),
    )
}

/// The streams up to the word `in`.
fn streams_said<'t>(alloc: Global, image: &Image, text: &'t [u8]) -> Result<StreamsRead<'t>, Unread>
    ensures means { IfOk result (λ r. streams_said image.now [] (words_of text.now)
        ≡ Ok (record { streams = r.streams.items; behind = words_of r.rest.now })) }
    ensures fault { IfErr result (λ u. (f : LineFault) → u ≡ unread.Fault f
        → streams_said image.now [] (words_of text.now) ≡ Err f) }
{
    let mut streams = Vec::new(alloc);
    let mut rest = text;
    while let Some((word, following)) = next_word(rest) {
        rest = following;
        if word == b"in".as_slice() {
            return Ok(StreamsRead { streams, rest });
        }
        streams.push(next_stream(image, FIRST_STREAM + streams.len(), &streams, word)?)?;
    }
    Err(Unread::Fault(NO_FORM))
}

/// Each of these streams comes from the program words of the operands to others.
fn each_leads(
    alloc: Global,
    names: KnownNames<'_, '_, '_>,
    image: &Image,
    streams: &[Step],
    operands: &Operands,
) -> Result<Vec<RunCondition>, Unread>
    ensures means { (os : List (List ℕ)) → AreOperands operands.now os
        → IfOk result (λ cs. each_leads (names_in names.entry) image.now streams.now os ≡ Ok (map condition_seen cs.items)) }
    ensures fault { (os : List (List ℕ)) → AreOperands operands.now os
        → IfErr result (λ u. (f : LineFault) → u ≡ unread.Fault f
        → each_leads (names_in names.entry) image.now streams.now os ≡ Err f) }
{
    let Operands::More(places, leads, to, other, rest) = *operands else {
        return Err(Unread::Fault(NO_FORM));
    };
    if streams.is_empty() {
        return Err(Unread::Fault(NO_FORM));
    }
    if leads != b"leads".as_slice() || to != b"to".as_slice() {
        return Err(Unread::Fault(NO_FORM));
    }
    let Some(fairness) = fairness_said(rest) else {
        return Err(Unread::Fault(NO_FORM));
    };
    let from = places_here(names, image, 3 + streams.len(), places)?;
    let to = places_here(names, image, 6 + streams.len(), other)?;
    Ok(leads_of(alloc, streams, from, to, fairness)?)
}

/// Each of these streams comes from the one range to the other.
fn leads_of(
    alloc: Global,
    streams: &[Step],
    from: PlaceRange,
    to: PlaceRange,
    fairness: Fairness,
) -> Result<Vec<RunCondition>, AllocError>
    ensures { IfOk result (λ cs. map condition_seen cs.items ≡ map (stream_leads from to fairness) streams.now) }
{
    let mut conditions = Vec::new(alloc);
    for stream in streams {
        let leads = LeadsTo {
            from: stands_in(alloc, *stream, from)?,
            to: stands_in(alloc, *stream, to)?,
        };
        conditions.push(RunCondition::Leads { leads, fairness })?;
    }
    Ok(conditions)
}
