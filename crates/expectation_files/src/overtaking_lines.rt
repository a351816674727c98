//! What a line says of a stream that others overtake while it waits ("Overtaking", docs/LAB_REFERENCE.md).

ghost use Rattle.std.specs.Prelude.{◌≡◌, Ok, Err, map, IfOk, IfErr};
ghost use Rattle.expectation_files.specs.Words.{words_of};
ghost use Rattle.expectation_files.specs.Values.{stream_named, count_named};
ghost use Rattle.expectation_files.specs.OvertakingLines.{overtaking_said, overtaking_of, times_here};
ghost use Rattle.expectation_files.specs.OvertakingLines.{is_passed, is_bounded, is_passing, is_overtaking, begins_with_overtaken};
ghost use Rattle.expectation_files.specs.Seen.{names_in, condition_seen};
ghost use Rattle.expectation_files.specs.declared.faults.Unread.TheVariants as unread;
ghost use Rattle.expectation_files.specs.declared.faults.LineFault.{LineFault};

use crate::addresses::KnownNames;
use crate::claim_streams::next_stream;
use crate::faults::{LineFault, LineFaultKind, LineForm, Unread};
use crate::leads_lines::{places_here, stands_in, stream_here};
use crate::values::{count_named, stream_named};
use crate::words::{Operands, next_word, read_operands};
use claims::{Overtaking, RunCondition};
use image_file::Image;
use std::alloc::Global;

/// That a line has another form than those about overtaking.
const NO_FORM: LineFault = LineFault {
    word: 0,
    kind: LineFaultKind::Form(LineForm::Overtaken),
};

/// The most times that a line can say.
const MOST_TIMES: usize = 1_000;

/// The words of such a line that differ from line to line.
#[derive(Clone, Copy)]
struct OvertakingWords<'t> {
    /// The stream that waits.
    stream: &'t [u8],
    /// Where it waits.
    places: &'t [u8],
    /// The most times.
    count: &'t [u8],
    /// The stream that overtakes it.
    other: &'t [u8],
    /// Where it overtakes it.
    other_places: &'t [u8],
}

/// Whether `overtaken` stands after `is` in a text.
pub(crate) fn is_overtaking(text: &[u8]) -> bool
    ensures { result ≡ is_overtaking (words_of text.now) }
{
    let mut rest = text;
    while let Some((word, following)) = next_word(rest) {
        if word == b"is".as_slice() && begins_with_overtaken(following) {
            return true;
        }
        rest = following;
    }
    false
}

/// Whether a text begins with the word `overtaken`.
fn begins_with_overtaken(text: &[u8]) -> bool
    ensures { result ≡ begins_with_overtaken (words_of text.now) }
{
    match next_word(text) {
        Some((word, _)) => word == b"overtaken".as_slice(),
        None => false,
    }
}

/// `P.S in PLACES is overtaken at most N times by P.S at PLACES`, with the first stream before it.
pub(crate) fn read_overtaking(
    alloc: Global,
    names: KnownNames<'_, '_, '_>,
    image: &Image,
    name: &[u8],
    text: &[u8],
) -> Result<Vec<RunCondition>, Unread>
    ensures means { IfOk result (λ cs. overtaking_said (names_in names.entry) image.now name.now (words_of text.now)
        ≡ Ok (map condition_seen cs.items)) }
    ensures fault { IfErr result (λ u. (f : LineFault) → u ≡ unread.Fault f
        → overtaking_said (names_in names.entry) image.now name.now (words_of text.now) ≡ Err f) }
{
    let Operands::More(inside, places, is, overtaken, rest) = read_operands(text) else {
        return Err(Unread::Fault(NO_FORM));
    };
    let Operands::More(at, most, count, times, rest) = read_operands(rest) else {
        return Err(Unread::Fault(NO_FORM));
    };
    let Operands::More(by, other, there, other_places, rest) = read_operands(rest) else {
        return Err(Unread::Fault(NO_FORM));
    };
    if next_word(rest).is_some() {
        return Err(Unread::Fault(NO_FORM));
    }
    let is_form = is_passed(inside, is, overtaken) && is_bounded(at, most, times);
    if !is_form || !is_passing(by, there) {
        return Err(Unread::Fault(NO_FORM));
    }
    let words = OvertakingWords {
        stream: name,
        places,
        count,
        other,
        other_places,
    };
    overtaking_of(alloc, names, image, words)
}

/// Whether words are `in`, `is` and `overtaken`.
fn is_passed(inside: &[u8], is: &[u8], overtaken: &[u8]) -> bool
    ensures { result ≡ is_passed inside.now is.now overtaken.now }
{
    inside == b"in".as_slice() && is == b"is".as_slice() && overtaken == b"overtaken".as_slice()
}

/// Whether words are `at`, `most`, and `times` or `time`.
fn is_bounded(at: &[u8], most: &[u8], times: &[u8]) -> bool
    ensures { result ≡ is_bounded at.now most.now times.now }
{
    let is_times = times == b"times".as_slice() || times == b"time".as_slice();
    at == b"at".as_slice() && most == b"most".as_slice() && is_times
}

/// Whether words are `by` and `at`.
fn is_passing(by: &[u8], there: &[u8]) -> bool
    ensures { result ≡ is_passing by.now there.now }
{
    by == b"by".as_slice() && there == b"at".as_slice()
}

/// What such a line says by these words of it.
fn overtaking_of(
    alloc: Global,
    names: KnownNames<'_, '_, '_>,
    image: &Image,
    words: OvertakingWords<'_>,
) -> Result<Vec<RunCondition>, Unread>
    ensures means { IfOk result (λ cs. overtaking_of (names_in names.entry) image.now words.entry.stream.now
        words.entry.places.now words.entry.count.now words.entry.other.now words.entry.other_places.now
        ≡ Ok (map condition_seen cs.items)) }
    ensures fault { IfErr result (λ u. (f : LineFault) → u ≡ unread.Fault f
        → overtaking_of (names_in names.entry) image.now words.entry.stream.now words.entry.places.now words.entry.count.now
        words.entry.other.now words.entry.other_places.now ≡ Err f) }
{
    let stream = stream_here(image, 0, stream_named(words.stream))?;
    let places = places_here(names, image, 2, words.places)?;
    let most = times_here(7, count_named(words.count))?;
    let other = next_stream(image, 10, &[stream], words.other)?;
    let other_places = places_here(names, image, 12, words.other_places)?;
    let overtaking = Overtaking {
        who: stream,
        waits: stands_in(alloc, stream, places)?,
        inside: stands_in(alloc, other, other_places)?,
        most,
    };
    let mut conditions = Vec::new(alloc);
    conditions.push(RunCondition::Overtaken(overtaking))?;
    Ok(conditions)
}

/// The most times, which the word of this number says.
fn times_here(number: usize, count: Option<usize>) -> Result<usize, LineFault>
    ensures { result ≡ times_here number count }
{
    let times = count.ok_or(LineFault::at(number, LineFaultKind::Count))?;
    if times <= MOST_TIMES {
        Ok(times)
    } else {
        Err(LineFault::at(number, LineFaultKind::Form(LineForm::Overtaken)))
    }
}
