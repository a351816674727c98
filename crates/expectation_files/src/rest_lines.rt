//! What a line says of a stream that may rest ("Files of expectations", docs/LAB_REFERENCE.md).

ghost use Rattle.std.specs.Prelude.{◌≡◌, Ok, Err, IfOk, IfErr};
ghost use Rattle.expectation_files.specs.Words.{words_of};
ghost use Rattle.expectation_files.specs.RestLines.{rest_said, rest_of, is_rest, is_resting, begins_with_may};
ghost use Rattle.expectation_files.specs.Seen.{names_in, rest_seen};
ghost use Rattle.expectation_files.specs.declared.faults.Unread.TheVariants as unread;
ghost use Rattle.expectation_files.specs.declared.faults.LineFault.{LineFault};

use crate::addresses::KnownNames;
use crate::faults::{LineFault, LineFaultKind, LineForm, Unread};
use crate::leads_lines::{places_here, stands_in, stream_here};
use crate::values::stream_named;
use crate::words::{Operands, next_word, read_operands};
use claims::Rest;
use image_file::Image;
use std::alloc::Global;

/// That a line has another form than those about rest.
const NO_FORM: LineFault = LineFault {
    word: 0,
    kind: LineFaultKind::Form(LineForm::Rest),
};

/// Whether `may` is the first word of a text, and no name of a data word, as it is after `word`.
pub(crate) fn is_resting(name: &[u8], text: &[u8]) -> bool
    ensures { result ≡ is_resting name.now (words_of text.now) }
{
    name != b"word".as_slice() && begins_with_may(text)
}

/// Whether a text begins with the word `may`.
fn begins_with_may(text: &[u8]) -> bool
    ensures { result ≡ begins_with_may (words_of text.now) }
{
    match next_word(text) {
        Some((word, _)) => word == b"may".as_slice(),
        None => false,
    }
}

/// `P.S may rest in PLACES`, with the stream before it.
pub(crate) fn read_rest(
    alloc: Global,
    names: KnownNames<'_, '_, '_>,
    image: &Image,
    name: &[u8],
    text: &[u8],
) -> Result<Rest, Unread>
    ensures means { IfOk result (λ r. rest_said (names_in names.entry) image.now name.now (words_of text.now)
        ≡ Ok (rest_seen r)) }
    ensures fault { IfErr result (λ u. (f : LineFault) → u ≡ unread.Fault f
        → rest_said (names_in names.entry) image.now name.now (words_of text.now) ≡ Err f) }
{
    let Operands::More(may, rest, inside, places, more) = read_operands(text) else {
        return Err(Unread::Fault(NO_FORM));
    };
    if next_word(more).is_some() || !is_rest(may, rest, inside) {
        return Err(Unread::Fault(NO_FORM));
    }
    rest_of(alloc, names, image, name, places)
}

/// Whether words are `may`, `rest` and `in`.
fn is_rest(may: &[u8], rest: &[u8], inside: &[u8]) -> bool
    ensures { result ≡ is_rest may.now rest.now inside.now }
{
    may == b"may".as_slice() && rest == b"rest".as_slice() && inside == b"in".as_slice()
}

/// What such a line says by its stream and its places.
fn rest_of(
    alloc: Global,
    names: KnownNames<'_, '_, '_>,
    image: &Image,
    stream: &[u8],
    places: &[u8],
) -> Result<Rest, Unread>
    ensures means { IfOk result (λ r. rest_of (names_in names.entry) image.now stream.now places.now ≡ Ok (rest_seen r)) }
    ensures fault { IfErr result (λ u. (f : LineFault) → u ≡ unread.Fault f
        → rest_of (names_in names.entry) image.now stream.now places.now ≡ Err f) }
{
    let who = stream_here(image, 0, stream_named(stream))?;
    let places = places_here(names, image, 4, places)?;
    Ok(Rest {
        who,
        places: stands_in(alloc, who, places)?,
    })
}
