//! Addresses of data words, by numbers and by names, and addresses of program words, by numbers and by labels.

ghost use Rattle.std.specs.Prelude.{◌≡◌, ◌≤◌, ◌^◌, find, length, Some, None};
ghost use Rattle.std.specs.Option.{option_copied, option_map, option_and_then};
ghost use Rattle.text_parts.specs.Reading.{number_of_text};
ghost use Rattle.asm_line.specs.Text.{is_first};
ghost use Rattle.source_places.specs.SourcePlaces.{data_name_seen, data_names_seen, label_seen, labels_seen};
ghost use Rattle.source_places.specs.DataNames.{is_called};
ghost use Rattle.expectation_files.specs.Addresses.{Names, unbracketed, multiple_of_8, address_of_word, address_after};
ghost use Rattle.expectation_files.specs.Addresses.{address_by_name, no_address, address_said, range_said, after_point};
ghost use Rattle.expectation_files.specs.Addresses.{behind_points, number_after, program_word, word_behind, has_label};
ghost use Rattle.expectation_files.specs.Addresses.{place_by, place_said, places_said, range_between, places_between};
ghost use Rattle.text_parts.specs.Pieces.{text_after};
ghost use Rattle.expectation_files.specs.LeadsLines.{range_or_place};
ghost use Rattle.expectation_files.specs.Seen.{names_in};

use crate::faults::LineFaultKind;
use crate::values::count_named;
use source_places::{DataName, SourceLabel};
use tag_memory::MAX_WORDS;
use text_parts::{cut, read_number};

/// The greatest address that a byte of some memory has.
const LAST_ADDRESS: u64 = 8 * MAX_WORDS as u64 - 1;

/// The names by which lines can speak of a program.
#[derive(Clone, Copy)]
pub struct KnownNames<'a, 'd, 'l> {
    /// Those of its data words.
    pub words: &'a [DataName<'d>],
    /// Its labels.
    pub labels: &'a [SourceLabel<'l>],
}

/// The words from one to another.
#[derive(Clone, Copy, Debug, PartialEq, Eq)]
pub(crate) struct AddressRange {
    /// The first one's byte address.
    pub(crate) first: u64,
    /// The last one's byte address, no less.
    pub(crate) last: u64,
}

/// The program words from one to another.
#[derive(Clone, Copy, Debug, PartialEq, Eq)]
pub(crate) struct PlaceRange {
    /// The first one.
    pub(crate) first: u32,
    /// The last one, no less.
    pub(crate) last: u32,
}

/// The byte address that a text says, perhaps in brackets: a number that some machine has a word at, or a word's name.
#[tactic(auto, unfolding(crate::specs::Addresses::address_said))]
pub(crate) fn address_said(names: KnownNames<'_, '_, '_>, text: &[u8]) -> Result<u64, LineFaultKind>
    ensures { result ≡ address_said (names_in names.entry) text.now }
{
    let text = unbracketed(text);
    match read_number(text) {
        Some(number) => {
            let address = number.up_to(LAST_ADDRESS).ok_or(LineFaultKind::Address)?;
            multiple_of_8(address).ok_or(LineFaultKind::Address)
        }
        None => address_by_name(names.words, text).ok_or(no_address(text)),
    }
}

/// What stands between brackets; all of a text that is not in brackets.
#[tactic(auto, unfolding(crate::specs::Addresses::unbracketed))]
fn unbracketed(text: &[u8]) -> &[u8]
    ensures { result.now ≡ unbracketed text.now }
{
    if text.len() > 1 && text[0] == b'[' && text[text.len() - 1] == b']' {
        &text[1..text.len() - 1]
    } else {
        text
    }
}

fn multiple_of_8(number: u64) -> Option<u64>
    ensures { result ≡ multiple_of_8 number }
{
    if number % 8 == 0 { Some(number) } else { None }
}

/// The byte address of the word of a name.
fn address_by_name(names: &[DataName<'_>], text: &[u8]) -> Option<u64>
    ensures { result ≡ address_by_name (data_names_seen names.now) text.now }
{
    let (name, digits) = cut(text, b'+');
    let found = data_name(names, name)?;
    address_after(found, number_after(digits)?)
}

/// The name that is this text.
fn data_name<'n, 't>(names: &'n [DataName<'t>], text: &[u8]) -> Option<&'n DataName<'t>>
    ensures { option_map (λ n. data_name_seen n.now) result ≡ find (is_called text.now) (data_names_seen names.now) }
{
    for name in names {
        if text == name.name {
            return Some(name);
        }
    }
    None
}

/// The byte address of the word that is so many words after the first of a name's line, where the line has it.
fn address_after(name: &DataName<'_>, count: usize) -> Option<u64>
    ensures { result ≡ address_after (Some (data_name_seen name.now)) (Some count) }
{
    if count < name.count {
        address_of_word(name.first.checked_add(count)?)
    } else {
        None
    }
}

/// The byte address of a word that some machine has.
fn address_of_word(word: usize) -> Option<u64>
    ensures { result ≡ address_of_word word }
{
    if word < MAX_WORDS {
        Some(8 * word as u64)
    } else {
        None
    }
}

/// The number after a plus; 0 where there is none.
fn number_after(digits: Option<&[u8]>) -> Option<usize>
    ensures { result ≡ number_after (option_copied digits.entry) }
{
    match digits {
        Some(digits) => count_named(digits),
        None => Some(0),
    }
}

/// What is wrong with a text that is neither a number nor the name of a word.
fn no_address(text: &[u8]) -> LineFaultKind
    ensures { result ≡ no_address text.now }
{
    if !text.is_empty() && is_first(text[0]) {
        LineFaultKind::Name
    } else {
        LineFaultKind::Address
    }
}

/// Whether a name may begin so: a letter or `_`.
fn is_first(byte: u8) -> bool
    ensures { result ≡ is_first byte }
{
    byte.is_ascii_alphabetic() || byte == b'_'
}

/// The words of a range `FIRST..LAST`.
#[tactic(auto, unfolding(crate::specs::Addresses::range_said))]
pub(crate) fn range_said(
    names: KnownNames<'_, '_, '_>,
    text: &[u8],
) -> Result<AddressRange, LineFaultKind>
    ensures { result ≡ range_said (names_in names.entry) text.now }
{
    let (first, rest) = cut(text, b'.');
    let last = after_point(rest).ok_or(LineFaultKind::Points)?;
    let first = address_said(names, first)?;
    let last = address_said(names, last)?;
    if first <= last {
        Ok(AddressRange { first, last })
    } else {
        Err(LineFaultKind::Range)
    }
}

/// What stands after a point that a text begins with, where no other one follows.
fn after_point(text: Option<&[u8]>) -> Option<&[u8]>
    ensures { option_copied result ≡ option_and_then after_point (option_copied text.entry) }
{
    match text {
        Some([b'.', b'.', ..]) => None,
        Some([b'.', rest @ ..]) => Some(rest),
        _ => None,
    }
}

/// The program words of a range, or one program word alone, of so many.
pub(crate) fn place_or_places_said(
    names: KnownNames<'_, '_, '_>,
    count: usize,
    text: &[u8],
) -> Result<PlaceRange, LineFaultKind>
    ensures { result ≡ range_or_place (names_in names.entry) count text.now (text_after 46 text.now) }
{
    let (_, rest) = cut(text, b'.');
    if rest.is_some() {
        return places_said(names, count, text);
    }
    let place = place_said(names, count, text)?;
    Ok(PlaceRange {
        first: place,
        last: place,
    })
}

/// The program words of a range `FIRST..LAST`, of so many.
#[tactic(auto, unfolding(crate::specs::Addresses::places_said))]
pub(crate) fn places_said(
    names: KnownNames<'_, '_, '_>,
    count: usize,
    text: &[u8],
) -> Result<PlaceRange, LineFaultKind>
    ensures { result ≡ places_said (names_in names.entry) count text.now }
{
    let (first, rest) = cut(text, b'.');
    let last = after_point(rest).ok_or(LineFaultKind::Points)?;
    let first = place_said(names, count, first)?;
    let last = place_said(names, count, last)?;
    if first <= last {
        Ok(PlaceRange { first, last })
    } else {
        Err(LineFaultKind::PlaceRange)
    }
}

/// The program word that a text says, of so many: a number, or a label and perhaps a number after a plus.
#[tactic(auto, unfolding(crate::specs::Addresses::place_said))]
fn place_said(
    names: KnownNames<'_, '_, '_>,
    count: usize,
    text: &[u8],
) -> Result<u32, LineFaultKind>
    ensures { result ≡ place_said (names_in names.entry) count text.now }
{
    match count_named(text) {
        Some(word) => program_word(count, word).ok_or(LineFaultKind::Place),
        None => place_by_label(names, count, text).ok_or(LineFaultKind::Place),
    }
}

/// The program word that a label and perhaps a number after a plus say, of so many.
fn place_by_label(names: KnownNames<'_, '_, '_>, count: usize, text: &[u8]) -> Option<u32>
    ensures { result ≡ place_by (names_in names.entry) count text.now None }
{
    let (name, digits) = cut(text, b'+');
    let label = label_called(names.labels, name)?;
    let more = number_after(digits)?;
    program_word(count, label.place.value.checked_add(more)?)
}

/// The label that is this text.
fn label_called<'l, 't>(labels: &'l [SourceLabel<'t>], text: &[u8]) -> Option<&'l SourceLabel<'t>>
    ensures { option_map (λ l. label_seen l.now) result ≡ find (has_label text.now) (labels_seen labels.now) }
{
    for label in labels {
        if label.name == text {
            return Some(label);
        }
    }
    None
}

/// One of so many program words.
fn program_word(count: usize, word: usize) -> Option<u32>
    ensures { result ≡ program_word count word }
{
    if word < count && word <= u32::MAX as usize {
        Some(word as u32)
    } else {
        None
    }
}
