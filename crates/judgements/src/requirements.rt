//! What a case requires of a submission.

ghost use Rattle.std.specs.Prelude.{◌≡◌, Ok, Err, IfOk, IfErr, IfNone, OnSome, length};
ghost use Rattle.expectation_files.specs.Seen.{requirements_seen};
ghost use Rattle.expectation_files.specs.Files.{file_said};
ghost use Rattle.expectation_files.specs.declared.faults.FileFault.TheVariants as file;
ghost use Rattle.source_places.specs.SourcePlaces.{data_names_seen, labels_seen};
ghost use Rattle.case_cells.specs.NamedWords.{places_seen};
ghost use Rattle.judgements.specs.Faults.{IsLinesFault};
ghost use Rattle.judgements.specs.Cases.{said_by, said_in_submission, said_in_case, places_or, SpeaksOfGivenIn, SpeaksOfOthersIn};

use crate::cases::Case;
use crate::judge_faults::CaseFault;
use case_cells::{WordPlaces, first_other, places_by_name, spoken_words};
use expectation_files::{FileFault, KnownNames, Requirements, read_requirements};
use image_file::Image;
use source_places::{DataName, SourceLabel, SourcePlaces};
use std::alloc::{AllocError, Global};

/// What a case requires of a program with the case's cells and the text of a submission. Labels are the submission's, and so
/// are the names of data words, if the case's cells stand at the words of their names. Else they are those of the case's
/// cells, where these have some, and else the submission's own.
pub fn required_by(
    alloc: Global,
    case: &Case,
    image: &Image,
    text: &[u8],
) -> Result<Requirements, FileFault>
    ensures means { IfOk result (λ r. said_by case.now image.now text.now ≡ Ok (requirements_seen r)) }
    ensures fault { IfErr result (λ f. ¬ (f ≡ file.NoMemory) → said_by case.now image.now text.now ≡ Err f) }
{
    match places_by_name(alloc, &case.given, text)? {
        Some(_) => required_in_submission(alloc, case, image, text),
        None => required_in_case(alloc, case, image, text),
    }
}

/// The same by the places of the submission's words: their names are its own.
fn required_in_submission(
    alloc: Global,
    case: &Case,
    image: &Image,
    text: &[u8],
) -> Result<Requirements, FileFault>
    ensures means { IfOk result (λ r. said_in_submission case.now image.now text.now ≡ Ok (requirements_seen r)) }
    ensures fault { IfErr result (λ f. ¬ (f ≡ file.NoMemory) → said_in_submission case.now image.now text.now ≡ Err f) }
{
    let own = SourcePlaces::of(alloc, text)?;
    read_by(alloc, case, image, own.data_names(), own.labels())
}

/// The same by the places of the case's own words: the names of data words are those of the case's cells, where these have
/// some, and else the submission's own.
fn required_in_case(
    alloc: Global,
    case: &Case,
    image: &Image,
    text: &[u8],
) -> Result<Requirements, FileFault>
    ensures means { IfOk result (λ r. said_in_case case.now image.now text.now ≡ Ok (requirements_seen r)) }
    ensures fault { IfErr result (λ f. ¬ (f ≡ file.NoMemory) → said_in_case case.now image.now text.now ≡ Err f) }
{
    let given = SourcePlaces::of(alloc, &case.given)?;
    let own = SourcePlaces::of(alloc, text)?;
    if given.data_names().is_empty() {
        read_by(alloc, case, image, own.data_names(), own.labels())
    } else {
        read_by(alloc, case, image, given.data_names(), own.labels())
    }
}

/// The number, from 1, of the first line of a case that speaks of a word which the case's cells do not give, or which
/// is another one in the submission: of those about the end, then of the claims, and then of those about who does the
/// work. None if the case has no cells.
pub(crate) fn line_not_given(
    alloc: Global,
    case: &Case,
    image: &Image,
    text: &[u8],
    required: &Requirements,
) -> Result<Option<usize>, CaseFault>
    ensures given { IfOk result (λ line. IfNone line
        (SpeaksOfGivenIn image.now text.now case.now case.now.cells required.now)) }
    ensures other { IfOk result (λ line. OnSome line
        (SpeaksOfOthersIn image.now text.now case.now case.now.cells required.now)) }
    ensures fault { IfErr result (λ f. IsLinesFault None image.now text.now case.now f) }
{
    let Some(cells) = &case.cells else {
        return Ok(None);
    };
    let in_case = match required_in_case(alloc, case, image, text) {
        Ok(in_case) => in_case,
        Err(FileFault::Line { line, .. }) => return Ok(Some(line)),
        Err(fault) => return Err(CaseFault::of_file(fault)),
    };
    let places = places_or(alloc, places_by_name(alloc, &case.given, text)?, cells)?;
    let given = spoken_words(alloc, &in_case)?;
    let own = spoken_words(alloc, required)?;
    match first_other(&places, &given, &own) {
        Some(place) => Ok(Some(line_number(required, place))),
        None => Ok(None),
    }
}

/// The places, or that all of these cells stand in the submission from its first word on.
fn places_or(
    alloc: Global,
    places: Option<Vec<WordPlaces>>,
    cells: &Image,
) -> Result<Vec<WordPlaces>, AllocError>
    ensures { IfOk result (λ v. v.items ≡ places_or (places_seen places) (length cells.now.cells)) }
{
    if let Some(places) = places {
        return Ok(places);
    }
    let mut places = Vec::new(alloc);
    places.push(WordPlaces {
        given: 0,
        own: 0,
        count: cells.cells().len(),
    })?;
    Ok(places)
}

/// The number of the line at a place among those about the end, then the claims, and then those about who does the work.
fn line_number(required: &Requirements, place: usize) -> usize {
    let (ends, claims) = (required.end_lines(), required.claim_lines());
    let work = required.work_lines();
    match ends
        .iter()
        .chain(claims.iter())
        .chain(work.iter())
        .nth(place)
    {
        Some(line) => line.number,
        None => 0,
    }
}

/// What a case requires by these names and labels.
fn read_by(
    alloc: Global,
    case: &Case,
    image: &Image,
    words: &[DataName<'_>],
    labels: &[SourceLabel<'_>],
) -> Result<Requirements, FileFault>
    ensures means { IfOk result (λ r. file_said
        (record { word_names = data_names_seen words.now; labels = labels_seen labels.now }) image.now
        case.now.expected.items ≡ Ok (requirements_seen r)) }
    ensures fault { IfErr result (λ f. ¬ (f ≡ file.NoMemory) → file_said
        (record { word_names = data_names_seen words.now; labels = labels_seen labels.now }) image.now
        case.now.expected.items ≡ Err f) }
{
    let known = KnownNames { words, labels };
    read_requirements(alloc, known, image, &case.expected)
}
