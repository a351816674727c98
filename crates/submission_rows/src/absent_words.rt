//! What a submission lacks that a line of a case names, in words.

use crate::case_words::CaseText;
use crate::report_lines::absent_line;
use expectation_files::{LineFault, LineFaultKind, line_of, word_of};
use expectation_messages::fault_words;
use grade_rows::judges::Case;
use image_file::Image;
use lab_texts::ProgramNames;
use source_places::SourcePlaces;
use std::alloc::{AllocError, Global};

/// A line of a case that names what a submission lacks.
#[derive(Clone, Copy)]
pub(crate) struct AbsentLine<'a> {
    /// The case.
    pub case: &'a Case,
    /// The number of the line, from 1.
    pub line: usize,
    /// What the submission lacks.
    pub fault: LineFault,
}

/// Writes that a program with this image and text lacks what a line names.
pub(crate) fn add_absent(
    alloc: Global,
    absent: AbsentLine<'_>,
    image: &Image,
    source: &[u8],
    text: &mut CaseText,
) -> Result<(), AllocError> {
    let (path, line) = (absent.case.path.as_str(), absent.line);
    let reason = absent_words(alloc, absent, image, source)?;
    text.words = format!(in alloc; "{path}:{line}: {reason}")?;
    text.missed = Some(absent_line(alloc, absent.case, line)?);
    Ok(())
}

/// What a program with this image and text lacks that a line names.
fn absent_words(
    alloc: Global,
    absent: AbsentLine<'_>,
    image: &Image,
    source: &[u8],
) -> Result<String, AllocError> {
    let kind = absent.fault.kind;
    let word = absent_word(absent);
    match missing_label(alloc, kind, word, source)? {
        Some(label) => format!(in alloc; "the program has no label {label}"),
        None => {
            let names = names_for(alloc, &absent.case.given, source)?;
            fault_words(alloc, kind, word, image, &names)
        }
    }
}

/// The word of a line that names what the program lacks.
fn absent_word<'a>(absent: AbsentLine<'a>) -> &'a str {
    word_of(
        line_of(&absent.case.expected, absent.line),
        absent.fault.word,
    )
}

/// The names of data words: those of a case's cells where these have some, else those of the program's text.
fn names_for<'t>(
    alloc: Global,
    given: &'t [u8],
    source: &'t [u8],
) -> Result<ProgramNames<'t>, AllocError> {
    let names = ProgramNames::of(alloc, given)?;
    if names_words(&names) {
        return Ok(names);
    }
    ProgramNames::of(alloc, source)
}

/// The first label of a range of program words that a program of this text does not have, where that is its fault; None where
/// it is a number past the program's words, or an address after one of its labels.
fn missing_label(
    alloc: Global,
    kind: LineFaultKind,
    range: &str,
    text: &[u8],
) -> Result<Option<String>, AllocError> {
    if kind != LineFaultKind::Place {
        return Ok(None);
    }
    let places = SourcePlaces::of(alloc, text)?;
    match label_not_in(&places, range) {
        Some(label) => Ok(Some(String::from_str(alloc, label)?)),
        None => Ok(None),
    }
}

/// The first label of a range that a program does not have; None where it has all.
fn label_not_in<'r>(places: &SourcePlaces<'_>, range: &'r str) -> Option<&'r str> {
    for end in range.split('.') {
        let label = match end.split_once('+') {
            Some((label, _)) => label,
            None => end,
        };
        if is_label(label) && !has_label(places, label) {
            return Some(label);
        }
    }
    None
}

/// Whether a text is a label, and no number.
fn is_label(text: &str) -> bool {
    text.starts_with(|letter: char| letter == '_' || letter.is_ascii_alphabetic())
}

/// Whether a program has a label.
fn has_label(places: &SourcePlaces<'_>, label: &str) -> bool {
    places
        .labels()
        .iter()
        .any(|known| known.name == label.as_bytes())
}

/// Whether a text names some of its data words.
fn names_words(names: &ProgramNames<'_>) -> bool {
    names.data_lines().iter().any(|line| names.has_name((line.first as u64).saturating_mul(8)))
}
