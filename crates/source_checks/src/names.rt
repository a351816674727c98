//! Names of data words that name nothing, as messages.

use fault_messages::{Message, Severity};
use source_places::{DataName, SourcePlaces};
use std::alloc::{AllocError, Global};
use std::str;

/// The number of the warning.
const TWICE: u8 = 114;

/// The most such names that are reported of a text.
const MOST_TOLD: usize = 100;

/// Adds after the messages about a source text a warning for each name that a line of data says and does not have: another
/// line of data says it too, or it is the label of another line. They are in the order of lines.
pub(crate) fn add_names(
    alloc: Global,
    text: &[u8],
    messages: &mut Vec<Message>,
) -> Result<(), AllocError> {
    let places = SourcePlaces::of(alloc, text)?;
    let mut told: usize = 0;
    for name in places.said_names() {
        let is_kept = places
            .data_names()
            .iter()
            .any(|kept| kept.number == name.number);
        if is_kept || told >= MOST_TOLD {
            continue;
        }
        told = told.saturating_add(1);
        messages.push(message_of(alloc, text, &places, name)?)?;
    }
    Ok(())
}

/// The warning that a name is not its line's.
fn message_of(
    alloc: Global,
    text: &[u8],
    places: &SourcePlaces<'_>,
    name: &DataName<'_>,
) -> Result<Message, AllocError> {
    let NamePosition { start, column } = spot_of(text, name);
    let shown = str::from_utf8(name.name).unwrap_or("");
    let words = match other_line(places, name) {
        Some(line) => format!(in alloc; "{shown} names no word: line {line} has this name too")?,
        None => format!(in alloc; "{shown} names no word: it stands twice")?,
    };
    Ok(Message {
        severity: Severity::Warning,
        number: Some(TWICE),
        line: name.number.saturating_add(1),
        column,
        width: name.name.len().max(1),
        words,
        help: Some(String::from_str(
            alloc,
            "take another name for this word, or more words of comment",
        )?),
        start,
    })
}

/// The number, from 1, of the first other line that has a name as its label, or says it for its data.
fn other_line(places: &SourcePlaces<'_>, name: &DataName<'_>) -> Option<usize> {
    for label in places.labels() {
        if label.name == name.name && label.place.line != name.number {
            return Some(label.place.line.saturating_add(1));
        }
    }
    for other in places.said_names() {
        if other.name == name.name && other.number != name.number {
            return Some(other.number.saturating_add(1));
        }
    }
    None
}

/// Where a name stands.
#[derive(Clone, Copy)]
struct NamePosition {
    /// How many bytes of the text stand before its line.
    start: usize,
    /// Its first byte on the line, from 1.
    column: usize,
}

/// Where a name of a text stands.
fn spot_of(text: &[u8], name: &DataName<'_>) -> NamePosition {
    let mut start: usize = 0;
    for (number, line) in text.split(|byte| *byte == b'\n').enumerate() {
        if number == name.number {
            let column = column_of(line, name.name).saturating_add(1);
            return NamePosition { start, column };
        }
        start = start.saturating_add(line.len()).saturating_add(1);
    }
    NamePosition {
        start: 0,
        column: 1,
    }
}

/// How many bytes of a line stand before a name, which is the line's label or begins its comment.
fn column_of(line: &[u8], name: &[u8]) -> usize {
    let from = match line.iter().position(|byte| *byte == b':' || *byte == b';') {
        Some(place) if line.get(place) == Some(&b';') => place.saturating_add(1),
        _ => 0,
    };
    let rest = line.get(from..).unwrap_or(&[]);
    let blanks = rest
        .iter()
        .position(|byte| name.first() == Some(byte))
        .unwrap_or(0);
    from.saturating_add(blanks)
}
