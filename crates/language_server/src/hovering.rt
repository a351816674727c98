//! What stands at a place, in words.

use crate::documents::{Document, LinePlace};
use crate::labels::places_at;
use crate::numbers::number_description;
use crate::operands::{OperandKind, operand_kind};
use crate::ranges::put_range;
use crate::symbols::address_of;
use editor_wire::Json;
use lab_words::explained;
use source_edits::{LineWord, NamePlace, WordRole, comment_column, words_of};
use source_places::SourcePlaces;
use std::alloc::{AllocError, Global};
use std::str;

/// How many lines on which a label is used are shown at most.
const MOST_USES: usize = 20;

/// What stands at a place, as plain text; null where nothing is said of it.
pub(crate) fn hover(
    alloc: Global,
    document: &Document,
    place: LinePlace,
) -> Result<Json, AllocError> {
    let mut json = Json::new(alloc);
    let Some(word) = word_at(alloc, place)? else {
        return Ok(json);
    };
    let words = words_about(alloc, document, place, &word)?;
    if words.is_empty() {
        return Ok(json);
    }
    json.open();
    json.key("contents");
    json.open();
    json.text_of("kind", "plaintext");
    json.text_of("value", words.trim_end());
    json.close();
    if let Some(line) = document.line(place.line.number) {
        put_range(&mut json, "range", line, word.column, word.end());
    }
    json.close();
    Ok(json)
}

/// The word of a line at a place of it, which is not in a comment.
fn word_at(alloc: Global, place: LinePlace<'_>) -> Result<Option<LineWord<'_>>, AllocError> {
    let line = place.line.bytes;
    if comment_column(line).is_some_and(|column| column < place.column) {
        return Ok(None);
    }
    for word in words_of(alloc, line)? {
        if word.is_at(place.column) && !word.bytes.is_empty() {
            return Ok(Some(word));
        }
    }
    Ok(None)
}

/// What is said of a word: of a label, of an operation or a directive, of a condition, or of a number.
fn words_about(
    alloc: Global,
    document: &Document,
    place: LinePlace,
    word: &LineWord,
) -> Result<String, AllocError> {
    let places = places_at(alloc, document, place)?;
    if !places.is_empty() {
        return label_words(alloc, document, word.bytes, &places);
    }
    let text = str::from_utf8(word.bytes).unwrap_or("");
    match word.role {
        WordRole::Label | WordRole::Lookahead => Ok(String::new(alloc)),
        WordRole::Head => head_words(alloc, document, place.line.number, text),
        WordRole::Operand { head, place } => match operand_kind(head, place) {
            OperandKind::Condition => explained(alloc, Some(text)),
            OperandKind::Register
            | OperandKind::Target
            | OperandKind::Label
            | OperandKind::Number => number_words(alloc, word.bytes),
        },
    }
}

/// What is said of a number; nothing where the text is none.
fn number_words(alloc: Global, text: &[u8]) -> Result<String, AllocError> {
    match number_description(alloc, text)? {
        Some(words) => Ok(words),
        None => Ok(String::new(alloc)),
    }
}

/// What is said of a head: of a line of data its words, and then what the head means.
fn head_words(
    alloc: Global,
    document: &Document,
    line: usize,
    head: &str,
) -> Result<String, AllocError> {
    let mut words = String::new(alloc);
    if head.starts_with('.') {
        push_data(&mut words, alloc, document, line)?;
    }
    let page = explained(alloc, Some(head))?;
    words.push_str(page.as_str())?;
    Ok(words)
}

/// Adds which words of data a line adds, with their name, if it adds some.
fn push_data(
    words: &mut String,
    alloc: Global,
    document: &Document,
    line: usize,
) -> Result<(), AllocError> {
    let places = SourcePlaces::of(alloc, &document.ascii)?;
    let Some(data) = places.data_lines().iter().find(|data| data.number == line) else {
        return Ok(());
    };
    let first = address_of(data.first);
    write!(words, "[{first}]")?;
    if data.count > 1 {
        let last = first.saturating_add(address_of(data.count.saturating_sub(1)));
        write!(words, " to [{last}]")?;
    }
    if let Some(name) = places.data_names().iter().find(|name| name.number == line) {
        words.push_str(": ")?;
        words.push_str(str::from_utf8(name.name).unwrap_or(""))?;
    }
    words.push_str("\n\n")
}

/// What is said of a label: its address, its line, and where it is used.
fn label_words(
    alloc: Global,
    document: &Document,
    name: &[u8],
    places: &[NamePlace],
) -> Result<String, AllocError> {
    let mut words = String::new(alloc);
    words.push_str(str::from_utf8(name).unwrap_or(""))?;
    let labels = SourcePlaces::of(alloc, &document.ascii)?;
    if let Some(label) = labels.labels().iter().find(|label| label.name == name) {
        let line = label.place.line.saturating_add(1);
        write!(words, " = {}, line {line}", label.place.value)?;
    }
    push_uses(&mut words, places)?;
    Ok(words)
}

/// Adds on which lines a label is used.
fn push_uses(words: &mut String, places: &[NamePlace]) -> Result<(), AllocError> {
    let mut count: usize = 0;
    for place in places {
        if !place.is_label && count <= MOST_USES {
            words.push_str(match count {
                0 => "; used on line ",
                MOST_USES => " ..",
                _ => ", ",
            })?;
            if count < MOST_USES {
                let line = place.line.saturating_add(1);
                write!(words, "{line}")?;
            }
            count = count.saturating_add(1);
        }
    }
    if count == 0 {
        words.push_str("; not used")?;
    }
    Ok(())
}
