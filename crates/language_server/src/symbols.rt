//! The labels of a text, and its words of data that have names.

use crate::documents::Document;
use crate::line_starts::DocumentLine;
use crate::ranges::put_range;
use editor_wire::Json;
use source_places::SourcePlaces;
use std::alloc::{AllocError, Global};
use std::str;

/// The protocol's number of a function: labels are shown as such.
const FUNCTION: u64 = 12;

/// That of a field: words of data are shown as such.
const FIELD: u64 = 8;

/// All labels with their addresses, and all named words of data with theirs. A label of a line of data is the name of its
/// words.
pub(crate) fn symbols(alloc: Global, document: &Document) -> Result<Json, AllocError> {
    let places = SourcePlaces::of(alloc, &document.ascii)?;
    let mut json = Json::new(alloc);
    json.begin_list();
    for label in places.labels() {
        let line = label.place.line;
        if !is_named(&places, line) {
            let detail = format!(in alloc; "{}", label.place.value)?;
            put_symbol(
                &mut json,
                document.line(line),
                label.name,
                detail.as_str(),
                FUNCTION,
            );
        }
    }
    for name in places.data_names() {
        let detail = format!(in alloc; "[{}]", address_of(name.first))?;
        put_symbol(
            &mut json,
            document.line(name.number),
            name.name,
            detail.as_str(),
            FIELD,
        );
    }
    json.close_list();
    Ok(json)
}

/// The byte address of a word of data, from 0.
pub(crate) fn address_of(word: usize) -> u64 {
    (word as u64).saturating_mul(8)
}

/// Whether words of data have their name by a line.
fn is_named(places: &SourcePlaces, line: usize) -> bool {
    places
        .data_names()
        .binary_search_by_key(&line, |name| name.number)
        .is_ok()
}

/// Writes a symbol of a line, if there is such a line.
fn put_symbol(json: &mut Json, line: Option<DocumentLine>, name: &[u8], detail: &str, kind: u64) {
    if let Some(line) = line {
        json.open();
        json.text_of("name", str::from_utf8(name).unwrap_or("?"));
        json.text_of("detail", detail);
        json.number_of("kind", kind);
        put_range(json, "range", line, 0, line.bytes.len());
        put_range(json, "selectionRange", line, 0, line.bytes.len());
        json.close();
    }
}
