//! Places of lines, as the protocol writes them.

use crate::documents::Document;
use crate::line_starts::DocumentLine;
use editor_texts::{TextEdit, units_before};
use editor_wire::Json;
use std::alloc::Global;

/// Writes the part of a line between two of its places, as a member. Lines count from 0, and units of UTF-16.
pub(crate) fn put_range(json: &mut Json, name: &str, line: DocumentLine, start: usize, end: usize) {
    json.key(name);
    json.open();
    put_position(json, "start", line, start);
    put_position(json, "end", line, end);
    json.close();
}

/// Writes a place of a line, as a member.
fn put_position(json: &mut Json, name: &str, line: DocumentLine, column: usize) {
    json.key(name);
    json.open();
    json.number_of("line", line.number as u64);
    let units = units_before(line.bytes, column).saturating_add(line.mark);
    json.number_of("character", units as u64);
    json.close();
}

/// Writes the part of a line of a text, with the text's name, as a value. A line that is not there leaves nothing.
pub(crate) fn put_location(
    json: &mut Json,
    document: &Document,
    number: usize,
    column: usize,
    width: usize,
) {
    if let Some(line) = document.line(number) {
        json.open();
        json.text_of("uri", document.uri.as_str());
        put_range(json, "range", line, column, column.saturating_add(width));
        json.close();
    }
}

/// Writes edits of a text as a list.
pub(crate) fn edits_value(alloc: Global, document: &Document, edits: &[TextEdit]) -> Json {
    let mut json = Json::new(alloc);
    json.begin_list();
    for edit in edits {
        put_edit(alloc, &mut json, document, edit);
    }
    json.close_list();
    json
}

/// Writes an edit of a text. All of it stands on one line.
fn put_edit(alloc: Global, json: &mut Json, document: &Document, edit: &TextEdit) {
    let Some(line) = document.line_with(edit.start) else {
        return;
    };
    json.open();
    put_range(
        json,
        "range",
        line,
        edit.start.saturating_sub(line.start),
        edit.end.saturating_sub(line.start),
    );
    match String::from_utf8_lossy(alloc, &edit.text) {
        Ok(text) => json.text_of("newText", text.as_str()),
        Err(_) => json.lack_piece(),
    }
    json.close();
}
