//! How a text is mended, and which other places a message is about, as JSON.

use editor_texts::TextEdit;
use lab_json::{List, Object, text_value};
use serde_json::Value;
use source_cures::{Fix, Related};
use std::alloc::{AllocError, Global};

/// Fixes of a text as a list.
pub(crate) fn fixes_list(alloc: Global, text: &[u8], fixes: &[Fix]) -> List {
    let mut list = List::new(alloc);
    for fix in fixes {
        list.put(fix_value(alloc, text, fix));
    }
    list
}

/// A fix of a text: its title and its edits.
fn fix_value(alloc: Global, text: &[u8], fix: &Fix) -> Result<Value, AllocError> {
    let mut edits = List::new(alloc);
    for edit in &fix.edits {
        edits.put(edit_value(alloc, text, edit));
    }
    let mut object = Object::new(alloc);
    object.put_text("title", fix.title.as_str());
    object.put("edits", edits.whole());
    object.whole()
}

/// An edit of a text: the part of a line that goes, and what takes its place.
fn edit_value(alloc: Global, text: &[u8], edit: &TextEdit) -> Result<Value, AllocError> {
    let before = text.get(..edit.start).unwrap_or(text);
    let lines = before.iter().filter(|byte| **byte == b'\n').count();
    let line_start = match before.iter().rposition(|byte| *byte == b'\n') {
        Some(place) => place.saturating_add(1),
        None => 0,
    };
    let column = before.len().saturating_sub(line_start);
    let mut object = Object::new(alloc);
    object.put_number("line", (lines as u64).saturating_add(1));
    object.put_number("column", (column as u64).saturating_add(1));
    object.put_number("width", edit.end.saturating_sub(edit.start) as u64);
    object.put("text", written_value(alloc, &edit.text));
    object.whole()
}

/// What an edit writes.
fn written_value(alloc: Global, bytes: &[u8]) -> Result<Value, AllocError> {
    text_value(alloc, String::from_utf8_lossy(alloc, bytes)?.as_str())
}

/// Another place that a message is about, as a list.
pub(crate) fn related_list(alloc: Global, related: Option<Related>) -> List {
    let mut list = List::new(alloc);
    if let Some(place) = related {
        list.put(related_value(alloc, &place));
    }
    list
}

/// Another place that a message is about.
fn related_value(alloc: Global, place: &Related) -> Result<Value, AllocError> {
    let mut object = Object::new(alloc);
    object.put_number("line", place.line as u64);
    object.put_number("column", place.column as u64);
    object.put_number("width", place.width as u64);
    object.put_text("message", place.words.as_str());
    object.whole()
}
