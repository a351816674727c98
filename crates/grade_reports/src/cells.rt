//! Cells of tables that spreadsheets read.

use plain_text::TextWriter;
use std::alloc::AllocError;

/// Whether a spreadsheet takes a cell with this text for a formula.
fn is_formula(text: &str) -> bool {
    text.starts_with('=') || text.starts_with('+') || text.starts_with('-') || text.starts_with('@')
}

/// Adds a text as a cell, with its control bytes as escapes: with `'` in front where a spreadsheet would take it for a formula.
pub(crate) fn put_cell(out: &mut TextWriter, text: &str) {
    if is_formula(text) {
        out.put("'");
    }
    out.put_plain(text);
}

/// Adds a text as a cell of CSV, in quotation marks.
pub(crate) fn put_csv_cell(out: &mut TextWriter, text: &str) {
    out.put("\"");
    if is_formula(text) {
        out.put("'");
    }
    for letter in text.chars() {
        if letter == '"' {
            out.put("\"");
        }
        out.put_letter(letter);
    }
    out.put("\"");
}

/// Adds a text that was made, unless memory was refused for it.
pub(crate) fn put_made(out: &mut TextWriter, made: Result<String, AllocError>) {
    match made {
        Ok(text) => out.put(&text),
        Err(_) => out.lack_piece(),
    }
}
