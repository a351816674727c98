//! Texts in the DOT language.

use plain_text::{TextWriter, plain};

/// Adds a text as a part of a quoted string, shown as it is; a control byte as its escape.
pub(crate) fn put_shown(out: &mut TextWriter, text: &str) {
    match plain(out.alloc(), text) {
        Ok(text) => put_letters(out, &text),
        Err(_) => out.lack_piece(),
    }
}

/// Adds the letters of a text without control bytes.
fn put_letters(out: &mut TextWriter, text: &str) {
    for letter in text.chars() {
        match letter {
            '"' => out.put("\\\""),
            '\\' => out.put("\\\\"),
            '&' => out.put("&amp;"),
            _ => out.put_letter(letter),
        }
    }
}

/// Adds numbers, a space between them.
fn put_numbers(out: &mut TextWriter, numbers: &[usize]) {
    for (index, number) in numbers.iter().enumerate() {
        if index > 0 {
            out.put(" ");
        }
        out.put_number(*number as u64);
    }
}

/// Adds which ends can still be reached.
pub(crate) fn put_ahead(out: &mut TextWriter, numbers: &[usize]) {
    if numbers.is_empty() {
        out.put("to no end that was found");
    } else {
        out.put("to ");
        put_numbers(out, numbers);
    }
}
