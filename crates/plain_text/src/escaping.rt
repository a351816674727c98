//! Texts without control bytes.

use std::alloc::{AllocError, Global};

/// Adds a text as a terminal or a table may have it. Each control byte, 00 to 1F and 7F, is written as an escape: a tab as
/// `\t`, a line feed as `\n`, another one as `\x1b`. Each character that [`is_hidden`] is a question mark. All others
/// stay as they are.
pub fn push_plain(out: &mut String, text: &str) -> Result<(), AllocError> {
    for letter in text.chars() {
        push_letter(out, letter)?;
    }
    Ok(())
}

/// The text that [`push_plain`] adds.
pub fn plain(alloc: Global, text: &str) -> Result<String, AllocError> {
    let mut out = String::new(alloc);
    push_plain(&mut out, text)?;
    Ok(out)
}

/// Whether a character above 7F is not seen itself, but steers a terminal (U+0080 to U+009F), ends a line (U+2028 and
/// U+2029), or turns the direction of what stands near it (U+202A to U+202E, U+2066 to U+2069).
pub fn is_hidden(letter: char) -> bool {
    matches!(
        letter,
        '\u{80}'..='\u{9F}' | '\u{2028}'..='\u{202E}' | '\u{2066}'..='\u{2069}'
    )
}

/// The first characters of a text, no more than these.
pub fn front_of(text: &str, most: usize) -> &str {
    match text.char_indices().nth(most) {
        Some((end, _)) => text.get(..end).unwrap_or(text),
        None => text,
    }
}

/// Adds a character, a control byte as its escape.
fn push_letter(out: &mut String, letter: char) -> Result<(), AllocError> {
    match letter {
        '\t' => out.push_str("\\t"),
        '\n' => out.push_str("\\n"),
        '\0'..='\x1f' | '\x7f' => {
            let code = letter as u32;
            write!(out, "\\x{code:02x}")
        }
        _ if is_hidden(letter) => out.push('?'),
        _ => out.push(letter),
    }
}
