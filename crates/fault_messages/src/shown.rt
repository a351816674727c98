//! Pieces of a text in a sentence.

use plain_text::{TextWriter, is_hidden};

/// How many bytes of a text a sentence shows at most.
const LONGEST: usize = 40;

/// Adds a piece of a text as a sentence shows it: at most 40 bytes, in which each control character, and each that
/// [`is_hidden`], is a question mark.
pub fn put_shown(out: &mut TextWriter, bytes: &[u8]) {
    let front = bytes.get(..LONGEST).unwrap_or(bytes);
    match String::from_utf8_lossy(out.alloc(), front) {
        Ok(front) => put_letters(out, front.as_str()),
        Err(_) => out.lack_piece(),
    }
    if bytes.len() > LONGEST {
        out.put("..");
    }
}

/// Adds a text in which each of these characters is a question mark.
fn put_letters(out: &mut TextWriter, text: &str) {
    for letter in text.chars() {
        let is_unseen = letter.is_control() || is_hidden(letter);
        out.put_letter(if is_unseen { '?' } else { letter });
    }
}
