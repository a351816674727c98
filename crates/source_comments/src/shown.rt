//! What can be shown.

use std::str;

/// Whether a text is UTF-8 and has no character that would change how others are shown: no control character above 7F, none
/// that overrides the direction of writing, and none of the two that no document may have, U+FFFE and U+FFFF. Control
/// characters in ASCII are for who shows the text.
pub fn is_showable(text: &[u8]) -> bool {
    let Ok(letters) = str::from_utf8(text) else {
        return false;
    };
    for letter in letters.chars() {
        if !is_plain(letter) {
            return false;
        }
    }
    true
}

/// Whether a character leaves the others as they are.
fn is_plain(letter: char) -> bool {
    !matches!(
        letter,
        '\u{80}'..='\u{9F}'
            | '\u{202A}'..='\u{202E}'
            | '\u{2066}'..='\u{2069}'
            | '\u{FFFE}'
            | '\u{FFFF}'
    )
}
