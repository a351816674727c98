//! Words for what a stream waits for.

use waiting::Wanted;

/// The state that is waited for, as a word.
pub fn wanted_word(wanted: Wanted) -> &'static str {
    match wanted {
        Wanted::Full => "full",
        Wanted::Empty => "empty",
    }
}

/// Whether a word is full, as a word.
pub fn full_word(is_full: bool) -> &'static str {
    if is_full { "full" } else { "empty" }
}

/// What left the word in the other state, as a word.
pub fn turned_word(wanted: Wanted) -> &'static str {
    match wanted {
        Wanted::Full => "emptied",
        Wanted::Empty => "filled",
    }
}
