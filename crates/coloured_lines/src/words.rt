//! Which words have a colour, and where.

use crate::colours::Colour;

/// Where a word stands that has a colour.
#[derive(Clone, Copy)]
enum WordPosition {
    /// At the head of a message: at a line's beginning or after a colon and a blank.
    Head,
    /// In a column of its own: at a line's beginning, or after a tab, two blanks, or a colon and a blank; and before a
    /// tab, two blanks, a colon, a comma or the line's end.
    Column,
    /// What a word of memory is: after its address or its name, a comma, an arrow, or `to be`; and before an arrow, a
    /// mark, two blanks, its comment in brackets or the line's end.
    State,
    /// At the beginning of a line, perhaps after blanks.
    Beginning,
    /// Anywhere.
    Anywhere,
}

/// A word with its colour.
#[derive(Clone, Copy)]
struct ColouredWord(&'static str, Colour, WordPosition);

/// The words that have one; of two that begin alike the longer one first.
const WORDS: [ColouredWord; 30] = [
    ColouredWord("error:", Colour::Bad, WordPosition::Head),
    ColouredWord("warning:", Colour::Doubtful, WordPosition::Head),
    ColouredWord("mta_lab:", Colour::Bad, WordPosition::Beginning),
    ColouredWord("right", Colour::Good, WordPosition::Column),
    ColouredWord("done", Colour::Good, WordPosition::Column),
    ColouredWord("finished", Colour::Good, WordPosition::Column),
    ColouredWord("nobody runs", Colour::Good, WordPosition::Head),
    ColouredWord("waiting", Colour::Good, WordPosition::Column),
    ColouredWord("looping", Colour::Good, WordPosition::Column),
    ColouredWord("wrong", Colour::Bad, WordPosition::Column),
    ColouredWord("deadlock", Colour::Bad, WordPosition::Column),
    ColouredWord("stopped", Colour::Bad, WordPosition::Column),
    ColouredWord("trap", Colour::Bad, WordPosition::Column),
    ColouredWord("source fault", Colour::Bad, WordPosition::Column),
    ColouredWord("not read", Colour::Doubtful, WordPosition::Column),
    ColouredWord("not decided", Colour::Doubtful, WordPosition::Column),
    ColouredWord("not judged", Colour::Doubtful, WordPosition::Column),
    ColouredWord("spinning", Colour::Doubtful, WordPosition::Column),
    ColouredWord("spins", Colour::Doubtful, WordPosition::Column),
    ColouredWord("out of steps", Colour::Doubtful, WordPosition::Column),
    ColouredWord("ran out of steps", Colour::Doubtful, WordPosition::Column),
    ColouredWord("lost update", Colour::Bad, WordPosition::Beginning),
    ColouredWord("torn read", Colour::Bad, WordPosition::Beginning),
    ColouredWord("unread store", Colour::Doubtful, WordPosition::Beginning),
    ColouredWord("NOT as expected", Colour::Bad, WordPosition::Anywhere),
    ColouredWord("broken", Colour::Bad, WordPosition::Column),
    ColouredWord("holds", Colour::Good, WordPosition::Column),
    ColouredWord("as expected", Colour::Good, WordPosition::Column),
    ColouredWord("full", Colour::Full, WordPosition::State),
    ColouredWord("empty", Colour::Empty, WordPosition::State),
];

/// The word with a colour that stands between these two parts of a line, at the beginning of the second.
pub(crate) fn word_at(before: &str, rest: &str) -> Option<(&'static str, Colour)> {
    for ColouredWord(word, colour, place) in WORDS {
        if let Some(behind) = rest.strip_prefix(word)
            && stands(place, before, behind)
        {
            return Some((word, colour));
        }
    }
    None
}

/// Whether a word between these parts of a line stands where it has its colour.
fn stands(place: WordPosition, before: &str, behind: &str) -> bool {
    match place {
        WordPosition::Head => before.is_empty() || before.ends_with(": "),
        WordPosition::Column => begins_column(before) && ends_column(behind),
        WordPosition::State => is_after_state(before) && ends_state(behind),
        WordPosition::Beginning => before.bytes().all(|byte| byte == b' '),
        WordPosition::Anywhere => true,
    }
}

fn begins_column(before: &str) -> bool {
    before.is_empty() || before.ends_with('\t') || before.ends_with("  ") || before.ends_with(": ")
}

fn ends_column(behind: &str) -> bool {
    ends_word(behind) || behind.starts_with('\t') || behind.starts_with(':')
}

fn is_after_state(before: &str) -> bool {
    before.ends_with(", ")
        || before.ends_with("-> ")
        || before.ends_with("] ")
        || before.ends_with("to be ")
        || ends_with_named_word(before)
}

/// Whether a part of a line ends with an address in brackets, the name of its word, and a blank: `[0] lock `.
fn ends_with_named_word(before: &str) -> bool {
    let words = before.strip_suffix(" ").unwrap_or("");
    match words.rsplit_once(' ') {
        Some((front, name)) => front.ends_with(']') && name.bytes().all(is_of_name),
        None => false,
    }
}

/// Whether a byte is one of a name, or of which word of its line is meant: `ring+1`.
fn is_of_name(byte: u8) -> bool {
    byte.is_ascii_alphanumeric() || byte == b'_' || byte == b'+'
}

fn ends_state(behind: &str) -> bool {
    ends_word(behind) || behind.starts_with(" (")
}

fn ends_word(behind: &str) -> bool {
    behind.is_empty()
        || behind.starts_with(',')
        || behind.starts_with(';')
        || behind.starts_with('.')
        || behind.starts_with(" ->")
        || behind.starts_with("  ")
}
