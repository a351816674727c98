//! What is known at a place, by its rows.

ghost use Rattle.std.specs.Prelude.{◌≡◌, slice_index_or, IsTrue};
ghost use Rattle.touched_words.specs.TouchTables.{is_closed, known_by, known_at, is_marked, marks_at};
ghost use Rattle.touched_words.specs.ClosedTables.{AreAmong};

use crate::few::Few;

/// What each register may hold, where that is known.
pub(crate) type KnownRow = [Option<Few>; 32];

/// How many words a table has at most.
pub(crate) const MOST_WORDS: usize = 64;

/// Which words are marked, in the order of the table's words.
pub(crate) type WordRow = [bool; MOST_WORDS];

/// Whether a place is closed; past the end none is.
pub(crate) fn is_closed(closed: &[bool], place: u32) -> bool
    ensures { result ≡ is_closed closed.now place }
{
    match closed.get(place as usize) {
        Some(is_closed) => *is_closed,
        None => false,
    }
}

/// The row of a place; where there is none an empty one, by which nothing is known.
pub(crate) fn known_at(known: &[KnownRow], place: u32) -> &[Option<Few>]
    ensures { result.now ≡ known_at known.now place }
{
    match known.get(place as usize) {
        Some(row) => row,
        None => &[],
    }
}

/// What a register may hold by a row, where that is known.
pub(crate) fn known_by(row: &[Option<Few>], register: u8) -> Option<Few>
    ensures { result ≡ known_by row.now register }
{
    match row.get(usize::from(register)) {
        Some(known) => *known,
        None => None,
    }
}

/// The row of a place; where there is none an empty one, in which nothing is marked.
pub(crate) fn marks_at(rows: &[WordRow], place: u32) -> &[bool]
    ensures { result.now ≡ marks_at rows.now place }
{
    match rows.get(place as usize) {
        Some(row) => row,
        None => &[],
    }
}

/// Whether a word is marked in a row.
pub(crate) fn is_marked(row: &[bool], word: usize) -> bool
    ensures { result ≡ is_marked row.now word }
{
    match row.get(word) {
        Some(is_marked) => *is_marked,
        None => false,
    }
}

/// Whether each word that is marked in one row is in the other.
pub(crate) fn are_among(some: &[bool], all: &[bool]) -> bool
    ensures { IsTrue result → AreAmong some.now all.now }
{
    for (word, marked) in some.iter().enumerate() {
        if *marked && !is_marked(all, word) {
            return false;
        }
    }
    true
}
