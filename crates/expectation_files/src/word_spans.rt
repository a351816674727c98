//! Where the words of a line stand.

ghost use Rattle.std.specs.Prelude.{◌≡◌, ◌∷◌, ◌+◌, ◌-◌, [], length, take, drop, MatchOption};
ghost use Rattle.std.specs.List.{slice_split, slice_index_or};
ghost use Rattle.std.specs.Option.{option_copied};
ghost use Rattle.text_parts.specs.Pieces.{rest_length};
ghost use Rattle.expectation_files.specs.Words.{is_blank, words_on};
ghost use Rattle.expectation_files.specs.WordSpans.{span_numbered, placed_words, rest_between_blanks};

use crate::words::{find_blank, statement_of};

/// Where a word of a line stands.
#[derive(Clone, Copy, Debug, PartialEq, Eq)]
pub struct WordSpan {
    /// The column of its first byte, from 1.
    pub column: usize,
    /// How many bytes it has; 0 where the line has no such word, and the column is that after its last one.
    pub width: usize,
}

/// Where the word of this number stands on a line, from 0 for the first one.
pub fn word_span(line: &[u8], number: usize) -> WordSpan
    ensures stands { result ≡ span_numbered (placed_words line.now) number }
    ensures word { take result.width (drop (result.column - 1) line.now) ≡ slice_index_or (words_on line.now) number [] }
{
    let mut left = number;
    let mut before = 0;
    let mut end = 0;
    let mut rest = Some(statement_of(line));
    while let Some(text) = rest {
        let (piece, following) = cut_at_blank(text);
        let width = piece.len();
        if width > 0 {
            if left == 0 {
                let column = before + 1;
                return WordSpan { column, width };
            }
            left -= 1;
            end = before + width;
        }
        before += width + 1;
        rest = following;
    }
    WordSpan {
        column: end + 1,
        width: 0,
    }
}

/// What stands before the first blank of a text, or all of it, and what stands after it, if there is one.
fn cut_at_blank(text: &[u8]) -> (&[u8], Option<&[u8]>)
    ensures pieces { slice_split is_blank text.now ≡ result.0.now ∷ rest_between_blanks (option_copied result.1) }
    ensures piece { take (length result.0.now) text.now ≡ result.0.now }
    ensures rest { MatchOption result.1 (length result.0.now ≡ length text.now)
        (λ r. (drop (length result.0.now + 1) text.now ≡ r.now) × (length result.0.now + length r.now + 1 ≡ length text.now)) }
{
    match find_blank(text) {
        Some(place) => (&text[..place], Some(&text[place + 1..])),
        None => (text, None),
    }
}
