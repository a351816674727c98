//! The words of a line.

ghost use Rattle.std.specs.Prelude.{◌≡◌, ◌∷◌, [], MatchOption};
ghost use Rattle.std.specs.List.{position, slice_index_or};
ghost use Rattle.expectation_files.specs.Words.{is_blank, skip_blanks, statement, words_of, words_on, text_of};
ghost use Rattle.expectation_files.specs.OperandsSeen.{AreOperands};

use std::str;
use text_parts::cut;

/// The words after the first word of a line, or after the first words of a claim.
#[derive(Clone, Copy)]
pub(crate) enum Operands<'t> {
    /// None.
    Zero,
    /// One word.
    One(&'t [u8]),
    /// Two words.
    Two(&'t [u8], &'t [u8]),
    /// Three words.
    Three(&'t [u8], &'t [u8], &'t [u8]),
    /// Four words, and what stands after them.
    More(&'t [u8], &'t [u8], &'t [u8], &'t [u8], &'t [u8]),
}

/// A line up to its comment.
pub(crate) fn statement_of(line: &[u8]) -> &[u8]
    ensures { result.now ≡ statement line.now }
{
    let (before, _comment) = cut(line, b'#');
    let (statement, _comment) = cut(before, b';');
    statement
}

/// The words of a text as operands.
pub(crate) fn read_operands(text: &[u8]) -> Operands<'_>
    ensures { AreOperands result (words_of text.now) }
{
    let Some((first, rest)) = next_word(text) else {
        return Operands::Zero;
    };
    let Some((second, rest)) = next_word(rest) else {
        return Operands::One(first);
    };
    let Some((third, rest)) = next_word(rest) else {
        return Operands::Two(first, second);
    };
    match next_word(rest) {
        None => Operands::Three(first, second, third),
        Some((fourth, rest)) => Operands::More(first, second, third, fourth, rest),
    }
}

/// The first word of a text, and what follows it; None where the text has no word.
pub(crate) fn next_word(text: &[u8]) -> Option<(&[u8], &[u8])>
    ensures { MatchOption result (words_of text.now ≡ []) (λ r. words_of text.now ≡ r.0.now ∷ words_of r.1.now) }
{
    let text = without_first_blanks(text);
    if text.is_empty() {
        return None;
    }
    match find_blank(text) {
        Some(end) => Some((&text[..end], &text[end + 1..])),
        None => Some((text, &[])),
    }
}

fn without_first_blanks(bytes: &[u8]) -> &[u8]
    ensures { result.now ≡ skip_blanks bytes.now }
{
    let mut rest = bytes;
    while let [first, tail @ ..] = rest {
        if !is_blank(*first) {
            return rest;
        }
        rest = tail;
    }
    rest
}

/// Where the first blank stands.
pub(crate) fn find_blank(text: &[u8]) -> Option<usize>
    ensures { result ≡ position is_blank text.now }
{
    text.iter().position(|b| is_blank(*b))
}

/// A space, a tab or a carriage return.
fn is_blank(byte: u8) -> bool
    ensures { result ≡ is_blank byte }
{
    byte == b' ' || byte == b'\t' || byte == b'\r'
}

/// The word of this number of a text, from 0 for the first one; empty where it has fewer.
pub(crate) fn word_at(text: &[u8], number: usize) -> &[u8]
    ensures { result.now ≡ slice_index_or (words_of text.now) number [] }
{
    let mut left = number;
    let mut rest = text;
    while let Some((word, following)) = next_word(rest) {
        if left == 0 {
            return word;
        }
        left -= 1;
        rest = following;
    }
    &[]
}

/// A word as text; empty where its bytes are no UTF-8.
pub(crate) fn text_of(word: &[u8]) -> &str
    ensures { result.now ≡ text_of word.now }
{
    match str::from_utf8(word) {
        Ok(text) => text,
        Err(_) => "",
    }
}

/// The word of this number on a line, from 0 for the first one, as text; empty where the line has no such word, or its bytes
/// are no UTF-8.
pub fn word_of(line: &[u8], number: usize) -> &str
    ensures { result.now ≡ text_of (slice_index_or (words_on line.now) number []) }
{
    text_of(word_at(statement_of(line), number))
}
