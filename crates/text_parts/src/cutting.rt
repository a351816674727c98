//! A text cut at a byte.

ghost use Rattle.std.specs.Prelude.{◌≡◌, ◌≤◌, ◌∷◌, ◌==◌, ◌||◌, length};
ghost use Rattle.std.specs.List.{position};
ghost use Rattle.std.specs.Option.{option_copied};
ghost use Rattle.text_parts.specs.Pieces.{pieces, text_before, text_after, rest_pieces, rest_length};

use memchr::{memchr, memchr2};

/// From how many bytes on `memchr` compares so many at once; a shorter text is searched sooner byte by byte.
const VECTOR: usize = 32;

/// What stands before the first of a byte, and what stands after it. Where the byte stands nowhere, the first is the
/// whole text, and the second is None.
#[inline(always)]
#[tactic(auto, unfolding(crate::specs::Pieces::text_after), using(crate::proofs::Pieces::pieces_cut))]
pub fn cut(text: &[u8], byte: u8) -> (&[u8], Option<&[u8]>)
    ensures before { result.0.now ≡ text_before byte text.now }
    ensures after { option_copied result.1 ≡ text_after byte text.now }
    ensures pieces { pieces byte text.now ≡ result.0.now ∷ rest_pieces byte (option_copied result.1) }
    ensures shorter { rest_length (option_copied result.1) ≤ length text.now }
{
    match find(text, byte) {
        Some(place) => (&text[..place], Some(&text[place + 1..])),
        None => (text, None),
    }
}

/// Where a byte stands first.
#[inline(always)]
fn find(text: &[u8], byte: u8) -> Option<usize>
    ensures { result ≡ position (λ b. b == byte) text.now }
{
    if text.len() < VECTOR {
        return text.iter().position(|b| *b == byte);
    }
    find_far(text, byte)
}

/// Where a byte stands first in a long text. Kept out of line, so that cutting short ones is written out where it is
/// asked for.
#[inline(never)]
fn find_far(text: &[u8], byte: u8) -> Option<usize>
    ensures { result ≡ position (λ b. b == byte) text.now }
{
    memchr(byte, text)
}

/// Where one of two bytes stands first.
pub fn find_either(text: &[u8], one: u8, other: u8) -> Option<usize>
    ensures { result ≡ position (λ b. b == one || b == other) text.now }
{
    memchr2(one, other, text)
}
