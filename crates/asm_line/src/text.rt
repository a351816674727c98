//! Bytes of a line: blanks, heads, names.

ghost use Rattle.std.specs.Prelude.{◌≡◌, ◌==◌, reverse, drop, slice_index, ◌<◌};
ghost use Rattle.std.specs.List.{position, list_all};
ghost use Rattle.asm_line.specs.Text.{is_blank, skip_blanks, trim, head, behind_head};
ghost use Rattle.asm_line.specs.Text.{is_first, is_further, is_name};

/// A space, a tab or a carriage return.
fn is_blank(byte: u8) -> bool
    ensures { result ≡ is_blank byte }
{
    byte == b' ' || byte == b'\t' || byte == b'\r'
}

/// The bytes without the blanks at both ends.
#[tactic(auto, unfolding(crate::specs::Text::trim))]
pub(crate) fn trim(bytes: &[u8]) -> &[u8]
    ensures { result.now ≡ trim bytes.now }
{
    without_last_blanks(without_first_blanks(bytes))
}

fn without_first_blanks(bytes: &[u8]) -> &[u8]
    ensures { result.now ≡ skip_blanks bytes.now }
{
    let mut rest = bytes;
    while let [first, tail @ ..] = rest {
        if !is_blank(*first) {
            return rest;
        }
        rest = tail;
    }
    rest
}

fn without_last_blanks(bytes: &[u8]) -> &[u8]
    ensures { result.now ≡ reverse (skip_blanks (reverse bytes.now)) }
{
    let mut rest = bytes;
    while let [front @ .., last] = rest {
        if !is_blank(*last) {
            return rest;
        }
        rest = front;
    }
    rest
}

/// The head of a statement, which ends at the first blank, and what follows it, without blanks at its ends.
#[tactic(auto, unfolding(crate::specs::Text::head, crate::specs::Text::behind_head))]
pub(crate) fn split_head(text: &[u8]) -> (&[u8], &[u8])
    ensures head { result.0.now ≡ head text.now }
    ensures behind { result.1.now ≡ behind_head text.now }
{
    match find_blank(text) {
        Some(i) => (&text[..i], trim(&text[i + 1..])),
        None => (text, &[]),
    }
}

/// Where the first blank stands.
fn find_blank(text: &[u8]) -> Option<usize>
    ensures { result ≡ position is_blank text.now }
{
    text.iter().position(|b| is_blank(*b))
}

/// Whether the text begins with the byte `c`, which is not 0.
pub(crate) fn begins(text: &[u8], c: u8) -> bool
    requires { 0 < c }
    ensures { result ≡ (slice_index text.now 0 == c) }
{
    match text {
        [first, ..] => *first == c,
        [] => false,
    }
}

/// The text without its first byte.
pub(crate) fn tail(text: &[u8]) -> &[u8]
    ensures { result.now ≡ drop 1 text.now }
{
    match text {
        [_, tail @ ..] => tail,
        [] => text,
    }
}

/// Whether the text is a name: a letter or `_`, then letters, digits or `_`, 1 to 32 characters.
#[tactic(auto, unfolding(crate::specs::Text::is_name))]
pub(crate) fn is_name(text: &[u8]) -> bool
    ensures { result ≡ is_name text.now }
{
    match text {
        [first, further @ ..] => further.len() < 32 && is_first(*first) && are_further(further),
        [] => false,
    }
}

fn is_first(byte: u8) -> bool
    ensures { result ≡ is_first byte }
{
    byte.is_ascii_alphabetic() || byte == b'_'
}

fn is_further(byte: u8) -> bool
    ensures { result ≡ is_further byte }
{
    byte.is_ascii_alphanumeric() || byte == b'_'
}

fn are_further(bytes: &[u8]) -> bool
    ensures { result ≡ list_all is_further bytes.now }
{
    bytes.iter().all(|b| is_further(*b))
}
