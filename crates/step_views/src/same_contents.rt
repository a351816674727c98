//! Whether the same stands in a place of two worlds.

ghost use Rattle.std.specs.Prelude.{◌≡◌, ◌↔◌, IsTrue};

use crate::places::Content;
use stream_core::{Code, Codes, Status, StatusWord, TrapMask};
use tag_memory::Tags;

/// Whether both contents are the same.
pub fn is_same_content(a: &Content, b: &Content) -> bool
    ensures { IsTrue result ↔ (a.now ≡ b.now) }
{
    match (a, b) {
        (Content::Number(a), Content::Number(b)) => a == b,
        (Content::Codes(a), Content::Codes(b)) => is_same_codes(a, b),
        (Content::Mask(a), Content::Mask(b)) => is_same_mask(a, b),
        (Content::InTrap(a), Content::InTrap(b)) => a == b,
        (Content::Status(a), Content::Status(b)) => is_same_status(a, b),
        (Content::Target(a), Content::Target(b)) => is_same_status_word(a, b),
        (Content::Tags(a), Content::Tags(b)) => is_same_tags(a, b),
        _ => false,
    }
}

/// Whether both status words are the same.
pub fn is_same_status_word(a: &StatusWord, b: &StatusWord) -> bool
    ensures { IsTrue result ↔ (a.now ≡ b.now) }
{
    a.pc == b.pc
        && is_same_codes(&a.codes, &b.codes)
        && is_same_mask(&a.mask, &b.mask)
        && a.in_trap == b.in_trap
}

fn is_same_codes(a: &Codes, b: &Codes) -> bool
    ensures { IsTrue result ↔ (a.now ≡ b.now) }
{
    is_same_code(&a.newest, &b.newest)
        && is_same_code(&a.second, &b.second)
        && is_same_code(&a.third, &b.third)
        && is_same_code(&a.oldest, &b.oldest)
}

fn is_same_code(a: &Code, b: &Code) -> bool
    ensures { IsTrue result ↔ (a.now ≡ b.now) }
{
    a == b
}

fn is_same_mask(a: &TrapMask, b: &TrapMask) -> bool
    ensures { IsTrue result ↔ (a.now ≡ b.now) }
{
    a == b
}

/// Whether both statuses are the same.
pub fn is_same_status(a: &Status, b: &Status) -> bool
    ensures { IsTrue result ↔ (a.now ≡ b.now) }
{
    a == b
}

fn is_same_tags(a: &Tags, b: &Tags) -> bool
    ensures { IsTrue result ↔ (a.now ≡ b.now) }
{
    a == b
}
