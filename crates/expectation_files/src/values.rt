//! What the words of a line say, whatever the program.

ghost use Rattle.std.specs.Prelude.{◌≡◌, ◌≤◌, IfSome};
ghost use Rattle.expectation_files.specs.Values.{number_to, decimal_to, stream_named, register_named, count_named, points_named};
ghost use Rattle.expectation_files.specs.Values.{value_named, trap_named, state_named, relation_named};

use expectations::{FullEmpty, Relation};
use processor::Step;
use text_parts::{Base, cut, read_digits, read_number};

/// The last processor that a machine may have.
const LAST_PROCESSOR: u8 = 15;

/// The last stream that a processor may have.
const LAST_STREAM: u8 = 127;

const LAST_REGISTER: u8 = 31;

/// The greatest number of a trap.
const LAST_TRAP: u8 = 10;

/// The most points of a case.
const MOST_POINTS: u64 = 1_000;

/// The magnitude of the least value, -2^63.
const LEAST: u64 = 1 << 63;

/// A stream that some machine has, `P.S`.
#[tactic(auto, unfolding(crate::specs::Values::stream_named))]
pub(crate) fn stream_named(text: &[u8]) -> Option<Step>
    ensures { result ≡ stream_named text.now }
{
    let (p, s) = cut(text, b'.');
    let p = decimal_to(LAST_PROCESSOR, p)?;
    let s = decimal_to(LAST_STREAM, s?)?;
    Some(Step { p, s })
}

/// A register, `r0` to `r31`.
#[tactic(auto, unfolding(crate::specs::Values::register_named))]
pub(crate) fn register_named(text: &[u8]) -> Option<u8>
    ensures { result ≡ register_named text.now }
{
    match text {
        [b'r', digits @ ..] => decimal_to(LAST_REGISTER, digits),
        _ => None,
    }
}

/// A value of 64 bits; one below 0 in two's complement.
#[tactic(auto, unfolding(crate::specs::Values::value_named))]
pub(crate) fn value_named(text: &[u8]) -> Option<u64>
    ensures { result ≡ value_named text.now }
{
    match text {
        [b'-', digits @ ..] => number_to(LEAST, digits).map(u64::wrapping_neg),
        _ => number_to(u64::MAX, text),
    }
}

/// The number of a trap, 1 to 10.
#[tactic(auto, unfolding(crate::specs::Values::trap_named))]
pub(crate) fn trap_named(text: &[u8]) -> Option<u8>
    ensures { result ≡ trap_named text.now }
{
    let number = number_to(u64::from(LAST_TRAP), text)?;
    if number > 0 { Some(number as u8) } else { None }
}

/// `full` or `empty`.
#[tactic(auto, unfolding(crate::specs::Values::state_named))]
pub(crate) fn state_named(text: &[u8]) -> Option<FullEmpty>
    ensures { result ≡ state_named text.now }
{
    if text == b"full".as_slice() {
        return Some(FullEmpty::Full);
    }
    if text == b"empty".as_slice() {
        return Some(FullEmpty::Empty);
    }
    None
}

/// `is`, `above` or `below`, the last two perhaps of numbers with a sign.
#[tactic(auto, unfolding(crate::specs::Values::relation_named))]
pub(crate) fn relation_named(text: &[u8], is_signed: bool) -> Option<Relation>
    ensures { result ≡ relation_named text.now is_signed }
{
    if text == b"is".as_slice() {
        return if is_signed { None } else { Some(Relation::Is) };
    }
    if text == b"above".as_slice() {
        return if is_signed {
            Some(Relation::AboveSigned)
        } else {
            Some(Relation::Above)
        };
    }
    if text == b"below".as_slice() {
        return if is_signed {
            Some(Relation::BelowSigned)
        } else {
            Some(Relation::Below)
        };
    }
    None
}

/// A count: decimal digits, below 2^64.
pub(crate) fn count_named(text: &[u8]) -> Option<usize>
    ensures { result ≡ count_named text.now }
{
    let count = read_digits(Base::Decimal, text)?.up_to(u64::MAX)?;
    Some(count as usize)
}

/// How many points a case has: decimal digits, 1,000 at most.
pub(crate) fn points_named(text: &[u8]) -> Option<u32>
    ensures { result ≡ points_named text.now }
{
    let points = read_digits(Base::Decimal, text)?.up_to(MOST_POINTS)?;
    Some(points as u32)
}

/// A number of at most so much, decimal or with `0x`.
pub(crate) fn number_to(most: u64, text: &[u8]) -> Option<u64>
    ensures is { result ≡ number_to most text.now }
    ensures within { IfSome result (λ n. n ≤ most) }
{
    read_number(text)?.up_to(most)
}

/// A number of at most so much, in decimal digits.
fn decimal_to(most: u8, digits: &[u8]) -> Option<u8>
    ensures { result ≡ decimal_to most digits.now }
{
    let number = read_digits(Base::Decimal, digits)?.up_to(u64::from(most))?;
    Some(number as u8)
}
