//! Numbers.

ghost use Rattle.std.specs.Prelude.{◌≡◌, ◌≤◌, ◌-◌, ◌^◌, IfOk, pos, neg_ℤ};
ghost use Rattle.asm_line.specs.Faults.{map_ok};
ghost use Rattle.asm_line.specs.Numbers.{number_within, count_within, signed_within};

use crate::fault::Fault;
use crate::text::{begins, tail};
use text_parts::read_number;

/// A number of at most so much.
#[tactic(auto, unfolding(crate::specs::Numbers::number_within), using(crate::proofs::Limits::limits))]
pub(crate) fn number_within(most: u64, text: &[u8]) -> Result<u64, Fault>
    ensures value { result ≡ number_within most text.now }
    ensures bound { IfOk result (λ n. n ≤ most) }
{
    let number = read_number(text).ok_or(Fault::Operand)?;
    number.up_to(most).ok_or(Fault::Range)
}

/// A number of at most so much.
pub(crate) fn small_within(most: u8, text: &[u8]) -> Result<u8, Fault>
    ensures { result ≡ number_within most text.now }
{
    let number = number_within(u64::from(most), text)?;
    Ok(number as u8)
}

/// A number of 32 bits.
pub(crate) fn number_32(text: &[u8]) -> Result<u32, Fault>
    ensures { result ≡ number_within (2 ^ 32 - 1) text.now }
{
    let number = number_within(0xFFFF_FFFF, text)?;
    Ok(number as u32)
}

/// A number of 64 bits.
pub(crate) fn number_64(text: &[u8]) -> Result<u64, Fault>
    ensures { result ≡ number_within (2 ^ 64 - 1) text.now }
{
    number_within(0xFFFF_FFFF_FFFF_FFFF, text)
}

/// A number from 1 to so much.
#[tactic(auto, unfolding(crate::specs::Numbers::count_within))]
pub(crate) fn count_within(most: u32, text: &[u8]) -> Result<u32, Fault>
    ensures value { result ≡ count_within most text.now }
    ensures bound { IfOk result (λ n. n ≤ most) }
{
    let number = number_within(u64::from(most), text)?;
    if number == 0 {
        return Err(Fault::Range);
    }
    Ok(number as u32)
}

/// A number from `-least` to `most`.
#[tactic(auto, unfolding(crate::specs::Numbers::signed_within))]
pub(crate) fn signed_within(least: u8, most: u8, text: &[u8]) -> Result<i8, Fault>
    requires low { least ≤ 128 }
    requires high { most ≤ 127 }
    ensures { result ≡ signed_within least most text.now }
{
    if begins(text, b'-') {
        negative_within(least, tail(text))
    } else {
        positive_within(most, text)
    }
}

/// A number from 0 to `most`.
pub(crate) fn positive_within(most: u8, text: &[u8]) -> Result<i8, Fault>
    requires { most ≤ 127 }
    ensures { result ≡ map_ok pos (number_within most text.now) }
{
    let number = number_within(u64::from(most), text)?;
    Ok(positive(number as u8))
}

/// A number from `-least` to 0, of the text after its `-`.
fn negative_within(least: u8, text: &[u8]) -> Result<i8, Fault>
    requires { least ≤ 128 }
    ensures { result ≡ map_ok (λ n. neg_ℤ (pos n)) (number_within least text.now) }
{
    let number = number_within(u64::from(least), text)?;
    Ok(negative(number as u8))
}

/// The number itself.
pub(crate) fn positive(number: u8) -> i8
    requires { number ≤ 127 }
    ensures { result ≡ pos number }
{
    number as i8
}

/// The number, negative.
pub(crate) fn negative(number: u8) -> i8
    requires { number ≤ 128 }
    ensures { result ≡ neg_ℤ (pos number) }
{
    (0 - i16::from(number)) as i8
}

/// A number from 1 to 128.
pub(crate) fn small_count(text: &[u8]) -> Result<u8, Fault>
    ensures { result ≡ count_within 128 text.now }
{
    let number = count_within(128, text)?;
    Ok(number as u8)
}
