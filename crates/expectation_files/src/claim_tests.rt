//! What a claim says of a word.

ghost use Rattle.std.specs.Prelude.{◌≡◌, ◌==◌, slice_index, ℕ, List};
ghost use Rattle.expectation_files.specs.Values.{value_named};
ghost use Rattle.expectation_files.specs.ClaimLines.{number_claimed, order_of, in_order, number_compared, greatest, least};
ghost use Rattle.expectation_files.specs.ClaimLines.{above_of, below_of, is_of, compared_by, test_plain, test_signed};
ghost use Rattle.expectation_files.specs.ClaimLines.{test_of_state};

use crate::faults::{LineFault, LineFaultKind, LineForm};
use crate::values::{number_to, value_named};
use claims::{NumberOrder, WordTest};
use expectations::FullEmpty;

/// The form of claims.
pub(crate) const CLAIM: LineFaultKind = LineFaultKind::Form(LineForm::Claim);

/// The 64 bits of -2^63, and the least number that has no sign and is none of those with one.
const LEAST_SIGNED: u64 = 1 << 63;

/// `full` or `empty`.
pub(crate) fn test_of_state(state: Option<FullEmpty>) -> Result<WordTest, LineFault>
    ensures { result ≡ test_of_state state }
{
    match state {
        Some(FullEmpty::Full) => Ok(WordTest::Full),
        Some(FullEmpty::Empty) => Ok(WordTest::Empty),
        None => Err(LineFault::at(3, CLAIM)),
    }
}

/// `is VALUE`, `above NUMBER` or `below NUMBER`.
pub(crate) fn test_plain(relation: &[u8], number: &[u8]) -> Result<WordTest, LineFault>
    ensures { result ≡ test_plain relation.now number.now }
{
    if relation == b"is".as_slice() {
        let fault = LineFault::at(4, LineFaultKind::Number);
        return Ok(WordTest::Is(number_claimed(number).ok_or(fault)?));
    }
    compared_by(order_of(false, number), relation, number)
}

/// `above NUMBER signed` or `below NUMBER signed`.
pub(crate) fn test_signed(
    relation: &[u8],
    number: &[u8],
    sign: &[u8],
) -> Result<WordTest, LineFault>
    ensures { result ≡ test_signed relation.now number.now sign.now }
{
    if sign == b"signed".as_slice() {
        return compared_by(order_of(true, number), relation, number);
    }
    Err(LineFault::at(5, CLAIM))
}

/// `above` or `below` a number, of those that are compared.
fn compared_by(order: NumberOrder, relation: &[u8], number: &[u8]) -> Result<WordTest, LineFault>
    ensures { result ≡ compared_by order relation.now number.now }
{
    if relation == b"above".as_slice() {
        return above_of(order, number_compared(order, number));
    }
    if relation == b"below".as_slice() {
        return below_of(order, number_compared(order, number));
    }
    Err(LineFault::at(3, CLAIM))
}

fn above_of(order: NumberOrder, number: Option<u64>) -> Result<WordTest, LineFault>
    ensures { result ≡ above_of order number }
{
    let number = number.ok_or(LineFault::at(4, LineFaultKind::Number))?;
    if number == greatest(order) {
        return Err(LineFault::at(4, LineFaultKind::Beyond));
    }
    Ok(WordTest::Above(number, order))
}

fn below_of(order: NumberOrder, number: Option<u64>) -> Result<WordTest, LineFault>
    ensures { result ≡ below_of order number }
{
    let number = number.ok_or(LineFault::at(4, LineFaultKind::Number))?;
    if number == least(order) {
        return Err(LineFault::at(4, LineFaultKind::Beyond));
    }
    Ok(WordTest::Below(number, order))
}

/// The 64 bits of the greatest number.
fn greatest(order: NumberOrder) -> u64
    ensures { result ≡ greatest order }
{
    match order {
        NumberOrder::Unsigned => u64::MAX,
        NumberOrder::Signed => LEAST_SIGNED - 1,
    }
}

/// The 64 bits of the least number.
fn least(order: NumberOrder) -> u64
    ensures { result ≡ least order }
{
    match order {
        NumberOrder::Unsigned => 0,
        NumberOrder::Signed => LEAST_SIGNED,
    }
}

/// A number from -2^63 to 2^64 - 1, as 64 bits; it may have a plus in front.
#[tactic(auto, unfolding(crate::specs::ClaimLines::number_claimed))]
fn number_claimed(text: &[u8]) -> Option<u64>
    ensures { result ≡ number_claimed text.now }
{
    match text {
        [b'+', digits @ ..] => number_to(u64::MAX, digits),
        _ => value_named(text),
    }
}

/// As what a number is compared: with a sign where it has one, or where `signed` follows it.
#[tactic(auto, unfolding(crate::specs::ClaimLines::order_of))]
fn order_of(is_signed: bool, text: &[u8]) -> NumberOrder
    ensures { result ≡ order_of is_signed text.now }
{
    match text {
        [b'+' | b'-', ..] => NumberOrder::Signed,
        _ if is_signed => NumberOrder::Signed,
        _ => NumberOrder::Unsigned,
    }
}

/// A number of those that are compared so.
fn number_compared(order: NumberOrder, text: &[u8]) -> Option<u64>
    ensures { result ≡ number_compared order text.now }
{
    let number = number_claimed(text)?;
    in_order(order, has_minus(text), number)
}

fn has_minus(text: &[u8]) -> bool
    ensures { result ≡ (slice_index text.now 0 == 45) }
{
    match text {
        [b'-', ..] => true,
        _ => false,
    }
}

/// A number, unless it is compared with a sign, has no minus, and is past 2^63 - 1.
fn in_order(order: NumberOrder, has_minus: bool, number: u64) -> Option<u64>
    ensures { result ≡ in_order order has_minus number }
{
    match order {
        NumberOrder::Unsigned => Some(number),
        NumberOrder::Signed => {
            if has_minus || number < LEAST_SIGNED {
                Some(number)
            } else {
                None
            }
        }
    }
}
