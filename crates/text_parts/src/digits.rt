//! Numbers as digits of a fixed width, and in columns.

ghost use Rattle.std.specs.Prelude.{◌≡◌, ◌%◌, ◌≤◌, length, true};
ghost use Rattle.std.specs.Fmt.{decimal, digit_glyph};
ghost use Rattle.text_parts.specs.Columns.{right_aligned};
ghost use Rattle.text_parts.specs.Digits.{fixed_digits};
ghost use Rattle.text_parts.specs.Text.{IsText};

use itoa::write_digits;
use std::str::from_utf8_unchecked;

/// The hexadecimal digits, each in the place that it says.
const GLYPHS: [u8; 16] = *b"0123456789ABCDEF";

/// The last `COUNT` hexadecimal digits of a number: upper case, the most significant first, zeros in front.
#[tactic(auto, using(crate::proofs::Filled::none_filled))]
pub(crate) fn hexadecimal_digits<const COUNT: usize>(number: u64) -> [u8; COUNT]
    ensures { result ≡ fixed_digits 16 COUNT number }
{
    let mut digits = [b'0'; COUNT];
    let mut rest = number;
    let mut place = COUNT;
    while place > 0 {
        place -= 1;
        digits[place] = last_hexadecimal_digit(rest);
        rest /= 16;
    }
    digits
}

/// The last `COUNT` decimal digits of a number: the most significant first, zeros in front.
#[tactic(auto, using(crate::proofs::Filled::none_filled))]
pub(crate) fn decimal_digits<const COUNT: usize>(number: u64) -> [u8; COUNT]
    ensures { result ≡ fixed_digits 10 COUNT number }
{
    let mut digits = [b'0'; COUNT];
    let mut rest = number;
    let mut place = COUNT;
    while place > 0 {
        place -= 1;
        digits[place] = last_decimal_digit(rest);
        rest /= 10;
    }
    digits
}

#[tactic(auto, using(crate::proofs::Filled::glyph_at))]
fn last_hexadecimal_digit(number: u64) -> u8
    ensures { result ≡ digit_glyph true (number % 16) }
{
    GLYPHS[(number % 16) as usize]
}

fn last_decimal_digit(number: u64) -> u8
    ensures { result ≡ digit_glyph true (number % 10) }
{
    b'0' + (number % 10) as u8
}

/// A number in decimal with blanks in front, in `WIDTH` places, of which it does not need more.
#[tactic(auto, using(crate::proofs::Column::column_filled))]
pub(crate) fn column<const WIDTH: usize>(number: u64) -> [u8; WIDTH]
    requires { length (decimal number) ≤ WIDTH }
    ensures { result ≡ right_aligned WIDTH number }
{
    let mut column = [b' '; WIDTH];
    write_digits(number, &mut column, WIDTH);
    column
}

/// Bytes as the text that they are.
pub(crate) fn text_of(bytes: &[u8]) -> &str
    requires { IsText bytes.now }
    ensures { result.now ≡ bytes.now }
{
    // what is required is proved of each caller's digits, so nothing tests them when the program runs
    unsafe { from_utf8_unchecked(bytes) }
}
