//! Words of 64 bits, read from their 16 digits.

ghost use Rattle.std.specs.Prelude.{◌≡◌};
ghost use Rattle.text_parts.specs.Reading.{hexadecimal_word};

use crate::numbers::Base;

/// The number of digits of a word of 64 bits.
const DIGITS: usize = 16;

/// The word that 16 hexadecimal digits of either case say, and None for every other text:
/// there is no sign, no `0x` and no blank.
pub fn read_hexadecimal(digits: &[u8]) -> Option<u64>
    ensures { result ≡ hexadecimal_word digits.now }
{
    if digits.len() != DIGITS {
        return None;
    }
    let mut number = 0;
    for digit in digits {
        number = number * 16 + Base::Hexadecimal.value_of_digit(*digit)?;
    }
    Some(number)
}
