//! Numbers at the end of a text.

ghost use Rattle.std.specs.Prelude.{◌≡◌, ◌+◌, ◌<◌, ◌++◌, length, OnOk, OnErr, string_bytes};
ghost use Rattle.std.specs.String.{string_len, string_capacity};
ghost use Rattle.text_parts.specs.Columns.{right_aligned};
ghost use Rattle.text_parts.specs.Digits.{hexadecimal_16, hexadecimal_12, hexadecimal_8, hexadecimal_digit};
ghost use Rattle.text_parts.specs.Digits.{two_digits, five_digits};

use crate::digits::{decimal_digits, hexadecimal_digits, text_of};
use itoa::Buffer;
use std::alloc::AllocError;

/// Appends a word of 64 bits as 16 upper-case hexadecimal digits, zeros in front. It fails only where the
/// text has no room for them and memory is refused; the text then stays as it was.
#[tactic(auto, using(crate::proofs::Filled::hexadecimal_text))]
pub fn push_hexadecimal_16(text: &mut String, word: u64) -> Result<(), AllocError>
    ensures bytes { OnOk result (string_bytes text.new ≡ string_bytes text.old ++ hexadecimal_16 word) }
    ensures full { OnErr result (string_capacity text.old < string_len text.old + 16) }
    ensures kept { OnErr result (string_bytes text.new ≡ string_bytes text.old) }
{
    let digits = hexadecimal_digits::<16>(word);
    text.push_str(text_of(&digits))
}

/// Appends the low 48 bits of a word as 12 upper-case hexadecimal digits, zeros in front. It fails only where the
/// text has no room for them and memory is refused; the text then stays as it was.
#[tactic(auto, using(crate::proofs::Filled::hexadecimal_text))]
pub fn push_hexadecimal_12(text: &mut String, word: u64) -> Result<(), AllocError>
    ensures bytes { OnOk result (string_bytes text.new ≡ string_bytes text.old ++ hexadecimal_12 word) }
    ensures full { OnErr result (string_capacity text.old < string_len text.old + 12) }
    ensures kept { OnErr result (string_bytes text.new ≡ string_bytes text.old) }
{
    let digits = hexadecimal_digits::<12>(word);
    text.push_str(text_of(&digits))
}

/// Appends a number of 32 bits as 8 upper-case hexadecimal digits, zeros in front. It fails only where the
/// text has no room for them and memory is refused; the text then stays as it was.
#[tactic(auto, using(crate::proofs::Filled::hexadecimal_text))]
pub fn push_hexadecimal_8(text: &mut String, number: u32) -> Result<(), AllocError>
    ensures bytes { OnOk result (string_bytes text.new ≡ string_bytes text.old ++ hexadecimal_8 number) }
    ensures full { OnErr result (string_capacity text.old < string_len text.old + 8) }
    ensures kept { OnErr result (string_bytes text.new ≡ string_bytes text.old) }
{
    let digits = hexadecimal_digits::<8>(u64::from(number));
    text.push_str(text_of(&digits))
}

/// Appends the low 4 bits of a number as one upper-case hexadecimal digit. It fails only where the
/// text has no room for them and memory is refused; the text then stays as it was.
#[tactic(auto, using(crate::proofs::Filled::hexadecimal_text))]
pub fn push_hexadecimal_digit(text: &mut String, number: u8) -> Result<(), AllocError>
    ensures bytes { OnOk result (string_bytes text.new ≡ string_bytes text.old ++ hexadecimal_digit number) }
    ensures full { OnErr result (string_capacity text.old < string_len text.old + 1) }
    ensures kept { OnErr result (string_bytes text.new ≡ string_bytes text.old) }
{
    let digits = hexadecimal_digits::<1>(u64::from(number));
    text.push_str(text_of(&digits))
}

/// Appends the last two decimal digits of a number: a number below 100, with a zero in front where it is below 10. It
/// fails only where the text has no room for them and memory is refused; the text then stays as it was.
#[tactic(auto, using(crate::proofs::Filled::decimal_text))]
pub fn push_two_digits(text: &mut String, number: u8) -> Result<(), AllocError>
    ensures bytes { OnOk result (string_bytes text.new ≡ string_bytes text.old ++ two_digits number) }
    ensures full { OnErr result (string_capacity text.old < string_len text.old + 2) }
    ensures kept { OnErr result (string_bytes text.new ≡ string_bytes text.old) }
{
    let digits = decimal_digits::<2>(u64::from(number));
    text.push_str(text_of(&digits))
}

/// Appends a number of 16 bits as five decimal digits, zeros in front. It fails only where the
/// text has no room for them and memory is refused; the text then stays as it was.
#[tactic(auto, using(crate::proofs::Filled::decimal_text))]
pub fn push_five_digits(text: &mut String, number: u16) -> Result<(), AllocError>
    ensures bytes { OnOk result (string_bytes text.new ≡ string_bytes text.old ++ five_digits number) }
    ensures full { OnErr result (string_capacity text.old < string_len text.old + 5) }
    ensures kept { OnErr result (string_bytes text.new ≡ string_bytes text.old) }
{
    let digits = decimal_digits::<5>(u64::from(number));
    text.push_str(text_of(&digits))
}

/// Appends a number in decimal with blanks in front, in `WIDTH` places; one that needs more stands whole. It fails
/// only where the text has no room for them and memory is refused; the text then stays as it was.
pub fn push_right_aligned<const WIDTH: usize>(
    text: &mut String,
    number: u64,
) -> Result<(), AllocError>
    ensures bytes { OnOk result (string_bytes text.new ≡ string_bytes text.old ++ right_aligned WIDTH number) }
    ensures full { OnErr result
        (string_capacity text.old < string_len text.old + length (right_aligned WIDTH number)) }
    ensures kept { OnErr result (string_bytes text.new ≡ string_bytes text.old) }
{
    let mut buffer = Buffer::new();
    let digits = buffer.format(number);
    let blanks = WIDTH.saturating_sub(digits.len());
    text.reserve(blanks + digits.len())?;
    for _blank in 0..blanks {
        text.push(' ')?;
    }
    text.push_str(digits)
}
