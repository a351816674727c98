//! Numbers at the end of a short line, which is composed before it is appended to a text.

ghost use Rattle.std.specs.Prelude.{◌≡◌, ◌+◌, ◌≤◌, ◌++◌};
ghost use Rattle.std.specs.Fmt.{decimal};
ghost use Rattle.arrayvec.specs.ArrayString.{array_string_len};
ghost use Rattle.text_parts.specs.Columns.{right_aligned};
ghost use Rattle.text_parts.specs.Digits.{fixed_digits, two_digits, five_digits};

use crate::digits::{column, decimal_digits, hexadecimal_digits, text_of};
use arrayvec::ArrayString;
use itoa::Buffer;

/// Appends the last `COUNT` hexadecimal digits of a number, at most 16: upper case, zeros in front. There must be
/// room for them.
#[tactic(auto, using(crate::proofs::Filled::hexadecimal_text))]
pub fn add_hexadecimal<const COUNT: usize, const ROOM: usize>(
    line: &mut ArrayString<ROOM>,
    number: u64,
)
    requires few { COUNT ≤ 16 }
    requires room { array_string_len line.old + COUNT ≤ ROOM }
    ensures bytes { line.new.bytes ≡ line.old.bytes ++ fixed_digits 16 COUNT number }
    ensures len { array_string_len line.new ≡ array_string_len line.old + COUNT }
{
    let digits = hexadecimal_digits::<COUNT>(number);
    line.push_str(text_of(&digits));
}

/// Appends the last two decimal digits of a number: a number below 100, with a zero in front where it is below 10.
/// There must be room for them.
#[tactic(auto, using(crate::proofs::Filled::decimal_text))]
pub fn add_two_digits<const ROOM: usize>(line: &mut ArrayString<ROOM>, number: u8)
    requires { array_string_len line.old + 2 ≤ ROOM }
    ensures bytes { line.new.bytes ≡ line.old.bytes ++ two_digits number }
    ensures len { array_string_len line.new ≡ array_string_len line.old + 2 }
{
    let digits = decimal_digits::<2>(u64::from(number));
    line.push_str(text_of(&digits));
}

/// Appends a number of 16 bits as five decimal digits, zeros in front. There must be room for them.
#[tactic(auto, using(crate::proofs::Filled::decimal_text))]
pub fn add_five_digits<const ROOM: usize>(line: &mut ArrayString<ROOM>, number: u16)
    requires { array_string_len line.old + 5 ≤ ROOM }
    ensures bytes { line.new.bytes ≡ line.old.bytes ++ five_digits number }
    ensures len { array_string_len line.new ≡ array_string_len line.old + 5 }
{
    let digits = decimal_digits::<5>(u64::from(number));
    line.push_str(text_of(&digits));
}

/// Appends a number below 256 in decimal with blanks in front, in 3 places. There must be room for them.
#[tactic(auto, using(crate::proofs::Column::is_text, crate::proofs::Column::short_3))]
pub fn add_right_aligned_3<const ROOM: usize>(line: &mut ArrayString<ROOM>, number: u8)
    requires { array_string_len line.old + 3 ≤ ROOM }
    ensures bytes { line.new.bytes ≡ line.old.bytes ++ right_aligned 3 number }
    ensures len { array_string_len line.new ≡ array_string_len line.old + 3 }
{
    let column = column::<3>(u64::from(number));
    line.push_str(text_of(&column));
}

/// Appends a number in decimal with blanks in front, in 7 places; one that needs more stands whole. There must be
/// room for 20, the most that a number needs.
#[tactic(auto, using(crate::proofs::Column::is_text, crate::proofs::Column::short_7, crate::proofs::Column::whole_7))]
pub fn add_right_aligned_7<const ROOM: usize>(line: &mut ArrayString<ROOM>, number: u64)
    requires { array_string_len line.old + 20 ≤ ROOM }
    ensures bytes { line.new.bytes ≡ line.old.bytes ++ right_aligned 7 number }
    ensures len { array_string_len line.new ≤ array_string_len line.old + 20 }
{
    if number < 10_000_000 {
        let column = column::<7>(number);
        line.push_str(text_of(&column));
    } else {
        let mut buffer = Buffer::new();
        line.push_str(buffer.format(number));
    }
}

/// Appends a number of 32 bits in decimal. There must be room for 10 digits, the most that it has.
#[tactic(auto, using(crate::proofs::Column::one_digit, crate::proofs::Filled::decimal_text))]
pub fn add_decimal<const ROOM: usize>(line: &mut ArrayString<ROOM>, number: u32)
    requires { array_string_len line.old + 10 ≤ ROOM }
    ensures bytes { line.new.bytes ≡ line.old.bytes ++ decimal number }
    ensures len { array_string_len line.new ≤ array_string_len line.old + 10 }
{
    if number < 10 {
        let digit = decimal_digits::<1>(u64::from(number));
        line.push_str(text_of(&digit));
    } else {
        let mut buffer = Buffer::new();
        line.push_str(buffer.format(number));
    }
}
