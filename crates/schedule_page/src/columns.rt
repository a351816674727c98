//! Numbers as text: each as equally many digits of base 64, so that number `i` begins at letter `width * i`.

use std::alloc::{AllocError, Global};

/// The digits, in their order. None means anything in JSON or in markup.
const DIGITS: &[u8; 64] = b"0123456789ABCDEFGHIJKLMNOPQRSTUVWXYZabcdefghijklmnopqrstuvwxyz-_";

/// Numbers as text.
#[derive(Drop)]
pub(crate) struct Column {
    /// How many digits each number has, 1 to 6: as many as the greatest needs.
    pub width: u32,
    /// The digits of all numbers, the highest of each first.
    pub text: String,
}

/// Numbers as text.
pub(crate) fn column_of(alloc: Global, numbers: &[u32]) -> Result<Column, AllocError> {
    let width = width_of(numbers);
    let mut text = String::new(alloc);
    for number in numbers {
        push_number(&mut text, *number, width)?;
    }
    Ok(Column { width, text })
}

/// How many digits the greatest of some numbers has, at least 1.
fn width_of(numbers: &[u32]) -> u32 {
    let mut width = 1;
    for number in numbers {
        width = digits_of(*number).max(width);
    }
    width
}

/// How many digits a number has, 1 to 6.
fn digits_of(number: u32) -> u32 {
    match number {
        0..=63 => 1,
        64..=4_095 => 2,
        4_096..=262_143 => 3,
        262_144..=16_777_215 => 4,
        16_777_216..=1_073_741_823 => 5,
        1_073_741_824..=4_294_967_295 => 6,
    }
}

/// Adds a number with so many digits.
fn push_number(text: &mut String, number: u32, width: u32) -> Result<(), AllocError> {
    for left in 0..width {
        let place = width - 1 - left;
        push_digit(text, digit_at(number, place))?;
    }
    Ok(())
}

/// The digit of a number at a place, counted from its lowest.
fn digit_at(number: u32, place: u32) -> u8 {
    match place {
        0..=5 => (number >> (6 * place) & 63) as u8,
        _ => 0,
    }
}

/// Adds a digit.
fn push_digit(text: &mut String, digit: u8) -> Result<(), AllocError> {
    let letter = DIGITS[usize::from(digit) % 64];
    text.push(char::from(letter))
}
