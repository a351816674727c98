//! Values of the trap register and of condition codes.

use crate::page_lines::push_pages;
use std::alloc::{AllocError, Global};

/// The traps, from 1 on.
const TRAPS: [&str; 10] = ["1", "2", "3", "4", "5", "6", "7", "8", "9", "10"];

/// The letters of a condition code, and their numbers.
const LETTERS: [(char, u64); 4] = [('Z', 1), ('N', 2), ('C', 4), ('V', 8)];

/// The last of the traps that have no address: the trap register of one of them is its number.
const LAST_WITHOUT_ADDRESS: u64 = 3;

/// From which value on no trap register is: it has a number of 8 bits, and an address of 48.
const END_OF_REGISTERS: u64 = 1 << 56;

/// Whether a value is one that a trap with the number in its lowest 8 bits puts into the trap register ("Traps",
/// docs/MACHINE.md).
fn is_trap_value(value: u64) -> bool {
    let number = value & 0xFF;
    value < END_OF_REGISTERS && (number > LAST_WITHOUT_ADDRESS || value == number)
}

/// Adds what a value of the trap register says, where it is one.
pub(crate) fn push_trap_value(
    alloc: Global,
    out: &mut String,
    digits: &str,
) -> Result<(), AllocError> {
    let Ok(value) = u64::from_str_radix(digits, 16) else {
        return Ok(());
    };
    if !is_trap_value(value) {
        return Ok(());
    }
    let number = (value & 0xFF) as usize;
    let address = value >> 8;
    let Some(name) = TRAPS.get(number.wrapping_sub(1)) else {
        return Ok(());
    };
    let line = format!(in alloc; "XR 0x{value:X}: trap {name}, at address [{address}]\n\n")?;
    out.push_str(line.as_str())?;
    push_pages(out, name)
}

/// Adds what a condition code of several letters is, as ZC.
pub(crate) fn push_code(alloc: Global, out: &mut String, word: &str) -> Result<(), AllocError> {
    let mut code = 0u64;
    for letter in word.chars() {
        match number_of(letter) {
            Some(number) => code |= number,
            None => return Ok(()),
        }
    }
    let line = format!(in alloc; "{word} is the condition code {code:X} in hexadecimal.\n\n")?;
    out.push_str(line.as_str())?;
    push_pages(out, "Z")
}

/// The number of a letter of a condition code.
fn number_of(letter: char) -> Option<u64> {
    for (known, number) in LETTERS.iter() {
        if *known == letter.to_ascii_uppercase() {
            return Some(*number);
        }
    }
    None
}
