//! What a status word says ("Status words", docs/MACHINE.md).

use std::alloc::{AllocError, Global};

/// The letters of a condition code, from its lowest bit on.
const LETTERS: [&str; 4] = ["Z", "N", "C", "V"];

/// The traps that the bits of the mask disable, from the lowest one on.
const MASKED: [&str; 3] = ["TRAP0 ", "TRAP1 ", "BLOCKED "];

/// The lowest bit of the condition codes; the newest one has the lowest four.
const CODES: u32 = 32;

/// The lowest bit of the trap mask.
const MASK: u32 = 48;

/// The bit that says whether the stream is in a trap.
const IN_TRAP: u32 = 56;

/// The bits that a status word has.
const KNOWN: u64 = 0x0107_FFFF_FFFF_FFFF;

/// What the status word with these digits says; None if these are no hexadecimal digits of 64 bits.
pub(crate) fn status_description(
    alloc: Global,
    digits: &str,
) -> Result<Option<String>, AllocError> {
    let digits = digits.strip_prefix("0x").unwrap_or(digits);
    let Ok(value) = u64::from_str_radix(digits, 16) else {
        return Ok(None);
    };
    let pc = value & 0xFFFF_FFFF;
    let mut out = format!(in alloc; "status word {value:016X}\npc          {pc}\ncodes      ")?;
    for place in 0..4u32 {
        out.push_str(" ")?;
        push_letters(&mut out, &LETTERS, value >> (CODES + 4 * place), "-")?;
    }
    out.push_str("\nmask        ")?;
    push_letters(&mut out, &MASKED, value >> MASK, "none")?;
    let is_masked = (value >> MASK) & 7 > 0;
    out.push_str(if is_masked { "disabled" } else { "" })?;
    let is_in_trap = (value >> IN_TRAP) & 1 > 0;
    out.push_str("\nin trap     ")?;
    out.push_str(if is_in_trap { "yes\n" } else { "no\n" })?;
    if value & !KNOWN > 0 {
        out.push_str("It has bits that no status word has.\n")?;
    }
    Ok(Some(out))
}

/// Adds the names of the bits that are set, from the lowest one on; or this text if none is.
fn push_letters(out: &mut String, names: &[&str], bits: u64, none: &str) -> Result<(), AllocError> {
    let mut rest = bits;
    let mut is_any = false;
    for name in names {
        if rest & 1 > 0 {
            out.push_str(name)?;
            is_any = true;
        }
        rest >>= 1;
    }
    out.push_str(if is_any { "" } else { none })
}
