//! Addresses that are no word's, and pointers that no reference may use.

use crate::references::ProgramReference;
use crate::spots::{SlipKind, Slips};
use std::alloc::{AllocError, Global};

/// How many data words a memory has at most.
const MOST_CELLS: u64 = 262_144;

/// Warns of each reference whose pointer none may use.
pub(crate) fn warn_of_pointers(
    slips: &mut Slips,
    references: &[ProgramReference],
) -> Result<(), AllocError> {
    for reference in references {
        if reference.is_refused() && !slips.is_full() {
            warn_refused(slips, reference)?;
        }
    }
    Ok(())
}

fn warn_refused(slips: &mut Slips, reference: &ProgramReference) -> Result<(), AllocError> {
    let alloc = slips.alloc();
    let base = reference.part.base;
    let (why, help) = if reference.has_reserved_bits() {
        (
            "bits 48 to 58 are not all 0",
            "an address has 48 bits; LITH sets bits 32 to 63",
        )
    } else {
        (
            "control is 1",
            "the control, bits 59 and 60, is 0 for normal, 2 for future, 3 for sync",
        )
    };
    let words = format!(in alloc;
        "no reference may use the pointer in r{base}, whose {why}: the reference traps"
    )?;
    let help = String::from_str(alloc, help)?;
    slips.warn(SlipKind::NoDataWord, reference.place, words, help)
}

/// Warns of each reference whose address is known and is that of no word, of so many data words.
pub(crate) fn warn_of_addresses(
    slips: &mut Slips,
    references: &[ProgramReference],
    cells: usize,
) -> Result<(), AllocError> {
    let end = (cells as u64).saturating_mul(8);
    for reference in references {
        if reference.is_refused() || slips.is_full() {
            continue;
        }
        if let Some(address) = reference.address() {
            warn_of_address(slips, reference, address, end)?;
        }
    }
    Ok(())
}

/// Warns of an address that is not that of a word before an end.
fn warn_of_address(
    slips: &mut Slips,
    reference: &ProgramReference,
    address: u64,
    end: u64,
) -> Result<(), AllocError> {
    if address % 8 != 0 {
        warn_unaligned(slips, reference, address)
    } else if address < end {
        Ok(())
    } else if reference.is_before_memory() {
        warn_before(slips, reference)
    } else {
        warn_past(slips, reference, address, end)
    }
}

fn warn_unaligned(
    slips: &mut Slips,
    reference: &ProgramReference,
    address: u64,
) -> Result<(), AllocError> {
    let alloc = slips.alloc();
    let words = format!(in alloc;
        "the address here is {address}, no multiple of 8: the reference traps"
    )?;
    let help = if address < MOST_CELLS {
        let meant = address.saturating_mul(8);
        format!(in alloc; "an address counts bytes: data word number {address} is [{meant}]")?
    } else {
        String::from_str(
            alloc,
            "an address counts bytes: data words are [0], [8], [16] and so on",
        )?
    };
    slips.warn(SlipKind::NoDataWord, reference.place, words, help)
}

fn warn_before(slips: &mut Slips, reference: &ProgramReference) -> Result<(), AllocError> {
    let alloc = slips.alloc();
    let words = String::from_str(alloc, "the address here is below 0: the reference traps")?;
    let help = String::from_str(alloc, "the first data word is [0]")?;
    slips.warn(SlipKind::NoDataWord, reference.place, words, help)
}

fn warn_past(
    slips: &mut Slips,
    reference: &ProgramReference,
    address: u64,
    end: u64,
) -> Result<(), AllocError> {
    let alloc = slips.alloc();
    let last = end.saturating_sub(8);
    let words = format!(in alloc;
        "the address here is [{address}], and the last data word is [{last}]: the reference traps"
    )?;
    let help = past_help(alloc, reference, address)?;
    slips.warn(SlipKind::NoDataWord, reference.place, words, help)
}

/// How an address that is past the end may be mended.
fn past_help(
    alloc: Global,
    reference: &ProgramReference,
    address: u64,
) -> Result<String, AllocError> {
    let displacement = reference.part.disp;
    if address / 8 >= MOST_CELLS {
        return String::from_str(
            alloc,
            "a memory has at most 262144 data words: mend the address",
        );
    }
    if displacement > 0 {
        return format!(in alloc;
            "displacements count words: {displacement} is {} bytes",
            i32::from(displacement) * 8
        );
    }
    format!(in alloc; "add data words up to [{address}], or mend the address")
}
