//! References of a program, and the words of memory that they reach.

use crate::held_registers::{held_at, results_of};
use crate::program::ProgramWords;
use crate::registers::KnownRegister;
use insn_word::{Access, ControlOp, Insn, MPart, MemoryOp};
use std::alloc::{AllocError, Global};
use tag_memory::{AccessControl, Pointer};

/// The bits of a pointer's address.
const ADDRESS: u64 = 0xFFFF_FFFF_FFFF;

/// The bits 48 to 58 of a pointer, which are 0 in each that a reference may use, as bits of its high half.
const RESERVED: u64 = 0x07FF_0000;

/// A reference of a word of the program that streams may come to.
#[derive(Clone, Copy)]
pub(crate) struct ProgramReference {
    /// The word of the program.
    pub(crate) place: usize,
    /// What it does.
    pub(crate) part: MPart,
    /// What is known of its base.
    pub(crate) base: KnownRegister,
    /// Whether its word has CREATE, which may trap before the memory is asked.
    pub(crate) starts: bool,
}

impl ProgramReference {
    /// Its address, where it is known.
    pub(crate) fn address(&self) -> Option<u64> {
        let base = self.base.value()?;
        Some(base.wrapping_add(self.displacement()) & ADDRESS)
    }

    /// How many bytes its displacement is, modulo 2^64.
    fn displacement(&self) -> u64 {
        i64::from(self.part.disp).wrapping_mul(8).cast_unsigned()
    }

    /// Whether its displacement leads from its base to before the memory.
    pub(crate) fn is_before_memory(&self) -> bool {
        match self.base.value() {
            Some(base) => {
                let address = base & ADDRESS;
                self.part.disp < 0 && address.wrapping_add(self.displacement()) > address
            }
            None => false,
        }
    }

    /// Its pointer but for the low half of the address; None where that is not known.
    fn high_pointer(&self) -> Option<Pointer> {
        Some(Pointer::new(self.base.high? << 32))
    }

    /// The control that its pointer carries, where it is known.
    pub(crate) fn control(&self) -> Option<AccessControl> {
        Some(self.high_pointer()?.control())
    }

    /// Whether no reference may use its pointer, so that it traps.
    pub(crate) fn is_refused(&self) -> bool {
        match self.high_pointer() {
            Some(pointer) => pointer.is_reserved(),
            None => false,
        }
    }

    /// Whether bits of its pointer are set that none may have, whatever its control.
    pub(crate) fn has_reserved_bits(&self) -> bool {
        match self.base.high {
            Some(high) => high & RESERVED != 0,
            None => false,
        }
    }

    /// Whether its pointer says its access.
    pub(crate) fn obeys_pointer(&self) -> bool {
        match self.part.op {
            MemoryOp::Load | MemoryOp::Store | MemoryOp::FetchAdd => {
                self.part.acc == Access::FromPointer
            }
            MemoryOp::Nop | MemoryOp::TagGet | MemoryOp::TagSet | MemoryOp::Purge => false,
        }
    }

    /// Its access, the pointer's where that says it; None where it is not known.
    pub(crate) fn access(&self) -> Option<Access> {
        match self.part.acc {
            Access::FromPointer => Some(match self.control()? {
                AccessControl::Normal => Access::Normal,
                AccessControl::Future => Access::Future,
                AccessControl::Sync => Access::Sync,
            }),
            access => Some(access),
        }
    }

    /// Whether it may fill a word.
    pub(crate) fn may_fill(&self) -> bool {
        match self.part.op {
            MemoryOp::Store => self.access() != Some(Access::Future),
            MemoryOp::FetchAdd => match self.access() {
                Some(Access::Normal) | None => true,
                Some(_) => false,
            },
            MemoryOp::TagSet => true,
            MemoryOp::Nop | MemoryOp::Load | MemoryOp::TagGet | MemoryOp::Purge => false,
        }
    }

    /// Whether it may empty a word.
    pub(crate) fn may_empty(&self) -> bool {
        match self.part.op {
            MemoryOp::Load => match self.access() {
                Some(Access::Sync) | None => true,
                Some(_) => false,
            },
            MemoryOp::TagSet | MemoryOp::Purge => true,
            MemoryOp::Nop | MemoryOp::Store | MemoryOp::FetchAdd | MemoryOp::TagGet => false,
        }
    }

    /// Whether it waits until its word is full, or is empty; None where it does not wait, or traps before it would.
    pub(crate) fn waits_for(&self) -> Option<bool> {
        if self.is_refused() || self.starts {
            return None;
        }
        match (self.part.op, self.access()?) {
            (MemoryOp::Store, Access::Sync) => Some(false),
            (
                MemoryOp::Load | MemoryOp::Store | MemoryOp::FetchAdd,
                Access::Future | Access::Sync,
            ) => Some(true),
            _ => None,
        }
    }

    /// The data word at its address, of so many, where that is known and there is one.
    pub(crate) fn cell(&self, cells: usize) -> Option<usize> {
        let address = self.address()?;
        let cell = (address / 8) as usize;
        if address % 8 == 0 && cell < cells {
            Some(cell)
        } else {
            None
        }
    }
}

/// The references of the words that streams may come to, with what their bases hold on every path.
pub(crate) fn references_of(
    alloc: Global,
    program: &ProgramWords,
) -> Result<Vec<ProgramReference>, AllocError> {
    let mut found = reached_references(alloc, program)?;
    let results = results_of(alloc, program)?;
    for register in 1..32u8 {
        if !found
            .iter()
            .any(|reference| reference.part.base == register)
        {
            continue;
        }
        let held = held_at(alloc, program, &results, register)?;
        for reference in found.iter_mut() {
            match held.get(reference.place) {
                Some(known) if reference.part.base == register => reference.base = *known,
                _ => {}
            }
        }
    }
    Ok(found)
}

/// The references of the words that streams may come to; nothing is known of their bases, but of r0.
fn reached_references(
    alloc: Global,
    program: &ProgramWords,
) -> Result<Vec<ProgramReference>, AllocError> {
    let mut found = Vec::new(alloc);
    for place in 0..program.insns.len() {
        if let Some(Insn::Normal { m, c, .. }) = program.insn(place) {
            if m.op != MemoryOp::Nop && program.is_reached(place) {
                found.push(ProgramReference {
                    place,
                    part: m,
                    base: if m.base == 0 {
                        KnownRegister::ZERO
                    } else {
                        KnownRegister::NOTHING
                    },
                    starts: c.op == ControlOp::Create,
                })?;
            }
        }
    }
    Ok(found)
}
