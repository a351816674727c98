//! Which data words of a memory may turn, from full to empty or back.

use crate::references::ProgramReference;
use std::alloc::{AllocError, Global};

/// Which words of memory may be filled and which emptied.
#[derive(Drop)]
pub(crate) struct FullBitChanges {
    filled: Vec<bool>,
    emptied: Vec<bool>,
    fills_any: bool,
    empties_any: bool,
}

impl FullBitChanges {
    /// By these references, of so many words.
    pub(crate) fn of(
        alloc: Global,
        references: &[ProgramReference],
        cells: usize,
    ) -> Result<FullBitChanges, AllocError> {
        let mut turns = FullBitChanges {
            filled: vec![in alloc; false; cells]?,
            emptied: vec![in alloc; false; cells]?,
            fills_any: false,
            empties_any: false,
        };
        for reference in references {
            turns.see(reference);
        }
        Ok(turns)
    }

    /// Takes what a reference may do.
    fn see(&mut self, reference: &ProgramReference) {
        let (fills, empties) = (reference.may_fill(), reference.may_empty());
        match reference.address() {
            Some(address) => {
                let cell = (address / 8) as usize;
                if fills && cell < self.filled.len() {
                    self.filled[cell] = true;
                }
                if empties && cell < self.emptied.len() {
                    self.emptied[cell] = true;
                }
            }
            None => {
                self.fills_any |= fills;
                self.empties_any |= empties;
            }
        }
    }

    /// Whether a word may be emptied, if it begins full, or else filled.
    pub(crate) fn may_turn(&self, cell: usize, is_full: bool) -> bool {
        if is_full {
            self.empties_any || self.emptied.get(cell).copied().unwrap_or(true)
        } else {
            self.fills_any || self.filled.get(cell).copied().unwrap_or(true)
        }
    }
}
