//! Where the data words of a text stand in memory.

use crate::lines::CountedLines;
use crate::reader::{Reader, SourceFacts};
use crate::text_notes::MAX_CELLS;
use asm_line::Item;
use std::alloc::{AllocError, Global};

/// A line that adds data words: its number, from 0, and the first of them.
#[derive(Clone, Copy)]
struct DataStart {
    number: usize,
    first: usize,
}

/// The lines of a text that add data words, in their order. One that adds more than a memory has room for is not among
/// them.
#[derive(Drop)]
pub(crate) struct DataLines {
    lines: Vec<DataStart>,
}

impl DataLines {
    /// Of this text.
    pub(crate) fn of<'t>(
        alloc: Global,
        source: &SourceFacts<'t>,
        text: &'t [u8],
    ) -> Result<DataLines, AllocError> {
        let mut lines = Vec::new(alloc);
        let mut first = 0usize;
        for line in CountedLines::of(text) {
            let number = line.text.number;
            if let Ok(Item::Cells { count, .. }) = Reader::at(source, line).own_item() {
                let next = first.saturating_add(count as usize);
                if next <= MAX_CELLS {
                    lines.push(DataStart { number, first })?;
                    first = next;
                }
            }
        }
        Ok(DataLines { lines })
    }

    /// The address of the first data word that the line of this number adds, if it adds any.
    pub(crate) fn address(&self, number: usize) -> Option<usize> {
        let found = self
            .lines
            .binary_search_by_key(&number, |line| line.number)
            .ok()?;
        let line = self.lines.get(found)?;
        Some(line.first.saturating_mul(8))
    }
}
