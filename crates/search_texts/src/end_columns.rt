//! The columns of lists of ends: how many they are, of which kind, how they are reached, and what they leave.

use crate::widths::digits_of;
use std::alloc::AllocError;

/// The name of the second column.
const KIND: &str = "end";

/// The name of the last column.
const LEAVES: &str = "what it leaves";

/// The widths of the columns, and the names of two of them.
#[derive(Clone, Copy, Debug)]
pub struct EndColumns {
    /// What is counted.
    counted: &'static str,
    /// How an end is reached.
    reached: &'static str,
    count_width: usize,
    kind_width: usize,
    reached_width: usize,
}

/// The cells of an end but for the last.
#[derive(Clone, Copy, Debug)]
pub struct EndCells<'a> {
    /// How many they are.
    pub count: usize,
    /// Their kind.
    pub kind: &'a str,
    /// How they are reached.
    pub reached: &'a str,
}

impl EndColumns {
    /// Columns with these names, as wide as the names are.
    pub fn named(counted: &'static str, reached: &'static str) -> EndColumns {
        EndColumns {
            counted,
            reached,
            count_width: counted.len(),
            kind_width: KIND.len(),
            reached_width: reached.len(),
        }
    }

    /// Makes the columns as wide as these cells need.
    pub fn widen(&mut self, cells: EndCells<'_>) {
        self.count_width = self.count_width.max(digits_of(cells.count));
        self.kind_width = self.kind_width.max(cells.kind.len());
        self.reached_width = self.reached_width.max(cells.reached.len());
    }

    /// Adds the line of the names.
    pub fn push_names(self, out: &mut String) -> Result<(), AllocError> {
        let counted = self.counted;
        let width = self.count_width;
        write!(out, "{counted:>width$}  ")?;
        push_cell(out, KIND, self.kind_width)?;
        push_cell(out, self.reached, self.reached_width.saturating_add(1))?;
        out.push_str(LEAVES)?;
        out.push_str("\n")
    }

    /// Adds the cells of an end, after which the last cell may follow, up to [`end_line`].
    pub fn push_cells(self, out: &mut String, cells: EndCells<'_>) -> Result<(), AllocError> {
        let count = cells.count;
        let width = self.count_width;
        write!(out, "{count:>width$}  ")?;
        push_cell(out, cells.kind, self.kind_width)?;
        push_cell(out, cells.reached, self.reached_width.saturating_add(1))
    }

    /// Adds a line below that of an end, unless it is empty.
    pub fn push_note(self, out: &mut String, note: &str) -> Result<(), AllocError> {
        if note.is_empty() {
            return Ok(());
        }
        let width = self.count_width;
        write!(out, "{:>width$}  {note}\n", "")
    }
}

/// Adds a cell, and blanks up to the next column.
fn push_cell(out: &mut String, text: &str, width: usize) -> Result<(), AllocError> {
    out.push_str(text)?;
    for _ in text.len()..width.saturating_add(2) {
        out.push_str(" ")?;
    }
    Ok(())
}

/// Ends a line, without blanks at its end.
pub fn end_line(out: &mut String) -> Result<(), AllocError> {
    for _ in 0..out.len() {
        if !out.ends_with(' ') {
            break;
        }
        out.pop();
    }
    out.push_str("\n")
}
