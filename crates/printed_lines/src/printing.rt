//! Finished lines for people, written to a standard stream.

use coloured_lines::coloured;
use command_parts::{LabFault, write_out};
use std::io::Write;

/// Where the lines of an answer are written before it is complete.
#[derive(Drop)]
pub struct Printer<'a, W> {
    /// Standard output.
    pub output: &'a mut W,
    /// Whether it gets lines with colours.
    pub is_coloured: bool,
}

impl<W: Write> Printer<'_, W> {
    /// Writes finished lines.
    pub fn print(&mut self, lines: &String) -> Result<(), LabFault> {
        write_lines(self.output, lines, self.is_coloured)
    }
}

/// Writes finished lines for people, with colours or without; without where memory for them is refused.
pub fn write_lines<W: Write>(
    writer: &mut W,
    lines: &String,
    is_coloured: bool,
) -> Result<(), LabFault> {
    if is_coloured {
        if let Ok(painted) = coloured(*lines.allocator(), lines.as_str()) {
            return write_out(writer, painted.as_bytes());
        }
    }
    write_out(writer, lines.as_bytes())
}
