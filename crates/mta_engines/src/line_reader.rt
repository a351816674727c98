//! The lines of a reader, one after another.
ghost use Rattle.std.specs.Prelude.{◌≡◌, [], true, false, IfOk, IfErr};
ghost use Rattle.mta_engines.specs.Input.{input_limit};
ghost use Rattle.mta_engines.specs.LineReading.{ahead, bytes_left, Ends, IsNextLine, IsBrokenOff};

use crate::byte_reader::ByteReader;
use crate::line_start::LineStart;
use crate::tool_fault::ToolFault;
use std::alloc::{AllocError, Global};
use std::io::Read;

/// Reads the lines of a reader, and keeps the first bytes of the last one.
///
/// The reader itself is passed to each call. A line is read only when it is asked for.
#[derive(Drop)]
pub(crate) struct LineReader {
    pub(crate) bytes: ByteReader,
    pub(crate) line: LineStart,
}

impl LineReader {
    /// Before the first line.
    pub(crate) fn new(alloc: Global) -> Result<LineReader, AllocError>
        ensures empty { IfOk result (λ lines. ahead lines.bytes ≡ []) }
        ensures room { IfOk result (λ lines. bytes_left lines.bytes ≡ input_limit) }
        ensures not_at_end { IfOk result (λ lines. lines.bytes.window.at_end ≡ false) }
    {
        Ok(LineReader {
            bytes: ByteReader::new(),
            line: LineStart::new(alloc)?,
        })
    }

    /// The last line, without its line feed: of a line of more than 257 bytes the first 257.
    pub(crate) fn line(&self) -> &[u8]
        ensures { result.now ≡ self.now.line.bytes.items }
    {
        &self.line.bytes
    }

    /// Reads the next line, and says whether there is one: at the end of the reader, what stands after the last line
    /// feed is a line where it has bytes. `Read` where a read failed or was interrupted, `TooLarge` where the line does
    /// not end within the bytes that a reader may have.
    pub(crate) fn next<R: Read>(&mut self, reader: &mut R) -> Result<bool, ToolFault>
        ensures line { result ≡ Ok true
            → IsNextLine self.old.bytes (R.remaining reader.old) self.new.bytes (R.remaining reader.new)
            self.new.line.bytes.items }
        ensures end { result ≡ Ok false
            → Ends self.old.bytes (R.remaining reader.old) self.new.bytes (R.remaining reader.new) }
        ensures fault { IfErr result
            (IsBrokenOff self.old.bytes (R.remaining reader.old) (R.remaining reader.new)) }
    {
        self.line.clear();
        loop {
            match self.bytes.next(reader)? {
                None => return Ok(!self.line.bytes.is_empty()),
                Some(b'\n') => return Ok(true),
                Some(byte) => self.line.push(byte),
            }
        }
    }
}
