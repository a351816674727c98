//! The lines of standard input, each before the next is read.

use printed_lines::parts::LabFault;
use std::alloc::Global;
use std::io::Read;
use std::str;

/// The bytes that one read asks for.
const CHUNK: usize = 4096;

/// The longest line that is taken, without its end.
pub(crate) const LINE_LIMIT: usize = 65_536;

/// What stands next in the input.
#[derive(Drop)]
pub(crate) enum NextLine {
    /// A line, without its end.
    Text(String),
    /// A line whose bytes are not UTF-8, of this number, from 1.
    NotText(u64),
    /// A line of more than [`LINE_LIMIT`] bytes, of which nothing is kept.
    TooLong,
    /// The end.
    End,
}

/// What was read and not yet taken.
#[derive(Drop)]
pub(crate) struct InputLines {
    rest: Vec<u8>,
    first: usize,
    /// How many lines were taken.
    taken: u64,
}

impl InputLines {
    /// Nothing was read.
    pub(crate) fn new(alloc: Global) -> InputLines {
        InputLines {
            rest: Vec::new(alloc),
            first: 0,
            taken: 0,
        }
    }

    /// The next line. It is read to its end, also where it is too long.
    pub(crate) fn next<R: Read>(
        &mut self,
        alloc: Global,
        input: &mut R,
    ) -> Result<NextLine, LabFault> {
        let mut is_too_long = false;
        for _ in 0..u64::MAX {
            if let Some(length) = self.waiting().iter().position(|byte| *byte == b'\n') {
                return self.take(alloc, length, is_too_long);
            }
            let length = self.waiting().len();
            if length > LINE_LIMIT {
                is_too_long = true;
                self.first = self.rest.len();
            } else if !self.read_more(alloc, input)? {
                return if length > 0 || is_too_long {
                    self.take(alloc, length, is_too_long)
                } else {
                    Ok(NextLine::End)
                };
            }
        }
        Ok(NextLine::End)
    }

    /// Takes a line of so many bytes of those that wait, and its end.
    fn take(
        &mut self,
        alloc: Global,
        length: usize,
        is_too_long: bool,
    ) -> Result<NextLine, LabFault> {
        self.taken = self.taken.saturating_add(1);
        let line = if is_too_long || length > LINE_LIMIT {
            NextLine::TooLong
        } else {
            let bytes = self.waiting().get(..length).unwrap_or(b"");
            line_of(alloc, bytes, self.taken)?
        };
        self.first = self.first.saturating_add(length).saturating_add(1);
        Ok(line)
    }

    /// What was read and not yet taken.
    fn waiting(&self) -> &[u8] {
        self.rest.get(self.first..).unwrap_or(b"")
    }

    /// Reads once, and says whether there was anything. What was taken is let go before.
    fn read_more<R: Read>(&mut self, alloc: Global, input: &mut R) -> Result<bool, LabFault> {
        let mut chunk = [0u8; CHUNK];
        let count = match input.read(&mut chunk) {
            Ok(count) => count,
            Err(error) => {
                return Err(LabFault::Words(format!(in alloc; "-: read failed: {error}")?));
            }
        };
        let mut rest = Vec::from_slice(alloc, self.waiting())?;
        rest.extend_from_slice(chunk.get(..count).unwrap_or(b""))?;
        self.rest = rest;
        self.first = 0;
        Ok(count > 0)
    }
}

/// The line of this number that has these bytes.
fn line_of(alloc: Global, bytes: &[u8], number: u64) -> Result<NextLine, LabFault> {
    match str::from_utf8(bytes) {
        Ok(text) => Ok(NextLine::Text(String::from_str(alloc, text)?)),
        Err(_) => Ok(NextLine::NotText(number)),
    }
}
