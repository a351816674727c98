//! The lines of a text, by their numbers.

use std::alloc::{AllocError, Global};

/// A line of a text.
#[derive(Clone, Copy, Debug)]
pub(crate) struct DocumentLine<'t> {
    /// Its number, from 0.
    pub number: usize,
    /// How many bytes of the text stand before it.
    pub start: usize,
    /// Its bytes, without its end.
    pub bytes: &'t [u8],
    /// How many units of UTF-16 the client counts before these bytes: a byte order mark is one.
    pub mark: usize,
}

/// How many bytes of a text stand before each of its lines.
#[derive(Drop)]
pub(crate) struct LineStarts {
    starts: Vec<usize>,
    /// How many units of UTF-16 the client counts before the first line.
    mark: usize,
}

impl LineStarts {
    /// Those of a text, before whose first line the client has so many units of UTF-16.
    pub fn of(alloc: Global, text: &[u8], mark: usize) -> Result<LineStarts, AllocError> {
        let mut starts = Vec::new(alloc);
        let mut start: usize = 0;
        for line in text.split(|byte| *byte == b'\n') {
            starts.push(start)?;
            start = start.saturating_add(line.len()).saturating_add(1);
        }
        Ok(LineStarts { starts, mark })
    }

    /// The line of a number; None where the text has fewer.
    pub fn line<'t>(&self, text: &'t [u8], number: usize) -> Option<DocumentLine<'t>> {
        let start = *self.starts.get(number)?;
        let end = match self.starts.get(number.saturating_add(1)) {
            Some(next) => next.saturating_sub(1),
            None => text.len(),
        };
        Some(DocumentLine {
            number,
            start,
            bytes: text.get(start..end)?,
            mark: if number == 0 { self.mark } else { 0 },
        })
    }

    /// The line in which a place of the text is.
    pub fn line_with<'t>(&self, text: &'t [u8], place: usize) -> Option<DocumentLine<'t>> {
        let behind = self.starts.partition_point(|start| *start <= place);
        self.line(text, behind.saturating_sub(1))
    }
}
