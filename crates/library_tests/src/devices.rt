//! Readers and writers that fail.

use std::io;
use std::io::{Read, Write};

/// Gives one byte a read, and fails once, where so many reads went well: whoever tried again would read on.
#[derive(Drop)]
pub(crate) struct FailingReader<'a> {
    pub(crate) text: &'a [u8],
    pub(crate) reads: usize,
    pub(crate) kind: io::ErrorKind,
}

impl Read for FailingReader<'_> {
    fn read(&mut self, buf: &mut [u8]) -> io::Result<usize> {
        if self.reads == 0 {
            self.reads = usize::MAX;
            return Err(io::Error::from(self.kind));
        }
        self.reads -= 1;
        match (self.text, buf) {
            ([first, rest @ ..], [place, ..]) => {
                *place = *first;
                self.text = rest;
                Ok(1)
            }
            _ => Ok(0),
        }
    }
}

/// Takes seven bytes a write, and keeps them until it is flushed. Fails where so many calls went well, of which each
/// write and each flush is one: from then on, or where the call was interrupted that one time.
#[derive(Drop)]
pub(crate) struct FailingWriter {
    calls: usize,
    kind: io::ErrorKind,
    failed: bool,
    kept: usize,
    given: usize,
}

impl FailingWriter {
    pub(crate) fn new(calls: usize, kind: io::ErrorKind) -> FailingWriter {
        FailingWriter {
            calls,
            kind,
            failed: false,
            kept: 0,
            given: 0,
        }
    }

    /// How many bytes it gave away when it was flushed.
    pub(crate) fn given(&self) -> usize {
        self.given
    }

    fn call(&mut self) -> io::Result<()> {
        if self.calls > 0 {
            self.calls -= 1;
            return Ok(());
        }
        if self.failed && self.kind == io::ErrorKind::Interrupted {
            return Ok(());
        }
        self.failed = true;
        Err(io::Error::from(self.kind))
    }
}

impl Write for FailingWriter {
    fn write(&mut self, buf: &[u8]) -> io::Result<usize> {
        self.call()?;
        let count = buf.len().min(7);
        self.kept = self.kept.saturating_add(count);
        Ok(count)
    }

    fn flush(&mut self) -> io::Result<()> {
        self.call()?;
        self.given = self.given.saturating_add(self.kept);
        self.kept = 0;
        Ok(())
    }
}
