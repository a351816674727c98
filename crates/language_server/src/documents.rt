//! The texts that are open.

use crate::line_starts::{DocumentLine, LineStarts};
use editor_texts::{byte_at, with_line_feeds};
use fault_messages::Message;
use language_messages::Position;
use source_checks::{SourceText, source_messages};
use source_comments::ascii_comments;
use std::alloc::{AllocError, Global};

/// How many texts may be open at once.
pub(crate) const MOST_DOCUMENTS: usize = 100;

/// What some editors put before a text.
const BYTE_ORDER_MARK: &[u8] = b"\xEF\xBB\xBF";

/// A text that is open.
#[derive(Drop)]
pub(crate) struct Document {
    /// What the client calls it.
    pub uri: String,
    /// The client's number of what it is now.
    pub version: Option<i64>,
    /// Its bytes, without the byte order mark that it may begin with. Each line ends with LF.
    pub text: Vec<u8>,
    /// Whether it begins with the mark.
    pub has_mark: bool,
    /// The same as the assembler reads it: a comment has a question mark for each byte that is not ASCII.
    pub ascii: Vec<u8>,
    /// What `check` says of it; None where it is not yet checked.
    pub messages: Option<Vec<Message>>,
    /// Whether its diagnostics are still to be sent.
    pub is_due: bool,
    starts: LineStarts,
}

/// A place of a text, on its line.
#[derive(Clone, Copy, Debug)]
pub(crate) struct LinePlace<'t> {
    /// The line, as the assembler reads it.
    pub line: DocumentLine<'t>,
    /// How many bytes of it stand before the place.
    pub column: usize,
}

impl Document {
    /// A text as a client has it.
    pub fn of(
        alloc: Global,
        uri: &str,
        version: Option<i64>,
        text: &str,
    ) -> Result<Document, AllocError> {
        let bytes = text.as_bytes();
        let has_mark = bytes.starts_with(BYTE_ORDER_MARK);
        let mark = if has_mark { 1 } else { 0 };
        let bytes = bytes.strip_prefix(BYTE_ORDER_MARK).unwrap_or(bytes);
        let text = with_line_feeds(alloc, bytes)?;
        let ascii = ascii_comments(alloc, &text)?;
        let starts = LineStarts::of(alloc, &text, mark)?;
        Ok(Document {
            uri: String::from_str(alloc, uri)?,
            version,
            text,
            has_mark,
            ascii,
            messages: None,
            is_due: true,
            starts,
        })
    }

    /// Its bytes, with the mark that it may begin with.
    pub fn as_written(&self, alloc: Global) -> Result<Vec<u8>, AllocError> {
        let mark: &[u8] = if self.has_mark { BYTE_ORDER_MARK } else { &[] };
        let mut bytes = Vec::from_slice(alloc, mark)?;
        bytes.extend_from_slice(&self.text)?;
        Ok(bytes)
    }

    /// What `check` says of the text.
    pub fn checked(&self, alloc: Global) -> Result<Vec<Message>, AllocError> {
        let bytes = self.as_written(alloc)?;
        source_messages(alloc, &SourceText::of(alloc, bytes)?)
    }

    /// A line by its number, from 0, as it was written.
    pub fn line(&self, number: usize) -> Option<DocumentLine<'_>> {
        self.starts.line(&self.text, number)
    }

    /// The line in which a place of the text is, as it was written.
    pub fn line_with(&self, place: usize) -> Option<DocumentLine<'_>> {
        self.starts.line_with(&self.text, place)
    }

    /// The place of a client's position; None if it is after the last line.
    pub fn place(&self, position: Position) -> Option<LinePlace<'_>> {
        let written = self.starts.line(&self.text, position.line)?;
        let line = self.starts.line(&self.ascii, position.line)?;
        Some(LinePlace {
            line,
            column: byte_at(
                written.bytes,
                position.character.saturating_sub(written.mark),
            ),
        })
    }
}

/// The texts that are open.
#[derive(Drop)]
pub(crate) struct Documents {
    list: Vec<Document>,
}

impl Documents {
    /// None.
    pub fn new(alloc: Global) -> Documents {
        Documents {
            list: Vec::new(alloc),
        }
    }

    /// The text that is called so.
    pub fn called(&self, uri: &str) -> Option<&Document> {
        self.list
            .iter()
            .find(|document| document.uri.as_str() == uri)
    }

    /// Takes a text, in place of what is called the same. Whether it is kept: not where so many are open already.
    pub fn put(&mut self, document: Document) -> Result<bool, AllocError> {
        self.close(document.uri.as_str());
        if self.list.len() >= MOST_DOCUMENTS {
            return Ok(false);
        }
        self.list.push(document)?;
        Ok(true)
    }

    /// Lets go what is called so.
    pub fn close(&mut self, uri: &str) {
        let found = self
            .list
            .iter()
            .position(|document| document.uri.as_str() == uri);
        if let Some(index) = found
            && index < self.list.len()
        {
            self.list.swap_remove(index);
        }
    }

    /// Whether diagnostics of a text are still to be sent.
    pub fn has_due(&self) -> bool {
        self.list.iter().any(|document| document.is_due)
    }

    /// A text whose diagnostics are still to be sent, which are taken as sent then.
    pub fn take_due(&mut self) -> Option<&mut Document> {
        let index = self.list.iter().position(|document| document.is_due)?;
        let document = self.list.get_mut(index)?;
        document.is_due = false;
        Some(document)
    }
}
