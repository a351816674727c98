//! Source texts as the lab reads them: with letters of any language in their comments (docs/LAB_REFERENCE.md,
//! "Checks").

use fault_messages::{Message, Severity};
use source_comments::{ascii_comments, foreign_comments, is_showable};
use source_faults::check_source;
use std::alloc::{AllocError, Global};

/// What some editors put before a text in UTF-8.
const BYTE_ORDER_MARK: &[u8] = b"\xEF\xBB\xBF";

/// The number of warnings of what the assembler of `mta_sim` does not take.
const NOT_ASCII: u8 = 106;

/// A source text, without the byte order mark that it may begin with.
#[derive(Drop)]
pub struct SourceText {
    /// The bytes of its file after the mark.
    written: Vec<u8>,
    /// The text with its comments in ASCII; None where it is all ASCII.
    ascii: Option<Vec<u8>>,
    /// Whether the mark stood before it.
    has_mark: bool,
}

impl SourceText {
    /// Of the bytes of a file.
    pub fn of(alloc: Global, bytes: Vec<u8>) -> Result<SourceText, AllocError> {
        let has_mark = bytes.starts_with(BYTE_ORDER_MARK);
        let written = if has_mark {
            Vec::from_slice(alloc, bytes.get(BYTE_ORDER_MARK.len()..).unwrap_or(&[]))?
        } else {
            bytes
        };
        let ascii = if written.is_ascii() {
            None
        } else {
            Some(ascii_comments(alloc, &written)?)
        };
        Ok(SourceText {
            written,
            ascii,
            has_mark,
        })
    }

    /// The text as it was written, for good.
    pub fn into_written(self) -> Vec<u8> {
        self.written
    }

    /// The text as the assembler reads it, with its comments in ASCII.
    pub fn ascii(&self) -> &[u8] {
        match &self.ascii {
            Some(ascii) => ascii,
            None => &self.written,
        }
    }

    /// The text as it is shown: as it was written where all of it can be shown, else with its comments in ASCII.
    pub fn into_shown(self) -> Vec<u8> {
        let SourceText { written, ascii, .. } = self;
        match ascii {
            Some(ascii) if !is_showable(&written) => ascii,
            _ => written,
        }
    }

    /// What is to be said of the text: its faults, and as warnings what is likely not meant and what `mta_sim` refuses.
    pub fn messages(&self, alloc: Global) -> Result<Vec<Message>, AllocError> {
        let mut messages = check_source(alloc, self.ascii())?;
        if self.has_mark {
            messages.push(mark_words(alloc)?)?;
        }
        if let Some(message) = self.comment_words(alloc)? {
            messages.push(message)?;
        }
        messages.sort_by_key(|message| (message.line, message.column))?;
        Ok(messages)
    }

    /// What is to be said of comments that are not ASCII, where there are some.
    fn comment_words(&self, alloc: Global) -> Result<Option<Message>, AllocError> {
        let Some(found) = foreign_comments(&self.written) else {
            return Ok(None);
        };
        let others = found.count.saturating_sub(1);
        let words = match others {
            0 => String::from_str(alloc, "this comment is not ASCII")?,
            1 => String::from_str(alloc, "this comment is not ASCII, nor is 1 more")?,
            _ => format!(in alloc; "this comment is not ASCII, nor are {others} more")?,
        };
        let help = if is_showable(&self.written) {
            "mta_lab reads it; the assembler of mta_sim takes ASCII alone"
        } else {
            "not UTF-8, or with control characters: mta_lab shows ? for them; mta_sim takes ASCII alone"
        };
        Ok(Some(Message {
            severity: Severity::Warning,
            number: Some(NOT_ASCII),
            line: found.line,
            column: found.column,
            width: found.width,
            words,
            help: Some(String::from_str(alloc, help)?),
            start: found.start,
        }))
    }
}

/// What is to be said of a byte order mark.
fn mark_words(alloc: Global) -> Result<Message, AllocError> {
    let help = "mta_lab reads on; for mta_sim save the text as UTF-8 without a mark (BOM)";
    Ok(Message {
        severity: Severity::Warning,
        number: Some(NOT_ASCII),
        line: 1,
        column: 1,
        width: 1,
        words: String::from_str(alloc, "a byte order mark stands before the text")?,
        help: Some(String::from_str(alloc, help)?),
        start: 0,
    })
}
