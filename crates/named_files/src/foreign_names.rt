//! Names that are not UTF-8.

use std::alloc::{AllocError, Global};
use std::str;

/// The words of a command line that are not UTF-8: their bytes, and how they are shown.
#[derive(Drop)]
pub struct ForeignNames {
    names: Vec<ForeignName>,
}

/// A word that is not UTF-8.
#[derive(Drop)]
struct ForeignName {
    /// As it is shown.
    shown: String,
    /// Its bytes.
    bytes: Vec<u8>,
}

impl ForeignNames {
    /// Of a line that has none.
    pub fn none(alloc: Global) -> ForeignNames {
        ForeignNames {
            names: Vec::new(alloc),
        }
    }

    /// The text of a word of these bytes: the word itself, or if it is not UTF-8, how it is shown. Then it is remembered.
    pub fn text_of(&mut self, alloc: Global, bytes: Vec<u8>) -> Result<String, AllocError> {
        if let Ok(text) = str::from_utf8(&bytes) {
            return String::from_str(alloc, text);
        }
        let text = shown_name(alloc, &bytes)?;
        let shown = String::from_str(alloc, text.as_str())?;
        self.names.push(ForeignName { shown, bytes })?;
        Ok(text)
    }

    /// Whether a word is shown so that is not UTF-8.
    pub fn has(&self, shown: &str) -> bool {
        self.names
            .iter()
            .any(|name: &ForeignName| name.shown.as_str() == shown)
    }

    /// The first of the words that begins so, as it is shown.
    pub fn first_with(&self, beginning: &str) -> Option<&str> {
        for name in self.names.iter() {
            if name.shown.starts_with(beginning) {
                return Some(&name.shown);
            }
        }
        None
    }

    /// The text that shows two words of a line which are not the same, if there is one: the words of the line, as they
    /// are shown, do not say which of the two is meant.
    pub fn shown_twice(&self, words: &[String]) -> Option<&str> {
        for name in self.names.iter() {
            let shown = words
                .iter()
                .filter(|word: &&String| **word == name.shown)
                .count();
            let same = self
                .names
                .iter()
                .filter(|other: &&ForeignName| *other.bytes == *name.bytes)
                .count();
            if shown != same {
                return Some(&name.shown);
            }
        }
        None
    }
}

/// A name of any bytes as it is shown: UTF-8 stays, and each other byte is written as `\xFC`.
pub fn shown_name(alloc: Global, bytes: &[u8]) -> Result<String, AllocError> {
    let mut out = String::new(alloc);
    for chunk in bytes.utf8_chunks() {
        out.push_str(chunk.valid())?;
        for byte in chunk.invalid() {
            write!(out, "\\x{byte:02X}")?;
        }
    }
    Ok(out)
}
