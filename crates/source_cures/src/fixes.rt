//! Fixes, and other places that a message is about.

use editor_texts::TextEdit;

/// A way to mend a text.
#[derive(Debug, Drop)]
pub struct Fix {
    /// What it does, in few words, such as `write ADD`.
    pub title: String,
    /// Its edits, in their order.
    pub edits: Vec<TextEdit>,
}

/// Another place that a message is about.
#[derive(Debug, Drop)]
pub struct Related {
    /// Its line, from 1.
    pub line: usize,
    /// Its first byte on the line, from 1.
    pub column: usize,
    /// How many bytes it has.
    pub width: usize,
    /// What stands there, in words for people.
    pub words: String,
}
