//! Messages about a text, and how they are printed.

use plain_text::{TextWriter, is_hidden};
use std::alloc::AllocError;
use text_parts::cut;

/// A line with more bytes than these is not printed.
const LONGEST_EXCERPT: usize = 200;

/// Whether a text is refused for what a message says.
#[derive(Clone, Copy, Debug, PartialEq, Eq)]
pub enum Severity {
    /// It is.
    Error,
    /// It is legal, and likely not what is meant.
    Warning,
}

impl Severity {
    /// The word for it.
    pub fn name(self) -> &'static str {
        match self {
            Severity::Error => "error",
            Severity::Warning => "warning",
        }
    }
}

/// One message about a place in a text.
#[derive(Debug, Drop)]
pub struct Message {
    /// Whether the text is refused for it.
    pub severity: Severity,
    /// Its number: of a fault of a source text 1 to 10, of a warning 101 to 116; None where it has none.
    pub number: Option<u8>,
    /// The line, from 1.
    pub line: usize,
    /// The first byte of the place on its line, from 1; a tab is one.
    pub column: usize,
    /// How many bytes the place has, at least 1.
    pub width: usize,
    /// What is wrong, without a full stop.
    pub words: String,
    /// How it may be mended.
    pub help: Option<String>,
    /// How many bytes of the text stand before the line.
    pub start: usize,
}

/// A place in a text, as a message has it.
#[derive(Clone, Copy)]
pub struct Spot {
    /// The line, from 1.
    pub line: usize,
    /// How many bytes of the text stand before the line.
    pub start: usize,
    /// The first byte of the place on its line, from 1.
    pub column: usize,
    /// How many bytes the place has, at least 1.
    pub width: usize,
}

impl Spot {
    /// The first place of a text.
    pub const FIRST: Spot = Spot {
        line: 1,
        start: 0,
        column: 1,
        width: 1,
    };
}

/// Prints a message about a text that stands in a file: `FILE:LINE:COLUMN: error: WORDS (explain NUMBER)`, then the
/// line with its number, and under it the mark with the help. A line of more than 200 bytes, or with a byte 00, is left
/// out.
pub fn push_message(
    out: &mut String,
    file: &str,
    text: &[u8],
    message: &Message,
) -> Result<(), AllocError> {
    let mut words = TextWriter::take(out);
    put_head(&mut words, file, message);
    put_page(&mut words, message);
    let line = line_at(text, message.start);
    if is_printable(line) {
        put_excerpt(&mut words, line, message);
    } else {
        put_help(&mut words, message);
    }
    words.give_back(out)
}

/// Prints the place of a message, its severity and its words.
fn put_head(out: &mut TextWriter, file: &str, message: &Message) {
    out.put(file);
    out.put(":");
    out.put_number(message.line as u64);
    out.put(":");
    out.put_number(message.column as u64);
    out.put(": ");
    out.put(message.severity.name());
    out.put(": ");
    out.put(message.words.as_str());
}

/// Prints which page of `explain` says more of a message, and ends the line.
fn put_page(out: &mut TextWriter, message: &Message) {
    if let Some(number) = message.number {
        out.put(match message.severity {
            Severity::Error => " (explain E",
            Severity::Warning => " (explain ",
        });
        out.put_number(u64::from(number));
        out.put(")");
    }
    out.put("\n");
}

/// The line that begins after so many bytes of a text; the empty one where the text has fewer.
fn line_at(text: &[u8], start: usize) -> &[u8] {
    match text.get(start..) {
        Some(rest) => cut(rest, b'\n').0,
        None => &[],
    }
}

fn is_printable(line: &[u8]) -> bool {
    line.len() <= LONGEST_EXCERPT && !line.contains(&0)
}

/// Prints a line with its number, and under it the mark and the help.
fn put_excerpt(out: &mut TextWriter, line: &[u8], message: &Message) {
    out.put_right(message.line as u64, 5);
    out.put(" | ");
    match String::from_utf8_lossy(out.alloc(), line) {
        Ok(text) => put_printable(out, text.as_str()),
        Err(_) => out.lack_piece(),
    }
    out.put("\n      | ");
    put_mark(out, line, message);
    if let Some(help) = &message.help {
        out.put(" ");
        out.put(help.as_str());
    }
    out.put("\n");
}

/// Prints the help alone.
fn put_help(out: &mut TextWriter, message: &Message) {
    if let Some(help) = &message.help {
        out.put("      | ");
        out.put_line(help.as_str());
    }
}

/// Prints a text of one line, in which only a tab is printed of the control characters, and none that [`is_hidden`].
fn put_printable(out: &mut TextWriter, text: &str) {
    for letter in text.chars() {
        let is_unseen = letter.is_control() || is_hidden(letter);
        if letter == '\t' || !is_unseen {
            out.put_letter(letter);
        } else if letter != '\r' {
            out.put("?");
        }
    }
}

/// Prints blanks up to the place on the line, and marks under it.
fn put_mark(out: &mut TextWriter, line: &[u8], message: &Message) {
    for byte in line.iter().take(message.column.saturating_sub(1)) {
        put_blank(out, *byte);
    }
    out.put("^");
    let rest = line
        .iter()
        .skip(message.column)
        .take(message.width.saturating_sub(1));
    for byte in rest {
        if begins_character(*byte) {
            out.put("^");
        }
    }
}

/// Prints a blank as wide as what the byte prints.
fn put_blank(out: &mut TextWriter, byte: u8) {
    if byte == b'\t' {
        out.put("\t");
    } else if begins_character(byte) {
        out.put(" ");
    }
}

/// Whether a byte of a text in UTF-8 is the first of its character.
fn begins_character(byte: u8) -> bool {
    byte & 0xC0 != 0x80
}
