//! Texts that are put together piece by piece.

use crate::escaping::{front_of, push_plain};
use std::alloc::{AllocError, Global};
use std::mem;

/// How many characters of quoted texts a line has at most.
const MOST_QUOTED: usize = 200;

/// A text that is being put together. Where memory is refused for a piece, the text lacks it, and
/// [`TextWriter::give_back`] says so at the end; so a writer has one place to look, and not one a piece.
#[derive(Drop)]
pub struct TextWriter {
    text: String,
    lacks_pieces: bool,
    /// How many characters of quoted texts the line has so far.
    quoted: usize,
}

impl TextWriter {
    /// An empty text.
    pub fn new(alloc: Global) -> TextWriter {
        TextWriter {
            text: String::new(alloc),
            lacks_pieces: false,
            quoted: 0,
        }
    }

    /// Takes a text, to add to it; it is empty until [`TextWriter::give_back`] puts there what is written.
    pub fn take(text: &mut String) -> TextWriter {
        let empty = String::new(*text.allocator());
        TextWriter {
            text: mem::replace(text, empty),
            lacks_pieces: false,
            quoted: 0,
        }
    }

    /// Gives the text back, and says whether memory was refused for a piece of it.
    pub fn give_back(self, text: &mut String) -> Result<(), AllocError> {
        let TextWriter {
            text: written,
            lacks_pieces,
            ..
        } = self;
        *text = written;
        if lacks_pieces {
            Err(AllocError)
        } else {
            Ok(())
        }
    }

    /// Takes what is written out of the writer, which is then as a new one; memory may have been refused for a piece.
    pub fn take_text(&mut self) -> Result<String, AllocError> {
        let empty = String::new(self.alloc());
        let text = mem::replace(&mut self.text, empty);
        self.quoted = 0;
        if mem::replace(&mut self.lacks_pieces, false) {
            Err(AllocError)
        } else {
            Ok(text)
        }
    }

    /// The allocator of the text.
    pub fn alloc(&self) -> Global {
        *self.text.allocator()
    }

    /// Notes that memory was refused for a piece.
    pub fn lack_piece(&mut self) {
        self.lacks_pieces = true;
    }

    /// Keeps whether a piece could be added.
    fn keep(&mut self, added: Result<(), AllocError>) {
        if added.is_err() {
            self.lacks_pieces = true;
        }
    }

    /// Adds a piece as it is. One that ends a line begins a new one.
    pub fn put(&mut self, piece: &str) {
        let added = self.text.push_str(piece);
        self.keep(added);
        if piece.ends_with('\n') {
            self.quoted = 0;
        }
    }

    /// Adds pieces as they are, one after the other.
    pub fn put_all(&mut self, pieces: &[&str]) {
        for piece in pieces {
            self.put(*piece);
        }
    }

    /// Adds a character.
    pub fn put_letter(&mut self, letter: char) {
        let added = self.text.push(letter);
        self.keep(added);
    }

    /// Adds a text of others without control bytes.
    pub fn put_plain(&mut self, text: &str) {
        let added = push_plain(&mut self.text, text);
        self.keep(added);
    }

    /// Adds a quoted text, such as a comment, without control bytes. Of all that is quoted on a line the first 200
    /// characters are shown, and `..` stands for what is cut of a text.
    pub fn put_quoted(&mut self, text: &str) {
        let front = front_of(text, MOST_QUOTED.saturating_sub(self.quoted));
        self.quoted = self.quoted.saturating_add(front.chars().count());
        self.put_plain(front);
        if front.len() < text.len() {
            self.put("..");
        }
    }

    /// Adds a number in decimal digits.
    pub fn put_number(&mut self, number: u64) {
        let added = write!(self.text, "{number}");
        self.keep(added);
    }

    /// Adds a number in decimal digits, after blanks where it has fewer digits than a width.
    pub fn put_right(&mut self, number: u64, width: usize) {
        let added = write!(self.text, "{number:>width$}");
        self.keep(added);
    }

    /// Adds a number in hexadecimal digits after `0x`.
    pub fn put_bits(&mut self, bits: u64) {
        let added = write!(self.text, "0x{bits:x}");
        self.keep(added);
    }

    /// Adds a number in hexadecimal digits, the letters in capitals.
    pub fn put_capital_digits(&mut self, bits: u64) {
        let added = write!(self.text, "{bits:X}");
        self.keep(added);
    }

    /// Adds a text, and the line's end.
    pub fn put_line(&mut self, line: &str) {
        self.put(line);
        self.put("\n");
    }

    /// How many bytes the text has.
    pub fn len(&self) -> usize {
        self.text.len()
    }

    /// Adds blanks up to a column after a place in the text.
    pub fn pad(&mut self, begin: usize, width: usize) {
        let used = self.len().saturating_sub(begin);
        for _ in used..width {
            self.put(" ");
        }
    }

    /// Ends a line, without blanks at its end.
    pub fn end_line(&mut self) {
        for _ in 0..self.text.len() {
            if !self.text.ends_with(' ') {
                break;
            }
            self.text.pop();
        }
        self.put("\n");
    }
}
