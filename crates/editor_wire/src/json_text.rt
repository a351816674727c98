//! JSON, written piece by piece.

use crate::quoting::{push_letters, push_quoted};
use std::alloc::{AllocError, Global};

/// A JSON text that is being written. Where memory is refused for a piece, the text lacks it, and [`Json::whole`] says so
/// at the end; so a writer has one place to look, and not one a piece.
#[derive(Drop)]
pub struct Json {
    text: String,
    is_fresh: bool,
    lacks_pieces: bool,
}

impl Json {
    /// An empty text.
    pub fn new(alloc: Global) -> Json {
        Json {
            text: String::new(alloc),
            is_fresh: true,
            lacks_pieces: false,
        }
    }

    /// The text, unless memory was refused for a piece of it.
    pub fn whole(&self) -> Result<&str, AllocError> {
        if self.lacks_pieces {
            Err(AllocError)
        } else {
            Ok(self.text.as_str())
        }
    }

    /// Whether nothing has been written.
    pub fn is_empty(&self) -> bool {
        self.text.is_empty()
    }

    /// Lacks a piece, for which memory was refused.
    pub fn lack_piece(&mut self) {
        self.lacks_pieces = true;
    }

    /// Adds a piece as it is.
    fn push(&mut self, piece: &str) {
        if self.text.push_str(piece).is_err() {
            self.lacks_pieces = true;
        }
    }

    /// Adds a text as a JSON string.
    fn push_string(&mut self, text: &str) {
        if push_quoted(&mut self.text, text).is_err() {
            self.lacks_pieces = true;
        }
    }

    /// Adds the characters of a JSON string.
    fn push_letters(&mut self, text: &str) {
        if push_letters(&mut self.text, text).is_err() {
            self.lacks_pieces = true;
        }
    }

    /// Begins a value: with a comma, where one stands before it.
    fn begin(&mut self) {
        if !self.is_fresh {
            self.push(",");
        }
        self.is_fresh = false;
    }

    /// Begins an object.
    pub fn open(&mut self) {
        self.begin();
        self.is_fresh = true;
        self.push("{");
    }

    /// Ends an object.
    pub fn close(&mut self) {
        self.is_fresh = false;
        self.push("}");
    }

    /// Begins a list that is a member.
    pub fn open_list(&mut self, name: &str) {
        self.key(name);
        self.push("[");
    }

    /// Begins a list that is a value.
    pub fn begin_list(&mut self) {
        self.begin();
        self.is_fresh = true;
        self.push("[");
    }

    /// Ends a list.
    pub fn close_list(&mut self) {
        self.is_fresh = false;
        self.push("]");
    }

    /// Writes a member's name.
    pub fn key(&mut self, name: &str) {
        self.begin();
        self.push_string(name);
        self.push(":");
        self.is_fresh = true;
    }

    /// Writes a number.
    pub fn number(&mut self, number: u64) {
        self.begin();
        if write!(self.text, "{number}").is_err() {
            self.lacks_pieces = true;
        }
    }

    /// Writes a text.
    pub fn text(&mut self, text: &str) {
        self.begin();
        self.push_string(text);
    }

    /// Writes a member that is a text.
    pub fn text_of(&mut self, name: &str, text: &str) {
        self.key(name);
        self.text(text);
    }

    /// Writes a member that is two texts, one after the other.
    pub fn joined_of(&mut self, name: &str, front: &str, back: &str) {
        self.key(name);
        self.is_fresh = false;
        self.push("\"");
        self.push_letters(front);
        self.push_letters(back);
        self.push("\"");
    }

    /// Writes a member that is a number.
    pub fn number_of(&mut self, name: &str, number: u64) {
        self.key(name);
        self.number(number);
    }

    /// Writes a member that is a number below 0, by what is left without its sign.
    pub fn negative_of(&mut self, name: &str, number: u64) {
        self.key(name);
        self.is_fresh = false;
        if write!(self.text, "-{number}").is_err() {
            self.lacks_pieces = true;
        }
    }

    /// Writes a member that is a reference: a number as a text, hexadecimal after `0x`.
    pub fn reference_of(&mut self, name: &str, number: u64) {
        self.key(name);
        self.is_fresh = false;
        if write!(self.text, "\"0x{number:x}\"").is_err() {
            self.lacks_pieces = true;
        }
    }

    /// Writes a member that is written so in JSON.
    fn plain_of(&mut self, name: &str, value: &str) {
        self.key(name);
        self.is_fresh = false;
        self.push(value);
    }

    /// Writes a member that is true or false.
    pub fn truth_of(&mut self, name: &str, is: bool) {
        self.plain_of(name, if is { "true" } else { "false" });
    }

    /// Writes a member that is null.
    pub fn null_of(&mut self, name: &str) {
        self.plain_of(name, "null");
    }

    /// Writes a member that is another text's value. What that lacks, this lacks too.
    pub fn value_of(&mut self, name: &str, value: &Json) {
        self.plain_of(name, value.text.as_str());
        self.lacks_pieces = self.lacks_pieces || value.lacks_pieces;
    }
}
