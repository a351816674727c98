//! The lines of a text, one after the other.

ghost use Rattle.std.specs.Prelude.{◌≡◌, ◌+◌, ◌≤◌, ◌<◌, ◌^◌, length};
ghost use Rattle.std.specs.Iterator.{at_most};
ghost use Rattle.std.specs.Option.{option_copied};
ghost use Rattle.text_parts.specs.Pieces.{rest_length};

use crate::message::Spot;
use crate::token::Token;
use text_parts::cut;

/// A line of a text.
#[derive(Clone, Copy)]
pub struct TextLine<'t> {
    /// Its number, from 0.
    pub number: usize,
    /// How many bytes of the text stand before it.
    pub start: usize,
    /// Its bytes without its end.
    pub bytes: &'t [u8],
    ghost counted: { number < 2 ^ 63 },
}

impl TextLine<'_> {
    /// The place of a piece of the line in the text.
    pub fn spot(&self, token: Token) -> Spot
        ensures line { result.line ≡ self.now.number + 1 }
        ensures column { result.column ≡ token.entry.start + 1 }
        ensures start { result.start ≡ self.now.start }
    {
        Spot {
            line: self.number + 1,
            start: self.start,
            column: token.start + 1,
            width: token.bytes.len().max(1),
        }
    }
}

/// The lines of a text that are still to come.
#[derive(Drop)]
pub struct TextLines<'t> {
    text: &'t [u8],
    rest: Option<&'t [u8]>,
    number: usize,
    has_empty: bool,
    ghost counted: { number + rest_length (option_copied rest) ≤ length text.now + 1 },
}

impl<'t> TextLines<'t> {
    /// All lines of a text.
    pub fn of(text: &'t [u8]) -> TextLines<'t> {
        TextLines::at_first(text, true)
    }

    /// The lines of a text that have a byte. An empty one has no fault, and a text may have 33,554,432 of them.
    pub fn filled(text: &'t [u8]) -> TextLines<'t> {
        TextLines::at_first(text, false)
    }

    fn at_first(text: &'t [u8], has_empty: bool) -> TextLines<'t> {
        TextLines {
            text,
            rest: Some(text),
            number: 0,
            has_empty,
        }
    }

    /// Goes to the next line that has a byte, or after the last line.
    fn pass_empty(&mut self)
        ensures { rest_length (option_copied self.new.rest) ≤ rest_length (option_copied self.old.rest) }
    {
        let Some(rest) = self.rest else {
            return;
        };
        let count = line_feeds(rest);
        if count < rest.len() {
            self.number += count;
            self.rest = Some(&rest[count..]);
        } else {
            self.rest = None;
        }
    }
}

impl<'t> Iterator for TextLines<'t> {
    type Item = TextLine<'t>;

    ghost remaining = { λ s. at_most (rest_length (option_copied s.rest)) };

    fn next(&mut self) -> Option<TextLine<'t>> {
        if !self.has_empty {
            self.pass_empty();
        }
        let rest = self.rest?;
        let (bytes, following) = cut(rest, b'\n');
        let line = TextLine {
            number: self.number,
            start: self.text.len() - rest.len(),
            bytes,
        };
        self.rest = following;
        self.number += 1;
        Some(line)
    }
}

/// How many line feeds a text begins with.
fn line_feeds(text: &[u8]) -> usize
    ensures { result ≤ length text.now }
{
    for (place, byte) in text.iter().enumerate() {
        if *byte != b'\n' {
            return place;
        }
    }
    text.len()
}
