//! The lines of a source text, one after the other.

ghost use Rattle.std.specs.Iterator.{at_most};
ghost use Rattle.std.specs.Option.{option_copied};
ghost use Rattle.text_parts.specs.Pieces.{rest_length};

use crate::pieces::trimmed;
use asm_line::{SourceLine, cut_line, is_word};
use fault_messages::{Spot, TextLine, TextLines, Token};

/// A line of a source text.
#[derive(Clone, Copy)]
pub(crate) struct CountedLine<'t> {
    /// Where it stands, and its bytes.
    pub(crate) text: TextLine<'t>,
    /// How many program words stand before it.
    pub(crate) here: usize,
    /// What stands on it.
    pub(crate) source: SourceLine<'t>,
}

impl<'t> CountedLine<'t> {
    /// The place of a piece of the line in the text.
    pub(crate) fn spot(&self, token: Token) -> Spot {
        self.text.spot(token)
    }

    /// The line without its comment and the blanks at its ends.
    fn code(&self) -> Token<'t> {
        trimmed(Token::of_line(self.text.bytes).cut(b';').0)
    }

    /// What stands before the first colon, if there is one.
    pub(crate) fn label(&self) -> Option<Token<'t>> {
        match self.code().cut(b':') {
            (label, Some(_)) => Some(label),
            (_, None) => None,
        }
    }

    /// The line's statement.
    pub(crate) fn statement(&self) -> Token<'t> {
        match self.code().cut(b':') {
            (_, Some(statement)) => trimmed(statement),
            (statement, None) => statement,
        }
    }
}

/// The lines of a source text that have a byte and are still to come. An empty line adds nothing.
#[derive(Drop)]
pub(crate) struct CountedLines<'t> {
    lines: TextLines<'t>,
    here: usize,
}

impl<'t> CountedLines<'t> {
    /// Of a text.
    pub(crate) fn of(text: &'t [u8]) -> CountedLines<'t> {
        CountedLines {
            lines: TextLines::filled(text),
            here: 0,
        }
    }
}

impl<'t> Iterator for CountedLines<'t> {
    type Item = CountedLine<'t>;

    ghost remaining = { λ s. at_most (rest_length (option_copied s.lines.rest)) };

    fn next(&mut self) -> Option<CountedLine<'t>> {
        let text = self.lines.next()?;
        let source = cut_line(text.bytes);
        let here = self.here;
        if is_word(source.statement) {
            self.here = here.saturating_add(1);
        }
        Some(CountedLine { text, here, source })
    }
}
