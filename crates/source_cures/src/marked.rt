//! What a message is about.

use crate::pieces::split_head;
use crate::source_lines::{LineStarts, SourceLine};
use fault_messages::{Message, Token};

/// A message with its place in the text.
#[derive(Clone, Copy)]
pub(crate) struct Marked<'t> {
    /// The lines of the text.
    pub lines: &'t LineStarts<'t>,
    /// The line.
    pub line: SourceLine<'t>,
    /// Its number, from 1.
    pub row: usize,
    /// The part of the line that is marked.
    pub mark: Token<'t>,
    /// What is wrong.
    pub words: &'t str,
    /// How it may be mended; empty where nothing is said of that.
    pub help: &'t str,
    /// The message's number.
    pub number: Option<u8>,
}

impl<'t> Marked<'t> {
    /// A message about a text.
    pub fn of(lines: &'t LineStarts<'t>, message: &'t Message) -> Marked<'t> {
        let line = SourceLine::after(lines.text(), message.start);
        let column = message.column.saturating_sub(1);
        Marked {
            lines,
            line,
            row: message.line,
            mark: line.whole.after(column).before(message.width),
            words: message.words.as_str(),
            help: match &message.help {
                Some(help) => help.as_str(),
                None => "",
            },
            number: message.number,
        }
    }

    /// The operation or directive at the mark.
    pub fn operation(&self) -> Token<'t> {
        self.line.operation_at(self.mark.start)
    }

    /// Its name with its suffix.
    pub fn head(&self) -> Token<'t> {
        split_head(self.operation()).0
    }

    /// Whether that name is this.
    pub fn is_of(&self, name: &str) -> bool {
        self.head().bytes == name.as_bytes()
    }
}
