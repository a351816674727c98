//! Lines of a source text, and what stands on them.

use crate::pieces::{is_blank, is_text, split_head, trimmed};
use fault_messages::Token;
use std::alloc::{AllocError, Global};
use std::collections::HashMap;
use text_parts::cut;

/// The most operations of a word that are looked at.
const MOST_OPERATIONS: usize = 8;

/// Where the lines of a text begin, and which of them say names of data.
#[derive(Drop)]
pub(crate) struct LineStarts<'t> {
    text: &'t [u8],
    starts: Vec<usize>,
    /// Of each name of data the number of the first line that says it.
    named: HashMap<&'t [u8], usize>,
}

impl<'t> LineStarts<'t> {
    /// Those of a text.
    pub fn of(alloc: Global, text: &'t [u8]) -> Result<LineStarts<'t>, AllocError> {
        let mut starts = Vec::new(alloc);
        let mut named = HashMap::new(alloc);
        let mut start: usize = 0;
        for line in text.split(|byte| *byte == b'\n') {
            starts.push(start)?;
            let whole = Token::of_line(line);
            note_names(&mut named, &SourceLine { start, whole }, starts.len())?;
            start = start.saturating_add(line.len()).saturating_add(1);
        }
        Ok(LineStarts {
            text,
            starts,
            named,
        })
    }

    /// The text.
    pub fn text(&self) -> &'t [u8] {
        self.text
    }

    /// The line of a number, from 1; None where the text has fewer.
    pub fn line(&self, number: usize) -> Option<SourceLine<'t>> {
        let start = self.starts.get(number.checked_sub(1)?)?;
        Some(SourceLine::after(self.text, *start))
    }

    /// How many lines there are.
    pub fn count(&self) -> usize {
        self.starts.len()
    }

    /// The number of the first line of data that says a name; None where none does.
    pub fn number_named(&self, name: &[u8]) -> Option<usize> {
        self.named.get(name).copied()
    }
}

/// Notes the names that a line of data says, as its label and after its semicolon, with the line's number.
fn note_names<'t>(
    named: &mut HashMap<&'t [u8], usize>,
    line: &SourceLine<'t>,
    number: usize,
) -> Result<(), AllocError> {
    if !line.is_data() {
        return Ok(());
    }
    if let Some(label) = line.label() {
        let _ = named.entry(trimmed(label).bytes)?.or_insert(number);
    }
    if let Some(comment) = line.comment() {
        let _ = named.entry(first_of(comment).bytes)?.or_insert(number);
    }
    Ok(())
}

/// What stands before the first colon or blank of a piece.
fn first_of(piece: Token<'_>) -> Token<'_> {
    match piece
        .bytes
        .iter()
        .position(|byte| *byte == b':' || is_blank(*byte))
    {
        Some(place) => piece.before(place),
        None => piece,
    }
}

/// A line of a source text.
#[derive(Clone, Copy)]
pub(crate) struct SourceLine<'t> {
    /// How many bytes of the text stand before it.
    pub start: usize,
    /// All of it, without its end.
    pub whole: Token<'t>,
}

impl<'t> SourceLine<'t> {
    /// The line that begins after so many bytes of a text.
    pub fn after(text: &'t [u8], start: usize) -> SourceLine<'t> {
        let rest = text.get(start..).unwrap_or(&[]);
        let (line, _) = cut(rest, b'\n');
        SourceLine {
            start,
            whole: Token::of_line(line),
        }
    }

    /// How many bytes of the text stand before the line's end.
    pub fn end(&self) -> usize {
        self.start.saturating_add(self.whole.bytes.len())
    }

    /// What stands before the colon of its label; None where it has no colon before a comment.
    pub fn label(&self) -> Option<Token<'t>> {
        match self.whole.cut(b';').0.cut(b':') {
            (label, Some(_)) => Some(label),
            (_, None) => None,
        }
    }

    /// What stands after its semicolon, without blanks at its ends; None if it has none.
    pub fn comment(&self) -> Option<Token<'t>> {
        let (_, after) = self.whole.cut(b';');
        Some(trimmed(after?))
    }

    /// Whether it adds words of data.
    pub fn is_data(&self) -> bool {
        let head = split_head(self.statement()).0;
        is_text(head, ".data") || is_text(head, ".fill")
    }

    /// What stands after its label and before its comment, without blanks at its ends.
    pub fn body(&self) -> Token<'t> {
        let (code, _) = self.whole.cut(b';');
        let (front, after) = code.cut(b':');
        trimmed(after.unwrap_or(front))
    }

    /// Its body without the lookahead that it may begin with.
    pub fn statement(&self) -> Token<'t> {
        let body = self.body();
        if !body.begins(b'@') {
            return body;
        }
        match body.bytes.iter().position(|byte| is_blank(*byte)) {
            Some(place) => trimmed(body.after(place)),
            None => body,
        }
    }

    /// The operation of its statement, between two bars, at a place of the line.
    pub fn operation_at(&self, column: usize) -> Token<'t> {
        let mut rest = self.statement();
        for _ in 0..MOST_OPERATIONS {
            match rest.cut(b'|') {
                (_, Some(following)) if following.start <= column => rest = following,
                (operation, _) => return trimmed(operation),
            }
        }
        trimmed(rest)
    }

    /// What stands before the last bar before a place, and after it, without blanks at the bar; None if there is no
    /// bar.
    pub fn around_bar(&self, column: usize) -> Option<(Token<'t>, Token<'t>)> {
        let statement = self.statement();
        let before = statement.before(column.saturating_sub(statement.start));
        let bar = before.bytes.iter().rposition(|byte| *byte == b'|')?;
        Some((
            trimmed(statement.before(bar)),
            trimmed(statement.after(bar.saturating_add(1))),
        ))
    }
}
