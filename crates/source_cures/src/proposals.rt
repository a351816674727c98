//! Fixes that are still to be tried.

use crate::fixes::Fix;
use crate::pieces::end_of;
use crate::source_lines::SourceLine;
use editor_texts::TextEdit;
use fault_messages::Token;
use std::alloc::{AllocError, Global};

/// What a line that is added begins with.
pub(crate) const INDENT: &str = "        ";

/// The most fixes of one message.
const MOST_FIXES: usize = 4;

/// Fixes of a message that are still to be tried, the likeliest first.
#[derive(Drop)]
pub(crate) struct Proposals {
    alloc: Global,
    fixes: Vec<Fix>,
}

impl Proposals {
    /// None.
    pub fn new(alloc: Global) -> Proposals {
        Proposals {
            alloc,
            fixes: Vec::new(alloc),
        }
    }

    /// The allocator of what is proposed.
    pub fn alloc(&self) -> Global {
        self.alloc
    }

    /// All of them, for good.
    pub fn into_fixes(self) -> Vec<Fix> {
        self.fixes
    }

    /// Proposes edits in their order, unless there are enough.
    pub fn propose(&mut self, title: String, edits: Vec<TextEdit>) -> Result<(), AllocError> {
        if self.fixes.len() < MOST_FIXES {
            self.fixes.push(Fix { title, edits })?;
        }
        Ok(())
    }

    /// Proposes one edit.
    pub fn propose_one(&mut self, title: &str, edit: TextEdit) -> Result<(), AllocError> {
        let mut edits = Vec::new(self.alloc);
        edits.push(edit)?;
        self.propose(String::from_str(self.alloc, title)?, edits)
    }

    /// Proposes to write a text in place of a piece of a line.
    pub fn write(&mut self, line: &SourceLine, piece: Token, text: &str) -> Result<(), AllocError> {
        let title = format!(in self.alloc; "write {text}")?;
        let edit = replaced(self.alloc, line, piece, text)?;
        self.propose_one(title.as_str(), edit)
    }

    /// Proposes to take a piece of a line away.
    pub fn take_away(
        &mut self,
        line: &SourceLine,
        piece: Token,
        title: &str,
    ) -> Result<(), AllocError> {
        let edit = replaced(self.alloc, line, piece, "")?;
        self.propose_one(title, edit)
    }

    /// Proposes to write a text in place of a statement's piece, after a line of its own before the statement.
    pub fn write_after(
        &mut self,
        line: &SourceLine,
        first: &str,
        piece: Token,
        text: &str,
    ) -> Result<(), AllocError> {
        let alloc = self.alloc;
        let mut edits = Vec::new(alloc);
        let added = format!(in alloc; "{first}\n{INDENT}")?;
        edits.push(replaced(alloc, line, line.body().before(0), added.as_str())?)?;
        edits.push(replaced(alloc, line, piece, text)?)?;
        self.propose(format!(in alloc; "write {first} and then {text}")?, edits)
    }
}

/// The edit by which a text takes the place of a piece of a line.
pub(crate) fn replaced(
    alloc: Global,
    line: &SourceLine,
    piece: Token,
    text: &str,
) -> Result<TextEdit, AllocError> {
    Ok(TextEdit {
        start: line.start.saturating_add(piece.start),
        end: line.start.saturating_add(end_of(piece)),
        text: Vec::from_slice(alloc, text.as_bytes())?,
    })
}

/// The edit that adds a text at a place of the whole text.
pub(crate) fn added(alloc: Global, place: usize, text: &str) -> Result<TextEdit, AllocError> {
    Ok(TextEdit {
        start: place,
        end: place,
        text: Vec::from_slice(alloc, text.as_bytes())?,
    })
}
