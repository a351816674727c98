//! Parameters of messages.

use serde_json::Value;

/// A place in a text, as the protocol has it: a line from 0, and how many units of UTF-16 stand before it on the line.
#[derive(Clone, Copy, Debug, PartialEq, Eq)]
pub struct Position {
    /// The line.
    pub line: usize,
    /// The units.
    pub character: usize,
}

/// The parameters of a message.
#[derive(Drop)]
pub struct Parameters {
    message: Value,
}

impl Parameters {
    /// Those of a message.
    pub(crate) fn of(message: Value) -> Parameters {
        Parameters { message }
    }

    /// A parameter; None where there is none of this name.
    pub fn value(&self, name: &str) -> Option<&Value> {
        self.message.get("params")?.get(name)
    }

    /// A parameter that is a text.
    pub fn text(&self, name: &str) -> Option<&str> {
        self.value(name)?.as_str()
    }

    /// The path of the text that the message is about.
    pub fn uri(&self) -> Option<&str> {
        self.value("textDocument")?.get("uri")?.as_str()
    }

    /// The version of that text, where it is said.
    pub fn version(&self) -> Option<i64> {
        self.value("textDocument")?.get("version")?.as_i64()
    }

    /// The text that is opened.
    pub fn opened(&self) -> Option<&str> {
        self.value("textDocument")?.get("text")?.as_str()
    }

    /// The whole text of the last change. None where the message has no change, or the last one is of a part.
    pub fn changed(&self) -> Option<&str> {
        let last = self.value("contentChanges")?.as_array()?.last()?;
        if last.get("range").is_some() {
            return None;
        }
        last.get("text")?.as_str()
    }

    /// The place that the message is about.
    pub fn position(&self) -> Option<Position> {
        let value = self.value("position")?;
        let line = value.get("line")?.as_u64()?;
        let character = value.get("character")?.as_u64()?;
        Some(Position {
            line: line as usize,
            character: character as usize,
        })
    }

    /// Whether the places that are asked for are to have the one where the label stands: so where it is not said.
    pub fn wants_declaration(&self) -> bool {
        self.declaration_asked().unwrap_or(true)
    }

    /// Whether it is asked for, where that is said.
    fn declaration_asked(&self) -> Option<bool> {
        self.value("context")?.get("includeDeclaration")?.as_bool()
    }

    /// The first and the last line that the message is about, from 0.
    pub fn lines(&self) -> Option<(usize, usize)> {
        let range = self.value("range")?;
        let first = range.get("start")?.get("line")?.as_u64()?;
        let last = range.get("end")?.get("line")?.as_u64()?;
        Some((first as usize, last as usize))
    }

    /// Whether quick fixes are asked for: so where it is not said which actions are.
    pub fn takes_quick_fixes(&self) -> bool {
        match self.kinds_asked() {
            Some(kinds) => kinds.iter().any(|kind| kind.as_str() == Some("quickfix")),
            None => true,
        }
    }

    /// The kinds of actions that are asked for, where that is said.
    fn kinds_asked(&self) -> Option<&[Value]> {
        let kinds = self.value("context")?.get("only")?.as_array()?;
        Some(kinds.as_slice())
    }
}
