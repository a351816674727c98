//! What `check` knows of a program, for other commands ("Checks", docs/LAB_REFERENCE.md).

use command_parts::{SourceText, is_image};
use fault_messages::{Message, Severity, push_message};
use plain_text::plain;
use source_checks::source_messages;
use std::alloc::{AllocError, Global};

/// The number of the warning of a condition that always or never holds.
const UNMADE_CODE: u8 = 107;

/// That of a comment which is not ASCII.
const NOT_ASCII: u8 = 106;

/// That of a name which stands on two lines.
const NAME_TWICE: u8 = 114;

/// Which warnings of `check` are shown.
#[derive(Clone, Copy, Debug, PartialEq, Eq)]
pub enum WarningChoice {
    /// Those of conditions that always or never hold, since no code decides them.
    Certain,
    /// Those of what the program does, and not of its comments.
    OfProgram,
}

impl WarningChoice {
    /// Whether a message is shown: only warnings are.
    fn shows(self, message: &Message) -> bool {
        match (message.severity, message.number) {
            (Severity::Warning, Some(number)) => match self {
                WarningChoice::Certain => number == UNMADE_CODE,
                WarningChoice::OfProgram => number != NOT_ASCII && number != NAME_TWICE,
            },
            (Severity::Warning, None) | (Severity::Error, _) => false,
        }
    }
}

/// The first warnings of this choice, no more than so many, that `check` has of the source text in the file of this path,
/// as it shows them, in lines. None of an image.
pub fn warnings_of(
    alloc: Global,
    path: &str,
    bytes: &[u8],
    choice: WarningChoice,
    most: usize,
) -> Result<String, AllocError> {
    let mut lines = String::new(alloc);
    if is_image(bytes) {
        return Ok(lines);
    }
    let source = SourceText::of(alloc, Vec::from_slice(alloc, bytes)?)?;
    let messages = source_messages(alloc, &source)?;
    let text = source.into_written();
    let path = plain(alloc, path)?;
    let shown = messages
        .iter()
        .filter(|message: &&Message| choice.shows(*message));
    for message in shown.take(most) {
        push_message(&mut lines, &path, &text, message)?;
    }
    Ok(lines)
}
