//! The commands `explain` and `word`.

use command_parts::{CommandAnswer, LabFault, Status};
use fault_messages::{Severity, push_message};
use lab_words::{explained, instruction_description, source_of};
use source_faults::check_source;
use std::alloc::{AllocError, Global};

/// What a word of a program, of a run or of a message means, or a name of several words; without one, all words that have a
/// page.
pub fn explain(alloc: Global, words: &[&str]) -> Result<CommandAnswer, LabFault> {
    let name = words_in_line(alloc, words)?;
    let asked = if words.is_empty() {
        None
    } else {
        Some(name.as_str())
    };
    let text = explained(alloc, asked)?;
    if text.is_empty() {
        return Err(LabFault::Words(format!(in alloc;
            "no page is called {name}; explain alone lists them all, as ADD, .S, EQ, .data, 6, E2; 0x806 is a trap register"
        )?));
    }
    Ok(CommandAnswer::printed(alloc, text, Status::Done))
}

/// What an instruction word says, by its hexadecimal digits or by its text, whose words these are.
pub fn show_word(alloc: Global, words: &[&str]) -> Result<CommandAnswer, LabFault> {
    let text = words_in_line(alloc, words)?;
    match instruction_description(alloc, text.as_str())? {
        Some(printed) => Ok(CommandAnswer::printed(alloc, printed, Status::Done)),
        None => Err(LabFault::Lines(faults_of(alloc, text.as_str())?)),
    }
}

/// Words with a blank between each two.
fn words_in_line(alloc: Global, words: &[&str]) -> Result<String, AllocError> {
    let mut text = String::new(alloc);
    for (place, word) in words.iter().enumerate() {
        text.push_str(if place == 0 { "" } else { " " })?;
        text.push_str(word)?;
    }
    Ok(text)
}

/// Why a text is no instruction.
fn faults_of(alloc: Global, text: &str) -> Result<String, AllocError> {
    let source = source_of(alloc, text)?;
    let mut lines = String::new(alloc);
    for message in check_source(alloc, source.as_bytes())? {
        if message.severity == Severity::Error {
            push_message(&mut lines, "word", source.as_bytes(), &message)?;
        }
    }
    if lines.is_empty() {
        lines.push_str("mta_lab: the text is no instruction\n")?;
    }
    Ok(lines)
}
