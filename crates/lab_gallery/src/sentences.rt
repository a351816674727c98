//! What an example or an exercise teaches, in a sentence.

use plain_text::TextWriter;
use std::alloc::{AllocError, Global};
use std::str;

/// The first sentence of a task: of the first lines after its title that are not empty.
pub(crate) fn sentence_of_task(alloc: Global, task: &[u8]) -> Result<String, AllocError> {
    let text = str::from_utf8(task).unwrap_or("");
    let mut joined = TextWriter::new(alloc);
    for line in text.lines().skip(1) {
        let line = line.trim();
        if line.is_empty() && joined.len() > 0 {
            break;
        }
        put_line(&mut joined, line);
    }
    first_sentence(alloc, &joined.take_text()?)
}

/// The first sentence of the comment that a source text begins with.
pub(crate) fn sentence_of_source(alloc: Global, source: &[u8]) -> Result<String, AllocError> {
    let text = str::from_utf8(source).unwrap_or("");
    let mut joined = TextWriter::new(alloc);
    for line in text.lines() {
        match line.strip_prefix(";") {
            Some(comment) => put_line(&mut joined, comment.trim()),
            None => break,
        }
    }
    first_sentence(alloc, &joined.take_text()?)
}

/// Adds a line after others.
fn put_line(joined: &mut TextWriter, line: &str) {
    if joined.len() > 0 {
        joined.put(" ");
    }
    joined.put_plain(line);
}

/// A text up to the first full stop that a blank follows.
fn first_sentence(alloc: Global, text: &str) -> Result<String, AllocError> {
    match text.split_once(". ") {
        Some((sentence, _)) => format!(in alloc; "{sentence}."),
        None => String::from_str(alloc, text),
    }
}
