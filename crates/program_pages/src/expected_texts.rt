//! What is required of a program, as it is written.

use expectation_files::{NEVER_BUSY, Requirements, WrittenLine};
use search_texts::is_another_line;
use std::alloc::{AllocError, Global};

/// What is expected of ends, and what is claimed, as it is written: first the lines on ends, in the order of the
/// expectations. Lines about who does the work, and those about runs, are not among them.
pub(crate) fn expected_texts(
    alloc: Global,
    required: &Requirements,
) -> Result<Vec<String>, AllocError> {
    let mut texts = Vec::new(alloc);
    push_expected(&mut texts, required)?;
    Ok(texts)
}

/// Adds what is expected of ends, and what is claimed.
fn push_expected(texts: &mut Vec<String>, required: &Requirements) -> Result<(), AllocError> {
    push_words(texts, required.end_lines())?;
    push_words(texts, required.claim_lines())?;
    if required.never_busy().is_some() {
        push_text(texts, NEVER_BUSY)?;
    }
    push_words(texts, required.rule_lines())
}

/// The lines that the page does not judge, as they are written: those about who does the work, each once, and these about
/// runs.
pub(crate) fn unjudged_texts(
    alloc: Global,
    required: &Requirements,
    open: &[&str],
) -> Result<Vec<String>, AllocError> {
    let mut texts = Vec::new(alloc);
    push_each_once(&mut texts, required.work_lines())?;
    for words in open {
        push_text(&mut texts, words)?;
    }
    Ok(texts)
}

/// Adds the words of lines, of which some stand several times, once for each line.
fn push_each_once(texts: &mut Vec<String>, lines: &[WrittenLine]) -> Result<(), AllocError> {
    for (place, line) in lines.iter().enumerate() {
        if is_another_line(lines, place) {
            push_text(texts, &line.words)?;
        }
    }
    Ok(())
}

/// Adds the words of lines.
fn push_words(texts: &mut Vec<String>, lines: &[WrittenLine]) -> Result<(), AllocError> {
    for line in lines {
        push_text(texts, &line.words)?;
    }
    Ok(())
}

/// Adds a text.
fn push_text(texts: &mut Vec<String>, words: &str) -> Result<(), AllocError> {
    let text = String::from_str(*texts.allocator(), words)?;
    texts.push(text)?;
    Ok(())
}
