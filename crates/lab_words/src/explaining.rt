//! What a word means.

use crate::page_lines::{push_names, push_pages};
use crate::trap_values::{push_code, push_trap_value};
use std::alloc::{AllocError, Global};

/// What a word of a program, of a run or of a message means: its pages; without a word, all words that have one. The text
/// is empty where the word has none.
pub fn explained(alloc: Global, word: Option<&str>) -> Result<String, AllocError> {
    let mut out = String::new(alloc);
    match word {
        Some(word) => push_meaning(alloc, &mut out, word)?,
        None => push_names(&mut out)?,
    }
    let text = out.trim_end();
    if text.is_empty() {
        return Ok(String::new(alloc));
    }
    format!(in alloc; "{text}\n")
}

/// Adds the pages of a word: by its name, by its parts, as LOAD.S, or by its value.
fn push_meaning(alloc: Global, out: &mut String, word: &str) -> Result<(), AllocError> {
    push_pages(out, word)?;
    if !out.is_empty() {
        return Ok(());
    }
    if let Some(digits) = word.strip_prefix("0x") {
        return push_trap_value(alloc, out, digits);
    }
    match word.split_once('.') {
        Some((head, suffix)) => {
            push_pages(out, head)?;
            let suffix = format!(in alloc; ".{suffix}")?;
            push_pages(out, suffix.as_str())
        }
        None => push_code(alloc, out, word),
    }
}
