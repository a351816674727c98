//! Lines of pages: which page is of which names, and how it is shown.

use crate::pages::TEXTS;
use std::alloc::AllocError;

/// Adds each page that is of a name, in letters of either case; a blank stands for the sign between the words of a name, as in
/// `lost update` and `full empty`.
pub(crate) fn push_pages(out: &mut String, name: &str) -> Result<(), AllocError> {
    for text in TEXTS.iter() {
        let mut is_shown = false;
        for line in text.lines() {
            match line.strip_prefix("= ") {
                Some(names) => {
                    is_shown = is_among(name, names);
                    if is_shown {
                        push_break(out)?;
                    }
                }
                None if is_shown => push_line(out, line)?,
                None => {}
            }
        }
    }
    Ok(())
}

/// Adds the names of all pages, those of a text on a line.
pub(crate) fn push_names(out: &mut String) -> Result<(), AllocError> {
    for text in TEXTS.iter() {
        let mut is_first = true;
        for line in text.lines() {
            if let Some(names) = line.strip_prefix("= ") {
                out.push_str(if is_first { "" } else { " " })?;
                out.push_str(names)?;
                is_first = false;
            }
        }
        out.push('\n')?;
    }
    Ok(())
}

/// Whether a name is one of those between blanks.
fn is_among(name: &str, names: &str) -> bool {
    names.split(' ').any(|known| is_same_name(known, name))
}

/// Whether a name is this known one, in letters of either case, and with blanks between its words or with its own signs.
fn is_same_name(known: &str, name: &str) -> bool {
    if known.len() != name.len() {
        return false;
    }
    for (own, byte) in known.bytes().zip(name.bytes()) {
        if !is_same_byte(own, byte) {
            return false;
        }
    }
    true
}

/// Whether a byte of a name stands for this one of a known name.
fn is_same_byte(own: u8, byte: u8) -> bool {
    own.eq_ignore_ascii_case(&byte) || (is_between(own) && byte == b' ')
}

/// Whether a byte stands between the words of a known name.
fn is_between(byte: u8) -> bool {
    byte == b'_' || byte == b'/'
}

/// Adds the empty line between two pages.
fn push_break(out: &mut String) -> Result<(), AllocError> {
    if !out.is_empty() && !out.as_str().ends_with("\n\n") {
        out.push('\n')?;
    }
    Ok(())
}

/// Adds a line of a page. Those of an example are shown with four blanks before them.
fn push_line(out: &mut String, line: &str) -> Result<(), AllocError> {
    match line.strip_prefix('>') {
        Some(code) => {
            out.push_str("   ")?;
            out.push_str(code)?;
        }
        None => out.push_str(line)?,
    }
    out.push('\n')
}
