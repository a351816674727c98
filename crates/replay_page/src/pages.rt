//! The page of a run, and of two.

use crate::parts::{
    push_head, push_middle, push_pair_head, push_pair_middle, push_pair_tail, push_tail,
};
use std::alloc::{AllocError, Global};

/// The page of a run that is given as JSON, with this title. All that a program brings along stays text: in the title the
/// signs of markup are written by their names, and in the JSON each `<` as `\u003c`. Nothing that was put in is looked
/// at again.
pub(crate) fn page_of(alloc: Global, title: &str, run: &str) -> Result<String, AllocError> {
    let mut page = String::new(alloc);
    push_head(&mut page)?;
    push_escaped(&mut page, title)?;
    push_middle(&mut page)?;
    push_script_data(&mut page, run)?;
    push_tail(&mut page)?;
    Ok(page)
}

/// The page of two runs that are given as JSON, in the same way.
pub(crate) fn pair_page_of(alloc: Global, title: &str, pair: &str) -> Result<String, AllocError> {
    let mut page = String::new(alloc);
    push_pair_head(&mut page)?;
    push_escaped(&mut page, title)?;
    push_pair_middle(&mut page)?;
    push_script_data(&mut page, pair)?;
    push_pair_tail(&mut page)?;
    Ok(page)
}

/// Adds text to markup. What no markup may have, as control characters, becomes a blank.
pub fn push_escaped(out: &mut String, text: &str) -> Result<(), AllocError> {
    for letter in text.chars() {
        match letter {
            '&' => out.push_str("&amp;")?,
            '<' => out.push_str("&lt;")?,
            '>' => out.push_str("&gt;")?,
            '"' => out.push_str("&quot;")?,
            '\'' => out.push_str("&#39;")?,
            '\u{0}'..='\u{1f}' | '\u{fffe}' | '\u{ffff}' => out.push(' ')?,
            _ => out.push(letter)?,
        }
    }
    Ok(())
}

/// Adds text to markup, cut to so many letters.
pub(crate) fn push_cut(out: &mut String, text: &str, room: usize) -> Result<(), AllocError> {
    let mut cut = String::new(*out.allocator());
    for (place, letter) in text.chars().enumerate() {
        if place == room {
            cut.push('…')?;
            break;
        }
        cut.push(letter)?;
    }
    push_escaped(out, &cut)
}

/// Adds JSON to a script element, which no `<` of a text can end then.
pub fn push_script_data(out: &mut String, json: &str) -> Result<(), AllocError> {
    for (index, piece) in json.split('<').enumerate() {
        if index > 0 {
            out.push_str("\\u003c")?;
        }
        out.push_str(piece)?;
    }
    Ok(())
}
