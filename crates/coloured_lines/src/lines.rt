//! Lines with colours.

use crate::colours::{Colour, PLAIN};
use crate::words::word_at;
use std::alloc::{AllocError, Global};

/// What the line of a mark under a place begins with.
const MARKED: &str = "      | ";

/// A text with colours: its words are the same, and each colour ends on its line.
pub fn coloured(alloc: Global, text: &str) -> Result<String, AllocError> {
    let mut out = String::new(alloc);
    let mut severity = Colour::Bad;
    for line in text.split_inclusive('\n') {
        match line.strip_prefix(MARKED) {
            Some(marked) => {
                out.push_str(MARKED)?;
                push_marked(&mut out, marked, severity)?;
            }
            None => severity = push_line(&mut out, line, severity)?,
        }
    }
    Ok(out)
}

/// Adds a line whose words get their colours, and answers the colour of the last message: this line's, or else the one
/// given.
fn push_line(out: &mut String, line: &str, severity: Colour) -> Result<Colour, AllocError> {
    let mut severity = severity;
    let mut next = 0;
    for (place, letter) in line.char_indices() {
        if place < next {
            continue;
        }
        let before = line.get(..place).unwrap_or("");
        let rest = line.get(place..).unwrap_or("").trim_end_matches('\n');
        match word_at(before, rest) {
            Some((word, colour)) => {
                push_coloured(out, word, colour)?;
                next = place.saturating_add(word.len());
                severity = severity_of(word, severity);
            }
            None => out.push(letter)?,
        }
    }
    Ok(severity)
}

/// The colour of the message that a word heads; the one given where it heads none.
fn severity_of(word: &str, severity: Colour) -> Colour {
    match word {
        "error:" => Colour::Bad,
        "warning:" => Colour::Doubtful,
        _ => severity,
    }
}

/// Adds what stands under the place of a message: blanks, the mark, which gets the message's colour, and the help.
fn push_marked(out: &mut String, marked: &str, colour: Colour) -> Result<(), AllocError> {
    let mark = marked.trim_start_matches(is_blank);
    let blanks = marked.len().saturating_sub(mark.len());
    out.push_str(marked.get(..blanks).unwrap_or(""))?;
    let help = mark.trim_start_matches('^');
    let width = mark.len().saturating_sub(help.len());
    if width > 0 {
        push_coloured(out, mark.get(..width).unwrap_or(""), colour)?;
    }
    out.push_str(help)
}

fn is_blank(letter: char) -> bool {
    letter == ' ' || letter == '\t'
}

/// Adds a word in a colour.
fn push_coloured(out: &mut String, word: &str, colour: Colour) -> Result<(), AllocError> {
    out.push_str(colour.begin())?;
    out.push_str(word)?;
    out.push_str(PLAIN)
}
