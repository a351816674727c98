//! Cures that write a number another way.

use crate::marked::Marked;
use crate::pieces::{operands_of, text_of};
use crate::proposals::{Proposals, replaced};
use fault_messages::Token;
use std::alloc::AllocError;

/// What stands before a number that is to take the place of the mark.
const BEFORE_NUMBERS: [&str; 5] = [
    "hexadecimal begins with 0x: write ",
    "numbers are decimal or hexadecimal: write ",
    "a number stands alone: write ",
    "no sign may stand here: write ",
    "write the number of the letter, ",
];

/// Proposes the number that a sentence says, in place of the mark.
pub(crate) fn propose_number(out: &mut Proposals, marked: &Marked) -> Result<(), AllocError> {
    if let Some(number) = number_among(&BEFORE_NUMBERS, marked.help) {
        return out.write(&marked.line, marked.mark, number);
    }
    if let Some(rest) = marked.help.strip_prefix("no sign may stand here: ") {
        return propose_unsigned(out, marked, rest);
    }
    if let Some(rest) = marked
        .help
        .strip_prefix("words are counted, and not bytes: ")
        && let Some((_, words)) = rest.split_once(" bytes are ")
        && let Some(number) = words.strip_suffix(" words")
    {
        return out.write(&marked.line, marked.mark, number);
    }
    Ok(())
}

/// The number that stands after one of these sentences.
fn number_among<'t>(sentences: &[&str], help: &'t str) -> Option<&'t str> {
    for sentence in sentences {
        if let Some(number) = help.strip_prefix(*sentence) {
            return Some(number);
        }
    }
    None
}

/// Proposes what is written in place of a number with a sign: SUB for ADD and ADD for SUB, or LIT and then SUB.
fn propose_unsigned(out: &mut Proposals, marked: &Marked, rest: &str) -> Result<(), AllocError> {
    let digits = text_of(marked.mark.after(1));
    if !marked.mark.begins(b'-') {
        return out.write(&marked.line, marked.mark, digits);
    }
    if rest.starts_with("SUB subtracts ") {
        return propose_other_sign(out, marked, digits);
    }
    let operation = marked.operation();
    let operands = operands_of(out.alloc(), operation)?;
    match operands.first() {
        Some(register) if marked.is_of("LIT") => {
            let register = text_of(*register);
            let first = format!(in out.alloc(); "LIT {register}, {digits}")?;
            let text = format!(in out.alloc(); "SUB {register}, r0, {register}")?;
            out.write_after(&marked.line, first.as_str(), operation, text.as_str())
        }
        Some(_) | None => Ok(()),
    }
}

/// Proposes SUB for ADD, or ADD for SUB, with a number that has no sign.
fn propose_other_sign(
    out: &mut Proposals,
    marked: &Marked,
    digits: &str,
) -> Result<(), AllocError> {
    let alloc = out.alloc();
    let head = marked.head();
    let name = head.before(3);
    let other = match name.bytes {
        b"ADD" => "SUB",
        b"SUB" => "ADD",
        _ => return Ok(()),
    };
    let mut edits = Vec::new(alloc);
    edits.push(replaced(alloc, &marked.line, name, other)?)?;
    edits.push(replaced(alloc, &marked.line, marked.mark, digits)?)?;
    let title = format!(in alloc; "write {other}{} and {digits}", text_of(suffix_of(head)))?;
    out.propose(title, edits)
}

/// What follows the three letters of a name.
fn suffix_of(head: Token<'_>) -> Token<'_> {
    head.after(3)
}
