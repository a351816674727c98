//! Cures that write operands another way, or a line before them that makes them.

use crate::marked::Marked;
use crate::pieces::{operands_of, text_of};
use crate::proposals::Proposals;
use crate::references::base_and_words;
use fault_messages::Token;
use std::alloc::AllocError;

/// Proposes the operands that a sentence describes.
pub(crate) fn propose_operands(out: &mut Proposals, marked: &Marked) -> Result<(), AllocError> {
    if marked
        .help
        .starts_with("the base and the words stand apart: ")
    {
        return propose_apart(out, marked);
    }
    let help = front_of(marked.help, " for the word ");
    let help = match help.split_once("]: write ") {
        Some((_, written)) => written,
        None => help.strip_prefix("write ").unwrap_or(help),
    };
    if help.starts_with("r0, ") {
        return propose_reference(out, marked, help);
    }
    match help.split_once(" and then ") {
        Some((first, second)) => propose_after(
            out,
            marked,
            front_of(first, " comes first,"),
            front_of(second, ";"),
        ),
        None => Ok(()),
    }
}

/// What stands before some words; all, where they do not stand.
fn front_of<'t>(text: &'t str, words: &str) -> &'t str {
    match text.split_once(words) {
        Some((front, _)) => front,
        None => text,
    }
}

/// Proposes base and words for the first operand that has brackets.
fn propose_apart(out: &mut Proposals, marked: &Marked) -> Result<(), AllocError> {
    for operand in operands_of(out.alloc(), marked.operation())? {
        if let Some(text) = base_and_words(out.alloc(), operand)? {
            return out.write(&marked.line, operand, text.as_str());
        }
    }
    Ok(())
}

/// Proposes base and words for all operands but the first one.
fn propose_reference(out: &mut Proposals, marked: &Marked, text: &str) -> Result<(), AllocError> {
    match rest_of(out, marked)? {
        Some(piece) => out.write(&marked.line, piece, text),
        None => Ok(()),
    }
}

/// All operands but the first one.
fn rest_of<'t>(out: &Proposals, marked: &Marked<'t>) -> Result<Option<Token<'t>>, AllocError> {
    let operation = marked.operation();
    let operands = operands_of(out.alloc(), operation)?;
    let Some(second) = operands.get(1) else {
        return Ok(None);
    };
    let from = second.start.saturating_sub(operation.start);
    Ok(Some(operation.after(from)))
}

/// Proposes one line that makes what the operation at the mark uses, and how the operation is written then. SKIP also takes
/// a label itself, where JUMP does not.
fn propose_after(
    out: &mut Proposals,
    marked: &Marked,
    first: &str,
    second: &str,
) -> Result<(), AllocError> {
    let line = &marked.line;
    if !first.starts_with("TLIT t") && !first.starts_with("LIT r") {
        return Ok(());
    }
    if second == "t1" {
        out.write_after(line, first, marked.mark, second)?;
        return if marked.is_of("JUMP") {
            out.write(line, marked.head(), "SKIP")
        } else {
            Ok(())
        };
    }
    if is_pointer(first, second) {
        return match rest_of(out, marked)? {
            Some(piece) => out.write_after(line, first, piece, second),
            None => Ok(()),
        };
    }
    let head = text_of(marked.head());
    if second.starts_with(head) && !head.is_empty() {
        return out.write_after(line, first, marked.operation(), second);
    }
    if marked.is_of("SKIP") && second.starts_with("JUMP ") && second.ends_with(" goes anywhere") {
        return propose_far(out, marked, first);
    }
    Ok(())
}

/// Whether a statement puts a number into a register, and a base and a displacement of 0 are that register's.
fn is_pointer(first: &str, second: &str) -> bool {
    match (first.strip_prefix("LIT "), second.strip_suffix(", 0")) {
        (Some(written), Some(base)) => match written.split_once(", ") {
            Some((register, _)) => register == base,
            None => false,
        },
        _ => false,
    }
}

/// Proposes a JUMP with the condition of a SKIP that does not reach so far.
fn propose_far(out: &mut Proposals, marked: &Marked, first: &str) -> Result<(), AllocError> {
    let operands = operands_of(out.alloc(), marked.operation())?;
    let [condition, code, _] = operands.as_slice() else {
        return Ok(());
    };
    let text = format!(in out.alloc(); "JUMP {}, {}, t1", text_of(*condition), text_of(*code))?;
    out.write_after(&marked.line, first, marked.operation(), text.as_str())
}
