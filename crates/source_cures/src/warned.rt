//! Cures of what is likely not meant.

use crate::marked::Marked;
use crate::pieces::{end_of, is_text, operands_of, split_head, text_of};
use crate::proposals::{Proposals, replaced};
use crate::references::address_in;
use crate::source_lines::SourceLine;
use fault_messages::Token;
use std::alloc::AllocError;

/// How many lines before a marked one are looked at.
const MOST_LINES_BEFORE: usize = 1_000;

/// Proposes what a sentence about a warning describes.
pub(crate) fn propose_warned(out: &mut Proposals, marked: &Marked) -> Result<(), AllocError> {
    let help = marked.help;
    if let Some((begun, line)) = help.split_once(" on line ") {
        return propose_on_line(out, marked, begun, line);
    }
    if let Some((_, meant)) = help.split_once("; or ")
        && let Some((names, _)) = meant.split_once(", which ")
    {
        return propose_names(out, marked, names);
    }
    if let Some(rest) = help.strip_prefix("displacements count words: ")
        && let Some((bytes, _)) = rest.split_once(" is ")
    {
        return propose_words(out, marked, bytes);
    }
    if let Some(rest) = help.strip_prefix("an address counts bytes: data word number ")
        && let Some((number, meant)) = rest.split_once(" is [")
    {
        return propose_pointer(out, marked, number, meant.strip_suffix("]").unwrap_or(""));
    }
    if let Some(address) = help.strip_prefix("the data on the label's line is at address ")
        && let Some((_, name)) = marked.words.split_once(" holds the label ")
        && let Some((name, _)) = name.split_once(", ")
    {
        return propose_pointer(out, marked, name, address);
    }
    Ok(())
}

/// Proposes the names of operations that `or` separates.
fn propose_names(out: &mut Proposals, marked: &Marked, names: &str) -> Result<(), AllocError> {
    for name in names.split(" or ") {
        out.write(&marked.line, marked.head(), name)?;
    }
    Ok(())
}

/// Proposes what a sentence says of another line: `.T` for its operation, or how its word of data begins; and then what else
/// is said of the marked operation.
fn propose_on_line(
    out: &mut Proposals,
    marked: &Marked,
    begun: &str,
    line: &str,
) -> Result<(), AllocError> {
    let (number, other) = match line.split_once("; or write ") {
        Some((number, other)) => (number, other),
        None => (line.strip_suffix("?").unwrap_or(line), ""),
    };
    let Ok(number) = number.parse::<usize>() else {
        return Ok(());
    };
    let Some(line) = marked.lines.line(number) else {
        return Ok(());
    };
    if let Some(name) = begun.strip_prefix("did you mean ") {
        return propose_tested(out, &line, name);
    }
    propose_begin(out, &line, begun, number)?;
    if other.is_empty() {
        Ok(())
    } else {
        out.write(&marked.line, marked.head(), other)
    }
}

/// Proposes a name with `.T` for the operation of a line that has it without.
fn propose_tested(out: &mut Proposals, line: &SourceLine, name: &str) -> Result<(), AllocError> {
    match tested_on(line, name) {
        Some(head) => out.write(line, head, name),
        None => Ok(()),
    }
}

/// The name, without `.T`, of the operation of a line that is meant with it.
pub(crate) fn tested_on<'t>(line: &SourceLine<'t>, name: &str) -> Option<Token<'t>> {
    let plain = name.strip_suffix(".T")?;
    let statement = line.statement();
    let mut column = statement.start;
    for _ in 0..3 {
        let operation = line.operation_at(column);
        let head = split_head(operation).0;
        if head.bytes == plain.as_bytes() {
            return Some(head);
        }
        let after = line.whole.after(end_of(operation));
        let (_, following) = after.cut(b'|');
        column = following?.start;
    }
    None
}

/// Proposes that the word of a line of data begins full, or empty.
fn propose_begin(
    out: &mut Proposals,
    line: &SourceLine,
    begun: &str,
    number: usize,
) -> Result<(), AllocError> {
    let alloc = out.alloc();
    let statement = line.statement();
    if !is_text(split_head(statement).0, ".data") {
        return Ok(());
    }
    let operands = operands_of(alloc, statement)?;
    let Some(value) = operands.first() else {
        return Ok(());
    };
    let value = text_of(*value);
    let text = if begun.contains("begin empty") {
        format!(in alloc; ".data {value}, 0")?
    } else {
        format!(in alloc; ".data {value}")?
    };
    let title = format!(in alloc; "write {text} on line {number}")?;
    let edit = replaced(alloc, line, statement, text.as_str())?;
    out.propose_one(title.as_str(), edit)
}

/// Proposes a displacement in words for one in bytes.
fn propose_words(out: &mut Proposals, marked: &Marked, bytes: &str) -> Result<(), AllocError> {
    let alloc = out.alloc();
    let operands = operands_of(alloc, marked.operation())?;
    match (address_in(bytes), operands.last()) {
        (Some(number), Some(last)) if number % 8 == 0 && text_of(*last) == bytes => {
            let words = number / 8;
            let text = format!(in alloc; "{words}")?;
            out.write(&marked.line, *last, text.as_str())
        }
        _ => Ok(()),
    }
}

/// Proposes an address where the last LIT before the marked reference puts a label or the number of a word into its base.
fn propose_pointer(
    out: &mut Proposals,
    marked: &Marked,
    written: &str,
    address: &str,
) -> Result<(), AllocError> {
    let alloc = out.alloc();
    let operands = operands_of(alloc, marked.operation())?;
    let Some(base) = operands.get(1) else {
        return Ok(());
    };
    match literal_before(out, marked, base.bytes)? {
        Some((line, number)) if number.bytes == written.as_bytes() => {
            out.write(&line, number, address)
        }
        Some(_) | None => Ok(()),
    }
}

/// The line and the number of the last LIT to a register before the marked line, among the lines that are looked at.
fn literal_before<'t>(
    out: &Proposals,
    marked: &Marked<'t>,
    base: &[u8],
) -> Result<Option<(SourceLine<'t>, Token<'t>)>, AllocError> {
    let first = marked.row.saturating_sub(MOST_LINES_BEFORE).max(1);
    let last = marked.row.saturating_sub(1);
    for number in (first..=last).rev() {
        let Some(line) = marked.lines.line(number) else {
            return Ok(None);
        };
        if is_text(split_head(line.statement()).0, "LIT") {
            let operands = operands_of(out.alloc(), line.statement())?;
            if let [register, number] = operands.as_slice()
                && register.bytes == base
            {
                return Ok(Some((line, *number)));
            }
        }
    }
    Ok(None)
}
