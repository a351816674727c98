//! Cures that add lines, or make several lines of one.

use crate::marked::Marked;
use crate::pieces::{end_of, is_text, operands_of, split_head, text_of, trimmed};
use crate::proposals::{INDENT, Proposals, added, replaced};
use crate::source_lines::SourceLine;
use editor_texts::TextEdit;
use fault_messages::Token;
use std::alloc::{AllocError, Global};

/// Proposes the line that a text lacks.
pub(crate) fn propose_line(out: &mut Proposals, marked: &Marked) -> Result<(), AllocError> {
    let alloc = out.alloc();
    if marked.help == "did you forget QUIT?" {
        let edit = line_after(alloc, marked.lines.text(), marked.line.end(), "QUIT")?;
        out.propose_one("add QUIT", edit)
    } else if marked.help == ".data 0 adds one" {
        let edit = last_line(alloc, marked.lines.text(), ".data 0")?;
        out.propose_one("add .data 0", edit)
    } else if let Some((front, _)) = marked.help.split_once(" on a line of its own")
        && let Some(directive) = front.strip_prefix("write .")
    {
        let text = format!(in alloc; "{INDENT}.{directive}\n")?;
        let edit = added(alloc, 0, text.as_str())?;
        let title = format!(in alloc; "add .{directive}")?;
        out.propose_one(title.as_str(), edit)
    } else {
        Ok(())
    }
}

/// The edit that adds a statement on a line of its own after the line that ends at a place.
fn line_after(
    alloc: Global,
    text: &[u8],
    end: usize,
    statement: &str,
) -> Result<TextEdit, AllocError> {
    if text.get(end) == Some(&b'\n') {
        let line = format!(in alloc; "{INDENT}{statement}\n")?;
        added(alloc, end.saturating_add(1), line.as_str())
    } else {
        let line = format!(in alloc; "\n{INDENT}{statement}")?;
        added(alloc, end, line.as_str())
    }
}

/// The edit that adds a statement on a line of its own after the last line.
fn last_line(alloc: Global, text: &[u8], statement: &str) -> Result<TextEdit, AllocError> {
    let line = match text.last() {
        Some(b'\n') | None => format!(in alloc; "{INDENT}{statement}\n")?,
        Some(_) => format!(in alloc; "\n{INDENT}{statement}")?,
    };
    added(alloc, text.len(), line.as_str())
}

/// Proposes several lines, or several words, in place of one.
pub(crate) fn propose_lines(out: &mut Proposals, marked: &Marked) -> Result<(), AllocError> {
    let help = marked.help;
    if help == "write it on a line of its own" {
        propose_own_line(out, marked)
    } else if help.starts_with("use two words")
        || help.starts_with("a word has one operation of each part")
        || help.starts_with("the code that .T makes here counts ")
    {
        propose_two_words(out, marked)
    } else if help.starts_with("the next operation stands on a line of its own") {
        propose_next(out, marked)
    } else if help.starts_with("write a .data line ")
        || help.starts_with("write an .entry line ")
        || help.starts_with("write a .word line ")
    {
        propose_line_each(out, marked)
    } else if help.starts_with("leave it out") {
        propose_left_out(out, marked)
    } else if help.starts_with(".word adds an instruction, and no data") {
        propose_data(out, marked)
    } else {
        Ok(())
    }
}

/// Proposes a line of its own for an operation between bars, or for a statement in a comment.
fn propose_own_line(out: &mut Proposals, marked: &Marked) -> Result<(), AllocError> {
    let alloc = out.alloc();
    let line = &marked.line;
    let body = line.body();
    let title = "write it on a line of its own";
    if marked.mark.start >= end_of(body) && !body.bytes.is_empty() {
        let indent = if marked.mark.bytes.contains(&b':') {
            ""
        } else {
            INDENT
        };
        let gap = between(line, end_of(body), marked.mark.start);
        let text = format!(in alloc; "\n{indent}")?;
        return out.propose_one(title, replaced(alloc, line, gap, text.as_str())?);
    }
    let mut edits = Vec::new(alloc);
    if let Some((before, after)) = line.around_bar(marked.mark.start) {
        edits.push(split_between(alloc, line, before, after)?)?;
    }
    let operation = marked.operation();
    let rest = line
        .statement()
        .after(end_of(operation).saturating_sub(line.statement().start));
    if let (_, Some(following)) = rest.cut(b'|') {
        edits.push(split_between(alloc, line, operation, trimmed(following))?)?;
    }
    out.propose(String::from_str(alloc, title)?, edits)
}

/// Proposes two words in place of the operations on both sides of the bar before the mark.
fn propose_two_words(out: &mut Proposals, marked: &Marked) -> Result<(), AllocError> {
    let alloc = out.alloc();
    match marked.line.around_bar(marked.mark.start) {
        Some((before, after)) => {
            let edit = split_between(alloc, &marked.line, before, after)?;
            out.propose_one("write two words", edit)
        }
        None => Ok(()),
    }
}

/// The edit that ends a line after a piece, and begins the next one with another piece.
fn split_between(
    alloc: Global,
    line: &SourceLine,
    before: Token,
    after: Token,
) -> Result<TextEdit, AllocError> {
    let gap = between(line, end_of(before), after.start);
    let text = format!(in alloc; "\n{INDENT}")?;
    replaced(alloc, line, gap, text.as_str())
}

/// The part of a line between two places.
fn between<'t>(line: &SourceLine<'t>, from: usize, to: usize) -> Token<'t> {
    line.whole.after(from).before(to.saturating_sub(from))
}

/// Proposes a line of its own, or a bar, before the operation that stands in the mark.
fn propose_next(out: &mut Proposals, marked: &Marked) -> Result<(), AllocError> {
    let alloc = out.alloc();
    let (operand, next) = split_head(marked.mark);
    let gap = between(&marked.line, end_of(operand), next.start);
    let text = format!(in alloc; "\n{INDENT}")?;
    let edit = replaced(alloc, &marked.line, gap, text.as_str())?;
    out.propose_one("write it on a line of its own", edit)?;
    let edit = replaced(alloc, &marked.line, gap, " | ")?;
    out.propose_one("write a bar before it", edit)
}

/// Proposes a line for each operand of a directive.
fn propose_line_each(out: &mut Proposals, marked: &Marked) -> Result<(), AllocError> {
    let alloc = out.alloc();
    let (head, operands) = split_head(marked.operation());
    let mut text = String::new(alloc);
    for operand in operands_of(alloc, marked.operation())? {
        if !text.is_empty() {
            text.push_str("\n")?;
            text.push_str(INDENT)?;
        }
        text.push_str(text_of(head))?;
        text.push_str(" ")?;
        text.push_str(text_of(operand))?;
    }
    let title = format!(in alloc; "write a line for each {}", text_of(head))?;
    let edit = replaced(alloc, &marked.line, marked.operation(), text.as_str())?;
    if operands.bytes.is_empty() {
        return Ok(());
    }
    out.propose_one(title.as_str(), edit)
}

/// Proposes to leave a statement out that is the only one of its line.
fn propose_left_out(out: &mut Proposals, marked: &Marked) -> Result<(), AllocError> {
    let body = marked.line.body();
    if body.bytes.contains(&b'|') {
        return Ok(());
    }
    let is_all = marked.line.label().is_none() && end_of(body) == marked.line.whole.bytes.len();
    let piece = if is_all { marked.line.whole } else { body };
    out.take_away(&marked.line, piece, "leave it out")
}

/// Proposes `.data` for each `.word` of the text.
fn propose_data(out: &mut Proposals, marked: &Marked) -> Result<(), AllocError> {
    let alloc = out.alloc();
    let mut edits = Vec::new(alloc);
    for number in 1..=marked.lines.count() {
        if let Some(line) = marked.lines.line(number) {
            let head = split_head(line.statement()).0;
            if is_text(head, ".word") {
                edits.push(replaced(alloc, &line, head, ".data")?)?;
            }
        }
    }
    out.propose(
        String::from_str(alloc, "write .data for each .word")?,
        edits,
    )
}
