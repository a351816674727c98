//! Cures that write an operation, its name or a directive anew.

use crate::marked::Marked;
use crate::pieces::{end_of, operands_of, split_head, text_of, trimmed};
use crate::proposals::Proposals;
use asm_line::Fault;
use fault_messages::Token;
use std::alloc::AllocError;

/// Proposes what `write ..`, `did you mean ..` and the like say of an operation, a directive or a word.
pub(crate) fn propose_statement(out: &mut Proposals, marked: &Marked) -> Result<(), AllocError> {
    if is_of_count(marked) {
        propose_whole(out, marked)
    } else if let Some((_, meant)) = marked.help.split_once("did you mean ") {
        propose_meant(out, marked, meant)
    } else if let Some(known) = marked.help.strip_prefix("it may have .") {
        propose_suffix(out, marked, known)
    } else if marked.help == "it has none" {
        propose_name(out, marked, text_of(marked.head().cut(b'.').0))
    } else if let Some(text) = marked.help.strip_prefix("write ") {
        propose_written(out, marked, text)
    } else {
        propose_other_part(out, marked)
    }
}

/// Whether a message says how many operands there are.
fn is_of_count(marked: &Marked) -> bool {
    marked.number == Some(Fault::Operand.number()) && marked.words.contains(", and has ")
}

/// Proposes the whole operation that a message about a count has: `write ADD r1, r1, 1`, `write QUIT alone`.
fn propose_whole(out: &mut Proposals, marked: &Marked) -> Result<(), AllocError> {
    let help = marked.help;
    let help = help
        .strip_prefix("commas stand between operands: ")
        .unwrap_or(help);
    let Some(text) = help.strip_prefix("write ") else {
        return Ok(());
    };
    let text = match text.split_once(" for the word ") {
        Some((front, _)) => front,
        None => text.strip_suffix(" alone").unwrap_or(text),
    };
    if text.starts_with(text_of(marked.head())) {
        out.write(&marked.line, marked.operation(), text)
    } else {
        Ok(())
    }
}

/// Proposes what is meant: a directive for the head, the operation of another line with its suffix, or a word for the mark.
fn propose_meant(out: &mut Proposals, marked: &Marked, meant: &str) -> Result<(), AllocError> {
    match meant.strip_suffix("?") {
        Some(name) if name.starts_with(".") => propose_name(out, marked, name),
        Some(name) if !name.contains(" ") => out.write(&marked.line, marked.mark, name),
        Some(_) | None => Ok(()),
    }
}

/// Proposes the one suffix that an operation may have, and then none.
fn propose_suffix(out: &mut Proposals, marked: &Marked, known: &str) -> Result<(), AllocError> {
    let name = text_of(marked.head().cut(b'.').0);
    if known.len() == 1 {
        let text = format!(in out.alloc(); "{name}.{known}")?;
        propose_name(out, marked, text.as_str())?;
        propose_name(out, marked, name)?;
    }
    Ok(())
}

/// Proposes another name for the operation or directive at the mark.
fn propose_name(out: &mut Proposals, marked: &Marked, name: &str) -> Result<(), AllocError> {
    out.write(&marked.line, marked.head(), name)
}

/// Proposes what stands after `write`: another name, the order of two operations, or a word for the mark.
fn propose_written(out: &mut Proposals, marked: &Marked, text: &str) -> Result<(), AllocError> {
    if let Some((second, first)) = text.split_once(" before ") {
        return propose_order(out, marked, second, first);
    }
    if text.starts_with(".data and ") {
        return propose_name(out, marked, ".data");
    }
    if text == "0 for an empty word" || text == "1 for a full word" {
        return out.write(&marked.line, marked.mark, text.get(..1).unwrap_or(""));
    }
    if marked.number == Some(Fault::Unknown.number())
        && let Some(name) = name_written(text)
    {
        return propose_name(out, marked, name);
    }
    let text = match text.split_once(" for the word ") {
        Some((front, _)) => front,
        None => text,
    };
    if is_statement_of(text, text_of(marked.head())) {
        return out.write(&marked.line, marked.operation(), text);
    }
    Ok(())
}

/// Whether a text is a head with operands.
fn is_statement_of(text: &str, head: &str) -> bool {
    match text.strip_prefix(head) {
        Some(operands) => operands.starts_with(" ") && !head.is_empty(),
        None => false,
    }
}

/// The operation that alone is to be written: `MUL`, `SHL, which ..`, `ADD: its ..`.
fn name_written(text: &str) -> Option<&str> {
    let name = match (text.split_once(", which "), text.split_once(": its ")) {
        (Some((name, _)), _) | (None, Some((name, _))) => name,
        (None, None) => text,
    };
    if name.starts_with(".") || name.contains(" ") {
        None
    } else {
        Some(name)
    }
}

/// Proposes two operations in the other order.
fn propose_order(
    out: &mut Proposals,
    marked: &Marked,
    second: &str,
    first: &str,
) -> Result<(), AllocError> {
    let Some((before, rest)) = marked.line.around_bar(marked.mark.start) else {
        return Ok(());
    };
    let after = trimmed(rest.cut(b'|').0);
    let before = match before.bytes.iter().rposition(|byte| *byte == b'|') {
        Some(bar) => trimmed(before.after(bar.saturating_add(1))),
        None => before,
    };
    let text = format!(in out.alloc(); "{} | {}", text_of(after), text_of(before))?;
    let both = marked
        .line
        .whole
        .after(before.start)
        .before(end_of(after).saturating_sub(before.start));
    if begins_with(after, second) && begins_with(before, first) {
        out.write(&marked.line, both, text.as_str())
    } else {
        Ok(())
    }
}

/// Whether a piece begins with a name.
fn begins_with(piece: Token, name: &str) -> bool {
    split_head(piece).0.cut(b'.').0.bytes == name.as_bytes()
}

/// Proposes the same operands for the operation that takes registers of the other kind, or that copies a register.
fn propose_other_part(out: &mut Proposals, marked: &Marked) -> Result<(), AllocError> {
    if marked.help.starts_with("TGET moves ") && marked.is_of("LIT") {
        propose_name(out, marked, "TLIT")
    } else if marked.help.starts_with("TSET moves ") && marked.is_of("TLIT") {
        propose_name(out, marked, "LIT")
    } else if marked.help.starts_with("JUMP ALWAYS, 0, ") && marked.is_of("SKIP") {
        propose_name(out, marked, "JUMP")
    } else if marked.help.starts_with("ADD with 0 copies ") && marked.is_of("LIT") {
        let operands = operands_of(out.alloc(), marked.operation())?;
        let [to, from] = operands.as_slice() else {
            return Ok(());
        };
        let text = format!(in out.alloc(); "ADD {}, {}, 0", text_of(*to), text_of(*from))?;
        out.write(&marked.line, marked.operation(), text.as_str())
    } else if marked.is_of("TSET") || marked.is_of("TGET") {
        propose_either(out, marked)
    } else {
        propose_moved(out, marked)
    }
}

/// Proposes for TSET and TGET the one that a sentence describes: the other one, or the operands in the other order.
fn propose_either(out: &mut Proposals, marked: &Marked) -> Result<(), AllocError> {
    let Some((name, _)) = marked.help.split_once(" moves a ") else {
        return Ok(());
    };
    if !marked.is_of(name) {
        return propose_name(out, marked, name);
    }
    let operands = operands_of(out.alloc(), marked.operation())?;
    let [first, second] = operands.as_slice() else {
        return Ok(());
    };
    let text = format!(in out.alloc(); "{name} {}, {}", text_of(*second), text_of(*first))?;
    out.write(&marked.line, marked.operation(), text.as_str())
}

/// Proposes the statement that moves a register: `TSET t1, r2 moves it ..`, `TGET r1, t2 moves it ..`.
fn propose_moved(out: &mut Proposals, marked: &Marked) -> Result<(), AllocError> {
    match marked.help.split_once(" moves it to a ") {
        Some((text, _)) => out.write(&marked.line, marked.operation(), text),
        None => Ok(()),
    }
}
