//! Too many operands, or too few.

use crate::data_words::put_data_help;
use crate::examples::{put_example, shows_all};
use crate::form::OperandForm;
use crate::left_out::{label_to_go_to, put_address_help, with_left_out};
use crate::operand_notes::Taking;
use crate::operand_words::COMMENTS;
use crate::phrases::{put_count, put_operands};
use crate::pieces::{has_comment, pieces};
use crate::reader::Reader;
use asm_line::Fault;
use fault_messages::{Notes, Token, put_shown};
use plain_text::TextWriter;
use std::alloc::{AllocError, Global};

/// Notes that there are too many operands, or too few, with a statement that has as many as it takes.
pub(crate) fn note_count(
    notes: &mut Notes,
    reader: &Reader,
    taking: Taking,
    head: Token,
    operands: Token,
    pieces: &[Token],
) -> Result<(), AllocError> {
    put_count_words(&mut notes.words, taking, pieces.len());
    put_count_help(notes, reader, taking, head, operands, pieces)?;
    let marked = if operands.bytes.is_empty() {
        head
    } else {
        operands
    };
    notes.number(Fault::Operand.number());
    notes.add(reader.spot(marked))
}

/// Adds how many operands there are, and which are taken.
fn put_count_words(words: &mut TextWriter, taking: Taking, count: usize) {
    words.put(taking.name);
    words.put(" takes ");
    put_operands(words, taking.forms, taking.least);
    words.put(", and has ");
    put_count(words, count);
    words.put(" here");
}

/// Adds how to write the statement.
fn put_count_help(
    notes: &mut Notes,
    reader: &Reader,
    taking: Taking,
    head: Token,
    operands: Token,
    pieces: &[Token],
) -> Result<(), AllocError> {
    if has_comment(operands) {
        notes.help.put(COMMENTS);
        return Ok(());
    }
    for piece in pieces {
        if put_data_help(notes, reader, OperandForm::Base, piece.bytes)? {
            return Ok(());
        }
    }
    if let Some(words) = fixed_help(taking, operands, pieces.len()) {
        notes.help.put(words);
        return Ok(());
    }
    let words = blank_words(notes.alloc(), pieces)?;
    if put_address_help(&mut notes.help, reader, taking, head, &words)? {
        return Ok(());
    }
    put_statement(&mut notes.help, reader, taking, head, pieces.len(), &words)
}

/// What stands before a statement that is made of these words. It is an example alone if it leaves a word out.
fn opening_of(
    alloc: Global,
    reader: &Reader,
    taking: Taking,
    words: &[Token],
    lacks_commas: bool,
) -> Result<&'static str, AllocError> {
    let is_whole = shows_all(alloc, reader, taking.forms, words)?;
    Ok(match (is_whole, lacks_commas) {
        (true, true) => "commas stand between operands: write ",
        (true, false) => "write ",
        (false, true) => "commas stand between operands, as in ",
        (false, false) => "as in ",
    })
}

/// Adds a statement that has as many operands as it takes, where so many were written, of these words.
fn put_statement(
    help: &mut TextWriter,
    reader: &Reader,
    taking: Taking,
    head: Token,
    count: usize,
    words: &[Token],
) -> Result<(), AllocError> {
    let alloc = help.alloc();
    let label = label_to_go_to(alloc, reader, taking, words)?;
    let shown = with_left_out(alloc, reader, taking, words, label.is_some())?;
    match label {
        Some(label) => {
            help.put("TLIT t1, ");
            put_shown(help, label.bytes);
            help.put(" comes first, and then ");
        }
        None => {
            let lacks_commas = count < taking.least && words.len() > count;
            help.put(opening_of(alloc, reader, taking, &shown, lacks_commas)?);
        }
    }
    put_shown(help, head.bytes);
    put_example(help, reader, taking.forms, &shown)
}

/// What is said of operands that are written as on other machines, or of several values in one line of data.
fn fixed_help(taking: Taking, operands: Token, count: usize) -> Option<&'static str> {
    if let Some(words) = lines_help(taking)
        && count > taking.forms.len()
    {
        return Some(words);
    }
    if operands.bytes.contains(&b'(') || operands.bytes.contains(&b'[') {
        return Some(
            "the base and the words stand apart: r0, 1 is [8], and r2, 0 is where r2 points",
        );
    }
    None
}

/// What is said of several values of a directive that takes one, and may stand on many lines.
fn lines_help(taking: Taking) -> Option<&'static str> {
    if taking.name == ".data" {
        Some("write a .data line for each data word")
    } else if taking.name == ".entry" {
        Some("write an .entry line for each processor")
    } else if taking.name == ".word" {
        Some("write a .word line for each instruction word")
    } else {
        None
    }
}

/// The words of pieces that blanks separate.
fn blank_words<'t>(alloc: Global, written: &[Token<'t>]) -> Result<Vec<Token<'t>>, AllocError> {
    let mut words = Vec::new(alloc);
    for piece in written {
        for word in pieces(alloc, *piece, b' ')? {
            if !word.bytes.is_empty() {
                words.push(word)?;
            }
        }
    }
    Ok(words)
}
