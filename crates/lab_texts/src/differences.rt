//! In what two worlds differ.

use crate::changes::put_part;
use crate::names::ProgramNames;
use crate::notation::Notation;
use crate::run_pieces::RunPieces;
use crate::values::{NumberStyle, put_content, put_tags};
use changed_words::ChangedWord;
use machine::Machine;
use plain_text::TextWriter;
use std::alloc::AllocError;
use stream_waits::views::{Change, Place};

/// Adds a line for each word of the memory that is not the image's: what it was, what it is, and the comment of its
/// line.
pub fn push_differing_words<const S: usize>(
    out: &mut String,
    names: &ProgramNames,
    style: NumberStyle,
    machine: &Machine<'_, S>,
) -> Result<(), AllocError> {
    let mut text = TextWriter::take(out);
    put_differing_words(&mut text, names, style, machine);
    text.give_back(out)
}

/// Adds what [`push_differing_words`] does.
pub fn put_differing_words<const S: usize>(
    out: &mut TextWriter,
    names: &ProgramNames,
    style: NumberStyle,
    machine: &Machine<'_, S>,
) {
    for (index, cell) in machine.image().cells().iter().enumerate() {
        let address = index as u64 * 8;
        if let Some(after) = machine.word(address)
            && after != *cell
        {
            let before = *cell;
            let word = ChangedWord {
                address,
                before,
                after,
            };
            put_word_line(out, names, style, word);
        }
    }
}

/// Adds the line of a word that differs.
fn put_word_line(
    out: &mut TextWriter,
    names: &ProgramNames,
    style: NumberStyle,
    word: ChangedWord,
) {
    let address = word.address;
    put_word_change(out, names, style, word);
    names.put_comment(out, address);
    out.put("\n");
}

/// Adds words of the memory that are not as the image has them in one line, as `[0] 0 -> 4 (the sum), [8] 0 -> 2 (the max)`:
/// the comment of a line stands after the last of its words, after blanks where there is one word alone.
pub fn push_changed_words(
    out: &mut String,
    names: &ProgramNames,
    style: NumberStyle,
    words: &[ChangedWord],
) -> Result<(), AllocError> {
    let mut text = TextWriter::take(out);
    let mut last = None;
    for word in words {
        let address = word.address;
        put_between(&mut text, names, last, address);
        put_word_change(&mut text, names, style, *word);
        last = Some(address);
    }
    match last {
        Some(address) if words.len() == 1 => put_remark(&mut text, names, address),
        Some(address) => put_remark_in_brackets(&mut text, names, address),
        None => {}
    }
    text.give_back(out)
}

/// Adds what stands before the next word that differs: the comment of the word before it, where the two have not the
/// same, and a comma after what there is.
fn put_between(out: &mut TextWriter, names: &ProgramNames, before: Option<u64>, address: u64) {
    if let Some(before) = before
        && names.comment(before) != names.comment(address)
    {
        put_remark_in_brackets(out, names, before);
    }
    if out.len() > 0 {
        out.put(", ");
    }
}

/// Adds the comment of a word in brackets, as a line quotes it, where it has one.
fn put_remark_in_brackets(out: &mut TextWriter, names: &ProgramNames, address: u64) {
    let comment = names.remark(address);
    if !comment.is_empty() {
        out.put(" (");
        out.put_quoted(comment);
        out.put(")");
    }
}

/// Adds the comment of a word, as a line quotes it, where it has one.
fn put_remark(out: &mut TextWriter, names: &ProgramNames, address: u64) {
    let comment = names.remark(address);
    if !comment.is_empty() {
        out.put("   ");
        out.put_quoted(comment);
    }
}

/// Adds a word that differs: the value and, where they differ, the tags, before and after.
fn put_word_change(
    out: &mut TextWriter,
    names: &ProgramNames,
    style: NumberStyle,
    word: ChangedWord,
) {
    let ChangedWord {
        address,
        before,
        after,
    } = word;
    names.put_address(out, address);
    out.put(" ");
    let values = before.value() != after.value();
    let tags = before.tags() != after.tags();
    if values {
        out.put_value(style, before.value());
        out.put(" -> ");
        out.put_value(style, after.value());
    }
    if values && tags {
        out.put(", ");
    }
    if tags {
        put_tags(out, before.tags());
        out.put(" -> ");
        put_tags(out, after.tags());
    }
}

/// Adds places in which two worlds differ, a word's with its name, as `0.0.pc 1 | 0, [8] total 7 | 0`.
pub fn push_differences(
    out: &mut String,
    notation: Notation<'_, '_>,
    differences: &[Change],
) -> Result<(), AllocError> {
    let mut text = TextWriter::take(out);
    for (index, change) in differences.iter().enumerate() {
        if index > 0 {
            text.put(", ");
        }
        put_difference(&mut text, notation, change);
    }
    text.give_back(out)
}

/// Adds a place in which two worlds differ.
fn put_difference(out: &mut TextWriter, notation: Notation<'_, '_>, change: &Change) {
    put_place_name(out, notation.names, change.place);
    put_content(out, notation.style, change.before);
    out.put(" | ");
    put_content(out, notation.style, change.after);
}

/// Adds the name of a place, as `2.0.r5 ` and `[8] total `.
fn put_place_name(out: &mut TextWriter, names: &ProgramNames, place: Place) {
    match place {
        Place::Stream { p, s, part } => {
            out.put_stream(p, s);
            out.put(".");
            put_part(out, part);
        }
        Place::Current { p } => put_count_name(out, p, " streams "),
        Place::Reserved { p } => put_count_name(out, p, " slots "),
        Place::Value { address } | Place::Tags { address } => {
            names.put_address(out, address);
            out.put(" ");
        }
    }
}

/// Adds the name of a processor's count.
fn put_count_name(out: &mut TextWriter, p: u8, name: &str) {
    out.put_number(u64::from(p));
    out.put(name);
}
