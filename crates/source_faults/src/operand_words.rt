//! The words for an operand that has a fault.

use crate::foreign_names::foreign_condition;
use crate::form::OperandForm;
use crate::left_out::put_based_help;
use crate::nearest::nearest_of;
use crate::number_words::{are_capital_digits, decimal, put_number_help};
use crate::operand_notes::Taken;
use crate::operations::{nearest_condition, operation_named};
use crate::phrases::put_meant;
use crate::pieces::{has_comment, split_head};
use crate::reader::Reader;
use crate::references::{ADDRESSES, is_register, is_target};
use fault_messages::{Notes, Token, put_shown};
use plain_text::TextWriter;
use std::alloc::AllocError;

/// What begins a comment.
pub(crate) const COMMENTS: &str = "a comment begins with ;";

/// Adds that an operand is out of its limits.
pub(crate) fn put_range_words(
    words: &mut TextWriter,
    reader: &Reader,
    taken: Taken,
    operand: &[u8],
) {
    put_shown(words, operand);
    match (taken.form, reader.place_of(operand)) {
        (OperandForm::Distance, Some(place)) => put_distance(words, reader.here(), place.value),
        (OperandForm::Entry, Some(_)) => words.put(" is after the last instruction line"),
        (OperandForm::Entry, None) => {
            words.put(" is past the program, whose words are numbered from 0 to ");
            words.put_number(reader.words().saturating_sub(1) as u64);
        }
        (form, _) => {
            words.put(" is out of range: ");
            taken.put_name(words);
            words.put(" is ");
            words.put(form.limits());
        }
    }
}

/// Adds how far a label is from a word, with the limits of SKIP.
fn put_distance(words: &mut TextWriter, here: usize, value: usize) {
    let (far, direction) = distance(here, value);
    words.put(" is ");
    words.put_number(far as u64);
    words.put_all(&[
        " words ",
        direction,
        ", and SKIP reaches 128 on or 127 back",
    ]);
}

/// How many words a label is from a word, and in which direction.
fn distance(here: usize, value: usize) -> (usize, &'static str) {
    if here < value {
        (value - here, "on")
    } else {
        (here - value, "back")
    }
}

/// Adds how to reach what an operand of this form can't say, if anything is said of that.
pub(crate) fn put_range_help(help: &mut TextWriter, reader: &Reader, taken: Taken, operand: &[u8]) {
    match taken.form {
        OperandForm::Source => help.put("LIT puts a greater number into a register"),
        OperandForm::Displacement => put_displacement_help(help, operand),
        OperandForm::Value => help.put("LITH sets the 32 high bits of a register"),
        OperandForm::Entry => help.put("a processor begins at an instruction line"),
        OperandForm::Distance if reader.place_of(operand).is_some() => {
            put_far_help(help, taken.operands, operand)
        }
        _ => {}
    }
}

/// Adds how to go to a label that SKIP with these operands does not reach.
fn put_far_help(help: &mut TextWriter, operands: &[Token], label: &[u8]) {
    help.put("TLIT t1, ");
    put_shown(help, label);
    help.put(" and then JUMP ");
    match operands {
        [condition, code, ..] => {
            put_shown(help, condition.bytes);
            help.put(", ");
            put_shown(help, code.bytes);
        }
        _ => help.put("ALWAYS, 0"),
    }
    help.put(", t1 goes anywhere");
}

/// Adds what to write for a displacement that counts bytes.
fn put_displacement_help(help: &mut TextWriter, operand: &[u8]) {
    help.put("words are counted, and not bytes");
    match decimal(operand) {
        Some(bytes) if bytes % 8 == 0 && bytes <= 248 => {
            help.put(": ");
            help.put_number(bytes);
            help.put(" bytes are ");
            help.put_number(bytes / 8);
            help.put(" words");
        }
        _ => {}
    }
}

/// Adds what to write for an operand that is none of this form.
pub(crate) fn put_form_help(
    help: &mut TextWriter,
    reader: &Reader,
    taken: Taken,
    operand: Token,
) -> Result<(), AllocError> {
    if let Some(words) = joined_help(operand) {
        help.put(words);
    } else if reader.place_of(operand.bytes).is_some() {
        put_label_help(help, taken, operand.bytes);
    } else if !put_written_help(help, reader, taken, operand.bytes)? {
        help.put(advice(taken.form, operand.bytes));
    }
    Ok(())
}

/// What to write where an operand has a comment, the next operation in it, or a suffix.
fn joined_help(operand: Token) -> Option<&'static str> {
    if has_comment(operand) {
        return Some(COMMENTS);
    }
    let behind = split_head(operand).1;
    if operand.bytes.contains(&b'&') {
        return Some("a bar | stands between two operations of a word");
    }
    if operation_named(behind.cut(b'.').0.bytes).is_some() {
        return Some("the next operation stands on a line of its own, or after a bar |");
    }
    match operand.bytes {
        [b'.', _, b' ', ..] => Some("no blank stands before a suffix"),
        _ => None,
    }
}

/// Adds what to write where a label stands that may not.
fn put_label_help(help: &mut TextWriter, taken: Taken, label: &[u8]) {
    match taken.form {
        OperandForm::Register | OperandForm::Base | OperandForm::Source => {
            help.put("LIT puts the value of a label into a register")
        }
        OperandForm::Target => put_target_help(help, taken, label),
        form => help.put(form.advice()),
    }
}

/// Adds what to write for a label where a target register belongs. CALL goes to its first one, and returns by the other.
fn put_target_help(help: &mut TextWriter, taken: Taken, label: &[u8]) {
    if taken.taking.name == "TSET" {
        help.put(taken.form.advice());
        return;
    }
    let back = link_of(taken);
    let target = if matches!(back, b"t1") { "t2" } else { "t1" };
    help.put_all(&["TLIT ", target, ", "]);
    put_shown(help, label);
    help.put(" comes first, and then ");
    if back.is_empty() {
        help.put("t1; SKIP takes a label itself");
    } else {
        help.put_all(&["CALL ", target, ", "]);
        put_shown(help, back);
    }
}

/// The target register that a CALL has beside the operand; nothing where it has none.
fn link_of<'a>(taken: Taken<'a>) -> &'a [u8] {
    match taken.operands {
        [first, second] if taken.taking.name == "CALL" => {
            let other = if taken.place == 0 {
                second.bytes
            } else {
                first.bytes
            };
            if is_target(other) { other } else { b"" }
        }
        _ => b"",
    }
}

/// Adds what to write for an operand of this form that is written as on other machines, and answers whether it is.
fn put_written_help(
    help: &mut TextWriter,
    reader: &Reader,
    taken: Taken,
    operand: &[u8],
) -> Result<bool, AllocError> {
    Ok(match taken.form {
        OperandForm::Condition => {
            put_condition_help(help, operand)?;
            true
        }
        OperandForm::Base => put_base_help(help, reader, taken, operand)?,
        OperandForm::Register | OperandForm::Target => false,
        _ => put_number_help(help, reader, taken, operand),
    })
}

/// Adds what to write for an address where a register belongs, and answers whether the operand is one.
fn put_base_help(
    help: &mut TextWriter,
    reader: &Reader,
    taken: Taken,
    operand: &[u8],
) -> Result<bool, AllocError> {
    match decimal(operand) {
        Some(address) if address % 8 != 0 => {
            help.put(ADDRESSES);
            Ok(true)
        }
        _ => put_based_help(help, reader, taken.head, taken.operands),
    }
}

/// What to write in place of a text that is no label.
fn advice(form: OperandForm, operand: &[u8]) -> &'static str {
    match (form, operand) {
        (OperandForm::Register | OperandForm::Base | OperandForm::Source, [b'R', ..]) =>
            "registers have a small r",
        (OperandForm::Register | OperandForm::Base, [b't', ..]) => {
            "TGET moves a target register to a register; TLIT sets one"
        }
        (OperandForm::Register | OperandForm::Base | OperandForm::Source, [b'r', b'0', _, ..]) => {
            "registers have no zeros in front"
        }
        (OperandForm::Register, [b'0'..=b'9', ..]) => {
            "LIT puts a number into a register; r0 is always 0"
        }
        (OperandForm::Target, [b'r', ..]) => {
            "TSET moves a register to a target register; LIT sets a register"
        }
        (OperandForm::Target, [b'T', ..]) => "target registers have a small t",
        (OperandForm::Tags, b"empty") => "write 0 for an empty word",
        (OperandForm::Tags, b"full") => "write 1 for a full word",
        (
            OperandForm::Value | OperandForm::Pc | OperandForm::Entry | OperandForm::Distance,
            [b'A'..=b'Z' | b'a'..=b'z', ..],
        ) => { "a label has letters, digits and _, at most 32 of them" }
        _ => form.advice(),
    }
}

/// Adds which condition may be meant.
fn put_condition_help(help: &mut TextWriter, operand: &[u8]) -> Result<(), AllocError> {
    if let Some(name) = foreign_condition(operand) {
        help.put_all(&["did you mean ", name, "?"]);
    } else if let Some(name) = nearest_condition(help.alloc(), operand)? {
        put_meant(help, name);
    } else {
        help.put(OperandForm::Condition.advice());
    }
    Ok(())
}

/// Adds what may be meant by a label that stands on no line.
pub(crate) fn put_missing_label_help(
    notes: &mut Notes,
    reader: &Reader,
    taken: Taken,
    name: &[u8],
) -> Result<(), AllocError> {
    if is_target(name) && taken.taking.name == "SKIP" {
        put_jump_help(&mut notes.help, name);
        return Ok(());
    }
    if is_target(name) || is_register(name) {
        put_copied_help(&mut notes.help, taken, name);
        return Ok(());
    }
    match nearest_label(notes, reader, name)? {
        Some(label) => put_meant(&mut notes.help, label),
        None => put_no_label_help(&mut notes.help, name),
    }
    Ok(())
}

/// Adds what to write for a register or a target register where a label belongs: how it is copied, if that may be meant.
fn put_copied_help(help: &mut TextWriter, taken: Taken, name: &[u8]) {
    let copies = taken.taking.name == "LIT" || taken.taking.name == "TLIT";
    let first = match taken.operands {
        [first, ..] if copies => first.bytes,
        _ => b"",
    };
    match (is_register(first), is_register(name)) {
        (true, true) => {
            put_copy(help, "ADD with 0 copies a register: ADD ", first, name);
            help.put(", 0");
        }
        (true, false) => {
            put_copy(help, "TGET ", first, name);
            help.put(" moves it to a register");
        }
        (false, true) if is_target(first) => {
            put_copy(help, "TSET ", first, name);
            help.put(" moves it to a target register");
        }
        _ => help.put("write a number or a label, and no register"),
    }
}

/// Adds an operation with two operands.
fn put_copy(help: &mut TextWriter, operation: &str, first: &[u8], second: &[u8]) {
    help.put(operation);
    put_shown(help, first);
    help.put(", ");
    put_shown(help, second);
}

/// Adds how a stream goes where a target register says, which stands where SKIP has a label.
fn put_jump_help(help: &mut TextWriter, name: &[u8]) {
    help.put("JUMP ALWAYS, 0, ");
    put_shown(help, name);
    help.put(" goes where ");
    put_shown(help, name);
    help.put(" says");
}

/// Adds how a name is written that is near no label.
fn put_no_label_help(help: &mut TextWriter, name: &[u8]) {
    if are_capital_digits(name) {
        help.put("hexadecimal begins with 0x: write 0x");
        put_shown(help, name);
    } else {
        help.put("write ");
        put_shown(help, name);
        help.put(": before the instruction that it names");
    }
}

/// The label that is nearest to a name, if one is near enough and few were looked for.
fn nearest_label<'t>(
    notes: &mut Notes,
    reader: &Reader<'_, 't>,
    name: &[u8],
) -> Result<Option<&'t [u8]>, AllocError> {
    if !notes.may_suggest() {
        return Ok(None);
    }
    nearest_of(notes.alloc(), name, reader.names())
}
