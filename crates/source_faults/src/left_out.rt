//! Operands that are left out, and what is meant without them.

use crate::form::OperandForm;
use crate::number_words::written_number;
use crate::operand_notes::Taking;
use crate::reader::Reader;
use crate::references::{ADDRESSES, LAST_LITERAL, is_reached, put_reached, put_reference};
use fault_messages::Token;
use plain_text::TextWriter;
use std::alloc::{AllocError, Global};

/// The last displacement of a reference.
const LAST_DISPLACEMENT: u64 = 31;

/// The forms of operands that are names too.
const NAMED: [OperandForm; 3] = [
    OperandForm::Register,
    OperandForm::Target,
    OperandForm::Condition,
];

/// The operands that are written, with one that they leave out: an arithmetic operation with a register and a last operand
/// works on that register, as ADD r2, r2, 1, and SKIP with a number alone goes so many words by the newest code. In place of
/// the label, if there is one, stands t1.
pub(crate) fn with_left_out<'t>(
    alloc: Global,
    reader: &Reader,
    taking: Taking,
    words: &[Token<'t>],
    has_label: bool,
) -> Result<Vec<Token<'t>>, AllocError> {
    if is_turned(alloc, reader, taking, words)? {
        return turned(alloc, words);
    }
    let works_on_first = words.len() == 2
        && is_arithmetic(taking)
        && begins_with(alloc, reader, OperandForm::Register, words)?;
    let lacks_code = lacks_code(alloc, reader, taking, words)?;
    let mut shown = Vec::new(alloc);
    for (place, word) in words.iter().enumerate() {
        let is_last = place.saturating_add(1) == words.len();
        if is_last && lacks_code {
            shown.push(Token::of_line(b"0"))?;
        }
        if is_last && has_label {
            shown.push(Token::of_line(b"t1"))?;
        } else {
            shown.push(*word)?;
        }
        if works_on_first && place == 0 {
            shown.push(*word)?;
        }
    }
    Ok(shown)
}

/// Whether a number stands before the register of an operation whose operands may change places.
fn is_turned(
    alloc: Global,
    reader: &Reader,
    taking: Taking,
    words: &[Token],
) -> Result<bool, AllocError> {
    let [number, register] = words else {
        return Ok(false);
    };
    let may_change = matches!(taking.name, "ADD" | "MUL" | "AND" | "OR" | "XOR");
    Ok(
        may_change
            && written_number(number.bytes).is_some()
            && fits(alloc, reader, OperandForm::Source, *number)?
            && fits(alloc, reader, OperandForm::Register, *register)?,
    )
}

/// The register of a number and a register, twice, and then the number.
fn turned<'t>(alloc: Global, words: &[Token<'t>]) -> Result<Vec<Token<'t>>, AllocError> {
    let mut shown = Vec::new(alloc);
    if let [number, register] = words {
        shown.push(*register)?;
        shown.push(*register)?;
        shown.push(*number)?;
    }
    Ok(shown)
}

/// Whether SKIP has how many words it goes, above 0, and no code before it.
fn lacks_code(
    alloc: Global,
    reader: &Reader,
    taking: Taking,
    words: &[Token],
) -> Result<bool, AllocError> {
    if taking.name != "SKIP" {
        return Ok(false);
    }
    match words {
        [distance] => Ok(is_above_zero(distance.bytes)),
        [condition, distance] => Ok(
            is_above_zero(distance.bytes)
                && fits(alloc, reader, OperandForm::Condition, *condition)?,
        ),
        _ => Ok(false),
    }
}

/// Whether an operand is a number above 0.
fn is_above_zero(operand: &[u8]) -> bool {
    match written_number(operand) {
        Some(number) => number > 0,
        None => false,
    }
}

/// Whether these are the operands of an arithmetic operation.
fn is_arithmetic(taking: Taking) -> bool {
    matches!(
        taking.forms,
        [
            OperandForm::Register,
            OperandForm::Register,
            OperandForm::Source
        ]
    )
}

/// Whether these are the operands of a reference.
fn is_reference(taking: Taking) -> bool {
    matches!(
        taking.forms,
        [
            OperandForm::Register,
            OperandForm::Base,
            OperandForm::Displacement
        ]
    )
}

/// Whether the first of some words may stand as an operand of this form.
fn begins_with(
    alloc: Global,
    reader: &Reader,
    form: OperandForm,
    words: &[Token],
) -> Result<bool, AllocError> {
    match words.first() {
        Some(word) => fits(alloc, reader, form, *word),
        None => Ok(false),
    }
}

/// Whether a word may stand as an operand of this form.
fn fits(
    alloc: Global,
    reader: &Reader,
    form: OperandForm,
    word: Token,
) -> Result<bool, AllocError> {
    Ok(reader.operand_fault(alloc, form, word.bytes)?.is_none())
}

/// The label that stands last among the operands of CALL, CREATE or JUMP, which go to a target register.
pub(crate) fn label_to_go_to<'t>(
    alloc: Global,
    reader: &Reader,
    taking: Taking,
    words: &[Token<'t>],
) -> Result<Option<Token<'t>>, AllocError> {
    let goes = taking.name == "CALL" || taking.name == "CREATE" || taking.name == "JUMP";
    let Some(word) = words.last() else {
        return Ok(None);
    };
    let lacks_operands = words.len() < taking.least;
    if !goes || !lacks_operands || !reader.may_be_label(word.bytes) {
        return Ok(None);
    }
    for form in NAMED.iter() {
        if fits(alloc, reader, *form, *word)? {
            return Ok(None);
        }
    }
    Ok(Some(*word))
}

/// Adds how a reference reaches an address that stands in place of base and displacement, or where its numbers stand, and
/// answers whether there are such numbers.
pub(crate) fn put_address_help(
    help: &mut TextWriter,
    reader: &Reader,
    taking: Taking,
    head: Token,
    words: &[Token],
) -> Result<bool, AllocError> {
    if !is_reference(taking) {
        return Ok(false);
    }
    if put_based_help(help, reader, head, words)? {
        return Ok(true);
    }
    match register_and_address(help.alloc(), reader, words)? {
        Some((register, operand)) => Ok(put_addressed_help(
            help,
            reader,
            head,
            register,
            operand.bytes,
        )),
        None => put_numbers_help(help, reader, taking, head, words),
    }
}

/// Adds how a reference is written whose base is an address, and answers whether it is one, between a register and a
/// displacement.
pub(crate) fn put_based_help(
    help: &mut TextWriter,
    reader: &Reader,
    head: Token,
    operands: &[Token],
) -> Result<bool, AllocError> {
    let [register, base, displacement, ..] = operands else {
        return Ok(false);
    };
    let alloc = help.alloc();
    if !fits(alloc, reader, OperandForm::Register, *register)?
        || !fits(alloc, reader, OperandForm::Displacement, *displacement)?
    {
        return Ok(false);
    }
    match address_after(base.bytes, displacement.bytes) {
        Some(address) if address % 8 == 0 => {
            put_reference(help, reader, head, *register, address);
            Ok(true)
        }
        _ => Ok(false),
    }
}

/// The address so many words after an address; None where one of them is no number, or it is below 0.
fn address_after(address: &[u8], displacement: &[u8]) -> Option<u64> {
    let address = written_number(address)?;
    match displacement {
        [b'-', digits @ ..] => address.checked_sub(written_number(digits)?.checked_mul(8)?),
        _ => address.checked_add(written_number(displacement)?.checked_mul(8)?),
    }
}

/// The register among the operands of a reference without base and displacement, and the other one, which may be an
/// address: in either order, or r1 and the one that stands alone. None where there are others.
fn register_and_address<'t>(
    alloc: Global,
    reader: &Reader,
    words: &[Token<'t>],
) -> Result<Option<(Token<'t>, Token<'t>)>, AllocError> {
    match words {
        [alone] => Ok(Some((Token::of_line(b"r1"), *alone))),
        [first, second] => {
            if fits(alloc, reader, OperandForm::Register, *first)? {
                Ok(Some((*first, *second)))
            } else if may_be_address(first.bytes)
                && fits(alloc, reader, OperandForm::Register, *second)?
            {
                Ok(Some((*second, *first)))
            } else {
                Ok(None)
            }
        }
        _ => Ok(None),
    }
}

/// Whether an operand is a multiple of 8, or below 0.
fn may_be_address(operand: &[u8]) -> bool {
    match written_number(operand) {
        Some(number) => number % 8 == 0,
        None => is_below_zero(operand),
    }
}

/// Whether an operand is a number with a minus.
fn is_below_zero(operand: &[u8]) -> bool {
    match operand {
        [b'-', digits @ ..] => written_number(digits).is_some(),
        _ => false,
    }
}

/// Adds how an operation with a register reaches the address that an operand is, or so many words, and answers whether it
/// is a number.
fn put_addressed_help(
    help: &mut TextWriter,
    reader: &Reader,
    head: Token,
    register: Token,
    operand: &[u8],
) -> bool {
    if is_below_zero(operand) {
        help.put("no address is below 0: the first data word is [0]");
        return true;
    }
    match written_number(operand) {
        Some(address) if address % 8 == 0 => put_reference(help, reader, head, register, address),
        Some(words) if words <= LAST_DISPLACEMENT => {
            put_reference(help, reader, head, register, words.saturating_mul(8))
        }
        Some(_) => help.put(ADDRESSES),
        None => return false,
    }
    true
}

/// Adds where the numbers of a reference stand that begins with a number and has no address for a register, and answers
/// whether it does.
fn put_numbers_help(
    help: &mut TextWriter,
    reader: &Reader,
    taking: Taking,
    head: Token,
    words: &[Token],
) -> Result<bool, AllocError> {
    let [first, second] = words else {
        return Ok(false);
    };
    let Some(number) = written_number(first.bytes) else {
        return Ok(false);
    };
    let other = written_number(second.bytes);
    if other.is_none() && !fits(help.alloc(), reader, OperandForm::Register, *second)? {
        return Ok(false);
    }
    if taking.name == "LOAD" || taking.name == "TAGGET" {
        help.put("the register stands first, as in ");
        put_reached(help, head, b"r1", 8);
    } else {
        put_value_help(help, head, number, other);
    }
    Ok(true)
}

/// Adds that the value of a reference stands in a register: with these numbers if one of them alone may be an address.
fn put_value_help(help: &mut TextWriter, head: Token, number: u64, other: Option<u64>) {
    help.put("the value stands in a register");
    let (opening, value, address) = match other {
        Some(other) if is_reached(number) && is_literal(other) => (": LIT r1, ", other, number),
        Some(other) if is_reached(other) && is_literal(number) => (": LIT r1, ", number, other),
        _ => (", as in LIT r1, ", 5, 8),
    };
    help.put(opening);
    help.put_number(value);
    help.put(" and then ");
    put_reached(help, head, b"r1", address);
}

/// Whether a number is no address, and LIT puts it into a register.
fn is_literal(number: u64) -> bool {
    number % 8 != 0 && number <= LAST_LITERAL
}
