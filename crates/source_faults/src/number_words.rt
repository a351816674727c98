//! Numbers that are written as on other machines.

use crate::form::OperandForm;
use crate::operand_notes::Taken;
use crate::reader::Reader;
use crate::references::{LAST_LITERAL, free_register, is_register};
use fault_messages::put_shown;
use plain_text::TextWriter;
use text_parts::{Base, Number, read_digits};

/// Adds what to write for an operand of this form that looks like a number, and answers whether it looks like one.
pub(crate) fn put_number_help(
    help: &mut TextWriter,
    reader: &Reader,
    taken: Taken,
    operand: &[u8],
) -> bool {
    put_marked_help(help, reader, taken, operand)
        || put_hexadecimal_help(help, hexadecimal_digits(operand))
        || put_binary_help(help, operand)
        || put_letter_help(help, operand)
        || put_hexadecimal_help(help, operand)
        || put_fixed_help(help, operand)
}

/// Adds what to write for decimal digits with a mark before them, and answers whether the operand is such.
fn put_marked_help(help: &mut TextWriter, reader: &Reader, taken: Taken, operand: &[u8]) -> bool {
    let digits = operand.get(1..).unwrap_or(b"");
    if !are_decimal(digits) {
        return false;
    }
    match operand.first() {
        Some(b'-') => put_negative_help(help, reader, taken, digits),
        Some(b'#' | b'$' | b'=' | b'+') => {
            put_written(help, "a number stands alone: write ", digits)
        }
        _ => return false,
    }
    true
}

/// What are the digits of a hexadecimal number of other machines, with a mark before or after them; none where it has none.
fn hexadecimal_digits(operand: &[u8]) -> &[u8] {
    let length = operand.len();
    let digits = if operand.starts_with(b"0X") {
        operand.get(2..)
    } else if operand.starts_with(b"$") {
        operand.get(1..)
    } else if operand.ends_with(b"h") || operand.ends_with(b"H") {
        operand.get(..length.saturating_sub(1))
    } else {
        None
    };
    digits.unwrap_or(b"")
}

/// Adds how hexadecimal digits are written, and answers whether these are such.
fn put_hexadecimal_help(help: &mut TextWriter, digits: &[u8]) -> bool {
    let are = are_hexadecimal(digits);
    if are {
        put_written(help, "hexadecimal begins with 0x: write 0x", digits);
    }
    are
}

/// Adds what to write for a number in binary digits, and answers whether the operand is one.
fn put_binary_help(help: &mut TextWriter, operand: &[u8]) -> bool {
    if !operand.starts_with(b"0b") && !operand.starts_with(b"0B") {
        return false;
    }
    match binary(operand.get(2..).unwrap_or(b"")) {
        Some(number) => {
            help.put("numbers are decimal or hexadecimal: write ");
            help.put_number(number);
            true
        }
        None => false,
    }
}

/// The number that at most 64 binary digits say.
fn binary(digits: &[u8]) -> Option<u64> {
    if digits.is_empty() || digits.len() > 64 {
        return None;
    }
    let mut number = 0u64;
    for digit in digits {
        if *digit != b'0' && *digit != b'1' {
            return None;
        }
        number = number.wrapping_mul(2) | u64::from(*digit & 1);
    }
    Some(number)
}

/// Adds what to write for a letter between two quotation marks, and answers whether the operand is one.
fn put_letter_help(help: &mut TextWriter, operand: &[u8]) -> bool {
    let letter = operand.get(1).copied().unwrap_or(0);
    let is = operand.len() == 3 && operand.starts_with(b"'") && operand.ends_with(b"'");
    if is {
        help.put("write the number of the letter, ");
        help.put_number(u64::from(letter));
    }
    is
}

/// Adds what is said of a text in quotation marks, or of digits with others among them, and answers whether it is one.
fn put_fixed_help(help: &mut TextWriter, operand: &[u8]) -> bool {
    let begins_digits = matches!(operand.first(), Some(b'0'..=b'9'));
    let words = if operand.starts_with(b"\"") {
        "there are no texts: write a number"
    } else if begins_digits && operand.contains(&b'.') {
        "numbers are whole"
    } else if begins_digits && operand.contains(&b'_') {
        "a number has digits alone"
    } else {
        return false;
    };
    help.put(words);
    true
}

/// Adds words, and a piece of the text after them.
fn put_written(help: &mut TextWriter, words: &str, digits: &[u8]) {
    help.put(words);
    put_shown(help, digits);
}

/// Adds what to write for a number with a minus before these digits.
fn put_negative_help(help: &mut TextWriter, reader: &Reader, taken: Taken, digits: &[u8]) {
    help.put("no sign may stand here");
    let name = taken.taking.name;
    match (taken.form, decimal(digits)) {
        (OperandForm::Source, Some(number)) if number < 32 && (name == "ADD" || name == "SUB") => {
            put_written(help, ": SUB subtracts ", digits);
            help.put(", ADD adds it");
        }
        (OperandForm::Source, Some(number)) if number <= LAST_LITERAL => {
            let register = free_register(reader);
            put_negated(help, register.as_bytes(), digits);
            put_written(help, " put -", digits);
            help.put_all(&[" into ", register]);
        }
        (OperandForm::Value, Some(number)) if number <= LAST_LITERAL && name == "LIT" => {
            put_negated(help, first_register(taken), digits)
        }
        (OperandForm::Word, Some(number)) => {
            help.put(": write 0x");
            help.put_capital_digits(0u64.wrapping_sub(number));
        }
        _ => {}
    }
}

/// Adds how a register becomes the number below 0 with these digits.
fn put_negated(help: &mut TextWriter, register: &[u8], digits: &[u8]) {
    put_written(help, ": LIT ", register);
    put_written(help, ", ", digits);
    put_written(help, " and then SUB ", register);
    put_written(help, ", r0, ", register);
}

/// The register that the statement begins with; r1 where it begins with none.
fn first_register<'a>(taken: Taken<'a>) -> &'a [u8] {
    match taken.operands {
        [first, ..] if is_register(first.bytes) => first.bytes,
        _ => b"r1",
    }
}

/// The number of at most 64 bits that decimal digits say, perhaps with a plus before them.
pub(crate) fn decimal(text: &[u8]) -> Option<u64> {
    let signs = if text.starts_with(b"+") { 1 } else { 0 };
    match read_digits(Base::Decimal, text.get(signs..)?)? {
        Number::Word(number) => Some(number),
        Number::TooLarge => None,
    }
}

/// The number of at most 64 bits that decimal digits say, or hexadecimal ones after 0x.
pub(crate) fn written_number(text: &[u8]) -> Option<u64> {
    let number = if text.starts_with(b"0x") {
        read_digits(Base::Hexadecimal, text.get(2..)?)?
    } else {
        read_digits(Base::Decimal, text)?
    };
    match number {
        Number::Word(number) => Some(number),
        Number::TooLarge => None,
    }
}

fn are_decimal(digits: &[u8]) -> bool {
    read_digits(Base::Decimal, digits).is_some()
}

fn are_hexadecimal(digits: &[u8]) -> bool {
    digits.len() >= 2 && read_digits(Base::Hexadecimal, digits).is_some()
}

/// Whether a text is hexadecimal digits, the letters among them in capitals.
pub(crate) fn are_capital_digits(text: &[u8]) -> bool {
    for byte in text {
        if byte.is_ascii_lowercase() {
            return false;
        }
    }
    are_hexadecimal(text)
}
