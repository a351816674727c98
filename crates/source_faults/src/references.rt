//! How references reach addresses.

use crate::reader::Reader;
use fault_messages::{Token, put_shown};
use plain_text::TextWriter;

/// The last address that a displacement reaches from r0.
const LAST_REACHED: u64 = 248;

/// The first address that no memory has.
const END_OF_MEMORY: u64 = 2_097_152;

/// The last number that LIT puts into a register.
pub(crate) const LAST_LITERAL: u64 = 4_294_967_295;

/// What is said of a number that is no address.
pub(crate) const ADDRESSES: &str =
    "an address is a multiple of 8: data words are at [0], [8], [16] and so on";

/// The registers of which a cure takes the first that the line does not name.
const FREE: [&str; 7] = ["r2", "r1", "r3", "r4", "r5", "r6", "r7"];

/// A register that the statement of the line does not name, for a number that comes before it.
pub(crate) fn free_register(reader: &Reader) -> &'static str {
    let statement = reader.line().statement().bytes;
    for register in FREE.iter() {
        if !names(statement, register.as_bytes()) {
            return *register;
        }
    }
    "r8"
}

/// Whether a statement has the name of a register.
fn names(statement: &[u8], register: &[u8]) -> bool {
    for place in 0..statement.len() {
        let rest = statement.get(place..).unwrap_or(b"");
        let next = rest.get(register.len()).copied().unwrap_or(b' ');
        if rest.starts_with(register) && !next.is_ascii_digit() {
            return true;
        }
    }
    false
}

/// Adds how an operation with a register reaches the word at an address: by itself, or after a line that makes a pointer.
pub(crate) fn put_reference(
    help: &mut TextWriter,
    reader: &Reader,
    head: Token,
    register: Token,
    address: u64,
) {
    if address >= END_OF_MEMORY {
        help.put("a memory has at most 262144 data words: mend the address");
        return;
    }
    if address <= LAST_REACHED {
        help.put("write ");
        put_reached(help, head, register.bytes, address);
        return;
    }
    let pointer = free_register(reader);
    help.put_all(&["LIT ", pointer, ", "]);
    help.put_number(address);
    help.put(" and then ");
    put_shown(help, head.bytes);
    help.put(" ");
    put_shown(help, register.bytes);
    help.put_all(&[", ", pointer, ", 0"]);
    put_word(help, address);
}

/// Adds an operation with a register that reaches an address from r0.
pub(crate) fn put_reached(help: &mut TextWriter, head: Token, register: &[u8], address: u64) {
    put_shown(help, head.bytes);
    help.put(" ");
    put_shown(help, register);
    help.put(", r0, ");
    help.put_number(address / 8);
    put_word(help, address);
}

/// Adds which word is meant.
fn put_word(help: &mut TextWriter, address: u64) {
    help.put(" for the word [");
    help.put_number(address);
    help.put("]");
}

/// Whether an address is one that a displacement reaches from r0.
pub(crate) fn is_reached(address: u64) -> bool {
    address % 8 == 0 && address <= LAST_REACHED
}

/// Whether a text is the name of a register.
pub(crate) fn is_register(text: &[u8]) -> bool {
    matches!(
        text,
        [b'r', b'0'..=b'9'] | [b'r', b'1'..=b'2', b'0'..=b'9'] | [b'r', b'3', b'0'..=b'1']
    )
}

/// Whether a text is the name of a target register.
pub(crate) fn is_target(text: &[u8]) -> bool {
    matches!(text, [b't', b'0'..=b'7'])
}
