//! What a stream holds, as JSON: of the numbers of its row (world_keys).

use replay_page::json_values::{Object, digits, text_value};
use serde_json::Value;
use std::alloc::{AllocError, Global};

/// How many registers a stream has.
const REGISTERS: usize = 32;

/// How many target registers a stream has.
const TARGETS: usize = 8;

/// The numbers of 64 bits after the registers and the targets: status word, trap register, retry count, and the status, which
/// is 1 if the stream runs, and above that one more than the number of the trap that stopped it.
const STATUS_WORD: usize = 40;

const TRAP_REGISTER: usize = 41;

const RETRIES: usize = 42;

const STATUS: usize = 43;

/// The bits of a t0 that names no handler.
const NO_HANDLER: u64 = 0xFFFF_FFFF;

/// Whether the stream of these numbers runs.
pub(crate) fn is_running(numbers: &[u32]) -> bool {
    word_at(numbers, STATUS) == 1
}

/// What the stream of these numbers holds: its status and its pc, and by their names all other parts that are not as
/// usual: zero, and of t0 that it names no handler.
pub(crate) fn content_json(alloc: Global, numbers: &[u32]) -> Result<Value, AllocError> {
    let mut content = Object::new(alloc);
    content.put("status", status_json(alloc, word_at(numbers, STATUS)));
    let word = word_at(numbers, STATUS_WORD);
    content.put_number("pc", word & 0xFFFF_FFFF);
    put_small(&mut content, "codes", word >> 32 & 0xFFFF);
    put_small(&mut content, "mask", word >> 48 & 7);
    put_small(&mut content, "trap", word >> 56 & 1);
    put_small(&mut content, "retries", word_at(numbers, RETRIES));
    put_large(alloc, &mut content, "xr", word_at(numbers, TRAP_REGISTER));
    put_registers(alloc, &mut content, numbers)?;
    put_targets(alloc, &mut content, numbers)?;
    content.whole()
}

/// A status: `idle`, `running`, or `stopped` and the number of the trap.
fn status_json(alloc: Global, status: u64) -> Result<Value, AllocError> {
    match status {
        0 => text_value(alloc, "idle"),
        1 => text_value(alloc, "running"),
        code => {
            let trap = code.saturating_sub(1);
            Ok(Value::String(format!(in alloc; "stopped {trap}")?))
        }
    }
}

/// Puts the registers that are not zero.
fn put_registers(alloc: Global, content: &mut Object, numbers: &[u32]) -> Result<(), AllocError> {
    for number in 0..REGISTERS {
        let name = format!(in alloc; "r{number}")?;
        put_large(alloc, content, &name, word_at(numbers, number));
    }
    Ok(())
}

/// Puts the targets that are not as usual.
fn put_targets(alloc: Global, content: &mut Object, numbers: &[u32]) -> Result<(), AllocError> {
    for number in 0..TARGETS {
        let target = word_at(numbers, REGISTERS + number);
        if target != usual_target(number) {
            let name = format!(in alloc; "t{number}")?;
            content.put(&name, digits(alloc, target));
        }
    }
    Ok(())
}

/// What a target register holds unless a program sets it, and a program without `.trap`.
fn usual_target(number: usize) -> u64 {
    if number == 0 { NO_HANDLER } else { 0 }
}

/// Puts a number of few bits, if it is not zero.
fn put_small(content: &mut Object, name: &str, number: u64) {
    if number != 0 {
        content.put_number(name, number);
    }
}

/// Puts a number of 64 bits as its decimal digits, if it is not zero.
fn put_large(alloc: Global, content: &mut Object, name: &str, number: u64) {
    if number != 0 {
        content.put(name, digits(alloc, number));
    }
}

/// The number of 64 bits at a place, of which there are two of 32, the lower first; 0 if there is none.
fn word_at(numbers: &[u32], place: usize) -> u64 {
    let low = numbers.get(place.saturating_mul(2)).copied().unwrap_or(0);
    let high = numbers
        .get(place.saturating_mul(2).saturating_add(1))
        .copied()
        .unwrap_or(0);
    u64::from(low) | u64::from(high) << 32
}
