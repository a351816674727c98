//! The lines of a history.

ghost use Rattle.std.specs.Prelude.{◌≡◌, ◌+◌, ◌<◌, ◌≤◌, ◌++◌, length, IfOk, MatchResult, string_bytes};
ghost use Rattle.std.specs.String.{string_len, string_capacity};
ghost use Rattle.arrayvec.specs.ArrayString.{array_string_len};
ghost use Rattle.trace_text.specs.HistoryLines.{acc_number, history_line_of, masked_number, operation_column};
ghost use Rattle.trace_text.specs.HistoryLines.{operand_text, reference_text, reply_text, request_text};

use crate::trace_lines::add_place;
use arrayvec::ArrayString;
use processor::{Entry, Step};
use std::alloc::{AllocError, Global};
use stream_core::trap_of;
use tag_memory::{Acc, MemOp, Reply, Request, RequestMask};
use text_parts::{add_hexadecimal, add_two_digits};

/// The most bytes of a line.
const LINE: usize = 96;

/// The line of an entry in a history: its number, counted from 1, its processor and stream, what it asked of the
/// memory, and the reply ("Histories", docs/FORMATS.md).
pub fn history_line(alloc: Global, number: u64, entry: &Entry) -> Result<String, AllocError>
    ensures { IfOk result (λ text. string_bytes text ≡ history_line_of number entry.now) }
{
    let mut text = String::new(alloc);
    push_history_line(&mut text, number, entry)?;
    Ok(text)
}

/// Appends the line of an entry to a history. It fails only where the text has no room for it and memory is refused;
/// the text then stays as it was.
#[tactic(auto, unfolding(crate::specs::HistoryLines::history_line_of))]
pub fn push_history_line(text: &mut String, number: u64, entry: &Entry) -> Result<(), AllocError>
    ensures { MatchResult result
        (λ _. string_bytes text.new ≡ string_bytes text.old ++ history_line_of number entry.now)
        (λ _. (string_capacity text.old < string_len text.old + length (history_line_of number entry.now))
        × (string_bytes text.new ≡ string_bytes text.old)) }
{
    let step = Step {
        p: entry.p,
        s: entry.s,
    };
    let mut line = ArrayString::<LINE>::new();
    add_place(&mut line, number, step);
    add_request(&mut line, &entry.request);
    add_reply(&mut line, entry.reply);
    line.push_str("\n");
    text.push_str(line.as_str())
}

/// Appends what was asked of the memory.
fn add_request(line: &mut ArrayString<LINE>, request: &Request)
    requires { array_string_len line.old ≤ 29 }
    ensures bytes { line.new.bytes ≡ line.old.bytes ++ request_text request.now }
    ensures len { array_string_len line.new ≡ array_string_len line.old + 45 }
{
    add_reference(line, request);
    add_operand(line, request);
}

/// Appends the operation, the pointer and the access field.
fn add_reference(line: &mut ArrayString<LINE>, request: &Request)
    requires { array_string_len line.old ≤ 29 }
    ensures bytes { line.new.bytes ≡ line.old.bytes ++ reference_text request.now }
    ensures len { array_string_len line.new ≡ array_string_len line.old + 26 }
{
    line.push_str(operation_column(request.op));
    line.push_str(" ");
    add_hexadecimal::<16, LINE>(line, request.pointer.bits());
    line.push_str(" ");
    add_hexadecimal::<1, LINE>(line, u64::from(acc_number(request.acc)));
    line.push_str(" ");
}

/// Appends the value, and what is passed over.
fn add_operand(line: &mut ArrayString<LINE>, request: &Request)
    requires { array_string_len line.old ≤ 55 }
    ensures bytes { line.new.bytes ≡ line.old.bytes ++ operand_text request.now }
    ensures len { array_string_len line.new ≡ array_string_len line.old + 19 }
{
    add_hexadecimal::<16, LINE>(line, request.value);
    line.push_str(" ");
    add_hexadecimal::<1, LINE>(line, u64::from(masked_number(request.masked)));
    line.push_str(" ");
}

/// Appends what the memory replied.
#[tactic(auto, unfolding(crate::specs::HistoryLines::reply_text))]
fn add_reply(line: &mut ArrayString<LINE>, reply: Reply)
    requires { array_string_len line.old ≤ 74 }
    ensures bytes { line.new.bytes ≡ line.old.bytes ++ reply_text reply }
    ensures len { array_string_len line.new ≤ array_string_len line.old + 21 }
{
    match reply {
        Reply::Done(value) => {
            line.push_str("DONE ");
            add_hexadecimal::<16, LINE>(line, value);
        }
        Reply::Blocked(address) => {
            line.push_str("BLOCKED ");
            add_hexadecimal::<12, LINE>(line, address);
        }
        Reply::Trap(trap, address) => {
            line.push_str("TRAP ");
            add_two_digits(line, trap_of(trap).number());
            line.push_str(" ");
            add_hexadecimal::<12, LINE>(line, address);
        }
    }
}

/// The assembler's name of the operation, in six places.
#[tactic(auto, unfolding(crate::specs::HistoryLines::operation_column))]
fn operation_column(op: MemOp) -> &'static str
    ensures name { result.now ≡ operation_column op }
    ensures len { length result.now ≡ 6 }
{
    match op {
        MemOp::Load => "LOAD  ",
        MemOp::Store => "STORE ",
        MemOp::Fadd => "FADD  ",
        MemOp::TagGet => "TAGGET",
        MemOp::TagSet => "TAGSET",
        MemOp::Purge => "PURGE ",
    }
}

/// The access field as a number, 0 to 3.
#[tactic(auto, unfolding(crate::specs::HistoryLines::acc_number))]
fn acc_number(acc: Acc) -> u8
    ensures { result ≡ acc_number acc }
{
    match acc {
        Acc::FromPointer => 0,
        Acc::Normal => 1,
        Acc::Future => 2,
        Acc::Sync => 3,
    }
}

/// The trap bits that are passed over as a number, 0 to 3: trap0 counts 1 and trap1 counts 2.
fn masked_number(masked: RequestMask) -> u8
    ensures { result ≡ masked_number masked }
{
    u8::from(masked.trap0) + 2 * u8::from(masked.trap1)
}
