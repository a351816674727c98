//! Numbers, streams, tags and traps as people read them.

use crate::run_pieces::RunPieces;
use crate::waits::full_word;
use bitflags::Flags;
use plain_text::TextWriter;
use processor::Step;
use std::alloc::AllocError;
use stream_core::{Code, Codes, Status, TrapKind, TrapMask};
use stream_waits::views::Content;
use tag_memory::{Tags, Word};

/// How numbers are shown.
#[derive(Clone, Copy, Debug, PartialEq, Eq)]
pub enum NumberStyle {
    /// In decimal digits; those within 2^32 of 2^64 as the negative ones that are meant.
    Decimal,
    /// In hexadecimal digits after `0x`.
    Hexadecimal,
}

/// Adds a number.
pub fn push_value(out: &mut String, style: NumberStyle, value: u64) -> Result<(), AllocError> {
    let mut text = TextWriter::take(out);
    text.put_value(style, value);
    text.give_back(out)
}

/// Adds the name of a stream, as `2.0`.
pub fn push_stream(out: &mut String, p: u8, s: u8) -> Result<(), AllocError> {
    let mut text = TextWriter::take(out);
    text.put_stream(p, s);
    text.give_back(out)
}

/// Adds a list of streams: `0.0`, `0.0 and 1.0`, `0.0, 0.1 and 1.0`.
pub(crate) fn put_streams(out: &mut TextWriter, streams: &[Step]) {
    for (index, stream) in streams.iter().enumerate() {
        if index > 0 {
            let is_last = index == streams.len() - 1;
            out.put(if is_last { " and " } else { ", " });
        }
        out.put_stream(stream.p, stream.s);
    }
}

/// Adds a trap's number and name: `trap 3, CREATE`.
pub fn push_trap(out: &mut String, trap: TrapKind) -> Result<(), AllocError> {
    let mut text = TextWriter::take(out);
    text.put_trap(trap);
    text.give_back(out)
}

/// The name of a trap.
pub(crate) fn trap_name(trap: TrapKind) -> &'static str {
    match trap {
        TrapKind::Program => "PROGRAM",
        TrapKind::Illegal => "ILLEGAL",
        TrapKind::Create => "CREATE",
        TrapKind::Pointer => "POINTER",
        TrapKind::Align => "ALIGN",
        TrapKind::Range => "RANGE",
        TrapKind::Trap0 => "TRAP0",
        TrapKind::Trap1 => "TRAP1",
        TrapKind::Forward => "FORWARD",
        TrapKind::Blocked => "BLOCKED",
    }
}

/// What a trap means.
pub(crate) fn trap_words(trap: TrapKind) -> &'static str {
    match trap {
        TrapKind::Program => "the pc is past the program's end",
        TrapKind::Illegal => "the word is no instruction",
        TrapKind::Create => "every reserved stream is in use",
        TrapKind::Pointer => "no reference may use this pointer",
        TrapKind::Align => "the address is no multiple of 8",
        TrapKind::Range => "there is no word at the address",
        TrapKind::Trap0 => "the word's trap0 bit is set",
        TrapKind::Trap1 => "the word's trap1 bit is set",
        TrapKind::Forward => "forwarded too often",
        TrapKind::Blocked => "tried too often",
    }
}

/// Adds a word's value and tags, as `0, full`.
pub fn push_word(out: &mut String, style: NumberStyle, word: Word) -> Result<(), AllocError> {
    let mut text = TextWriter::take(out);
    put_word(&mut text, style, word);
    text.give_back(out)
}

/// Adds what [`push_word`] does.
pub fn put_word(out: &mut TextWriter, style: NumberStyle, word: Word) {
    out.put_value(style, word.value());
    out.put(", ");
    put_tags(out, word.tags());
}

/// Adds tags: whether full or empty, and the other bits that are set.
pub(crate) fn put_tags(out: &mut TextWriter, tags: Tags) {
    out.put(full_word(tags.contains(Tags::FULL)));
    if tags.contains(Tags::FORWARD) {
        out.put(" forward");
    }
    if tags.contains(Tags::TRAP0) {
        out.put(" trap0");
    }
    if tags.contains(Tags::TRAP1) {
        out.put(" trap1");
    }
}

/// Adds condition codes, the newest first: the letters of the bits that are set, a dash for a code without any.
fn put_codes(out: &mut TextWriter, codes: Codes) {
    put_code(out, codes.newest);
    out.put(" ");
    put_code(out, codes.second);
    out.put(" ");
    put_code(out, codes.third);
    out.put(" ");
    put_code(out, codes.oldest);
}

/// Adds one condition code.
fn put_code(out: &mut TextWriter, code: Code) {
    if code == Code::NONE {
        out.put("-");
    }
    if code.zero {
        out.put("Z");
    }
    if code.negative {
        out.put("N");
    }
    if code.carry {
        out.put("C");
    }
    if code.overflow {
        out.put("V");
    }
}

/// Adds a trap mask: the traps that it disables.
fn put_mask(out: &mut TextWriter, mask: TrapMask) {
    if mask == TrapMask::NONE {
        out.put("none");
        return;
    }
    if mask.trap0 {
        out.put("TRAP0 ");
    }
    if mask.trap1 {
        out.put("TRAP1 ");
    }
    if mask.blocked {
        out.put("BLOCKED ");
    }
    out.put("disabled");
}

/// Adds what stands in a place.
pub(crate) fn put_content(out: &mut TextWriter, style: NumberStyle, content: Content) {
    match content {
        Content::Number(number) => out.put_value(style, number),
        Content::Codes(codes) => put_codes(out, codes),
        Content::Mask(mask) => put_mask(out, mask),
        Content::InTrap(is) => out.put(if is { "yes" } else { "no" }),
        Content::Status(status) => put_status(out, status),
        Content::Target(word) => put_target(out, word.bits()),
        Content::Tags(tags) => put_tags(out, tags),
    }
}

/// Adds the bits of a target register.
fn put_target(out: &mut TextWriter, bits: u64) {
    if bits == 0 {
        out.put("0");
    } else {
        out.put_bits(bits);
    }
}

/// Adds a stream's status.
fn put_status(out: &mut TextWriter, status: Status) {
    match status {
        Status::Idle => out.put("idle"),
        Status::Running => out.put("running"),
        Status::Stopped(trap) => {
            out.put("stopped by ");
            out.put_trap(trap);
        }
    }
}
