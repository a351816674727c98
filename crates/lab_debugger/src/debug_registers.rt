//! The registers and the words that `debug` shows.

use crate::debug_points::is_named_word;
use crate::debug_repl::DebugRepl;
use crate::debug_shows::NO_STREAM;
use printed_lines::parts::LabFault;
use printed_lines::parts::texts::{NumberStyle, TextWriter, put_stream_part, put_word};
use processor::Step;
use step_views::{Content, Place, StreamPart};

/// The most words that `x` shows.
const MOST_WORDS: u64 = 256;

/// The parts of a stream beside its registers, its pc and its status.
const STATES: [StreamPart; 5] = [
    StreamPart::Codes,
    StreamPart::Mask,
    StreamPart::InTrap,
    StreamPart::TrapRegister,
    StreamPart::Retries,
];

impl<'a, 'i, 't, const S: usize> DebugRepl<'a, 'i, 't, S> {
    /// Adds where a stream stands, and all its registers.
    pub(crate) fn put_registers(&self, step: Step, out: &mut TextWriter) {
        if !self.has(step) {
            out.put(NO_STREAM);
            return;
        }
        self.put_stream_line(step, out);
        let mut count: usize = 0;
        for number in 0..32 {
            count = self.put_if_set(step, StreamPart::Register(number), count, out);
        }
        put_others(count, "r is 0\n", out);
        count = 0;
        for number in 0..8 {
            count = self.put_if_set(step, StreamPart::Target(number), count, out);
        }
        put_others(count, "t is 0\n", out);
        self.put_states(step, &STATES, out);
    }

    /// Adds a register of a stream that is not 0, after so many others, and counts it.
    fn put_if_set(
        &self,
        step: Step,
        part: StreamPart,
        count: usize,
        out: &mut TextWriter,
    ) -> usize {
        match self.named.value(place_of(step, part)) {
            Some(content) if !is_zero(content) => {
                out.put(if count == 0 { "" } else { ", " });
                put_stream_part(out, self.names, NumberStyle::Decimal, part, content);
                count.saturating_add(1)
            }
            _ => count,
        }
    }

    /// Adds other parts of a stream.
    fn put_states(&self, step: Step, parts: &[StreamPart], out: &mut TextWriter) {
        for (index, part) in parts.iter().enumerate() {
            if let Some(content) = self.named.value(place_of(step, *part)) {
                out.put(if index == 0 { "" } else { ", " });
                put_stream_part(out, self.names, NumberStyle::Decimal, *part, content);
            }
        }
        out.put("\n");
    }

    /// Adds so many words as the size after `x/` says, from a byte address on.
    pub(crate) fn examine(
        &self,
        size: &str,
        rest: &str,
        out: &mut TextWriter,
    ) -> Result<(), LabFault> {
        match self.names.address_of(rest) {
            Some(first) => self.put_words(first, words_of(size).min(MOST_WORDS), out),
            None if is_named_word(rest) && !rest.contains(' ') => {
                return self.put_no_address(rest, out);
            }
            None => out.put("x takes a byte address, as x 8, or x/4 8 for 4 words\n"),
        }
        Ok(())
    }

    /// Adds so many words from a byte address on, up to an address at which there is none.
    fn put_words(&self, first: u64, count: u64, out: &mut TextWriter) {
        for index in 0..count {
            let address = first.saturating_add(index.saturating_mul(8));
            if !self.put_memory_word(address, out) {
                break;
            }
        }
    }

    /// Adds the word at a byte address, and says whether there is one.
    pub(crate) fn put_memory_word(&self, address: u64, out: &mut TextWriter) -> bool {
        let Some(word) = self.named.session.machine().word(address) else {
            out.put("there is no word at this address\n");
            return false;
        };
        self.names.put_address(out, address);
        out.put(" ");
        put_word(out, NumberStyle::Decimal, word);
        out.put("\n");
        true
    }
}

/// A part of a stream.
fn place_of(step: Step, part: StreamPart) -> Place {
    Place::Stream {
        p: step.p,
        s: step.s,
        part,
    }
}

/// Whether a register holds 0.
fn is_zero(content: Content) -> bool {
    match content {
        Content::Number(number) => number == 0,
        Content::Target(word) => word.bits() == 0,
        _ => false,
    }
}

/// Adds that the registers that were not added are 0, with the line's end.
fn put_others(count: usize, words: &str, out: &mut TextWriter) {
    out.put(if count == 0 {
        "every "
    } else {
        "; every other "
    });
    out.put(words);
}

/// How many words a size asks for, by the digits with which it begins; 1 where it has none.
fn words_of(size: &str) -> u64 {
    let mut count: u64 = 0;
    for byte in size.bytes() {
        if !byte.is_ascii_digit() {
            break;
        }
        let digit = u64::from(byte.saturating_sub(b'0'));
        count = count.saturating_mul(10).saturating_add(digit);
    }
    count.max(1)
}
