//! What `debug` shows of a world.

use crate::debug_points::is_named_word;
use crate::debug_repl::{DebugRepl, ENDS_HERE, refuse};
use named_session::{UserName, read_name};
use printed_lines::parts::LabFault;
use printed_lines::parts::texts::{
    NumberStyle, ProgramNames, RunPieces, TextWriter, plural, turned_word, wanted_word,
};
use processor::Step;
use step_views::{Content, Place, StreamPart};
use waiting::{Wait, running_streams};

/// How many program words `list` shows before and after the stream's.
const AROUND: u32 = 4;

/// What is said of a stream that the program does not have.
pub(crate) const NO_STREAM: &str = "there is no such stream\n";

impl<'a, 'i, 't, const S: usize> DebugRepl<'a, 'i, 't, S> {
    /// Adds the session's position and the step that comes there.
    pub(crate) fn put_where(&self, out: &mut TextWriter) {
        let session = &self.named.session;
        put_position(out, session.position(), session.schedule().len());
        match session.next_step() {
            Some(step) if !self.has(step) => {
                out.put("; next ");
                out.put_stream(step.p, step.s);
                out.put(": ");
                out.put(NO_STREAM);
            }
            Some(step) if self.is_idle(step) => {
                out.put("; next ");
                out.put_stream(step.p, step.s);
                out.put(", which does not run\n");
            }
            Some(step) => {
                out.put("; next ");
                self.put_stream_line(step, out);
            }
            None => {
                out.put("; ");
                out.put(ENDS_HERE);
            }
        }
    }

    /// Adds a stream, where it stands, and the instruction there, with the line's end; of one that is not started, or has
    /// quit, that it does not run.
    pub(crate) fn put_stream_line(&self, step: Step, out: &mut TextWriter) {
        if self.is_idle(step) {
            put_idle(step, out);
            return;
        }
        out.put_stream(step.p, step.s);
        if let Some(pc) = self.named.pc(step.p, step.s) {
            let line = match self.named.line(step.p, step.s) {
                Some(line) => line.number.saturating_add(1),
                None => 0,
            };
            put_code(out, self.names, pc, line);
        }
        out.put("\n");
    }

    /// Adds streams, points, who waits, or the registers of a stream.
    pub(crate) fn info(&self, rest: &str, out: &mut TextWriter) -> Result<(), LabFault> {
        let (what, of) = match rest.split_once(' ') {
            Some((what, of)) => (what, of.trim()),
            None => (rest, ""),
        };
        match (what, of) {
            ("points" | "breakpoints" | "break" | "b", "") => return self.put_points(out),
            ("streams" | "threads", "") => return self.put_streams(out),
            ("waiting", "") => return self.put_waits(out),
            ("registers" | "r", _) => match self.stream_of(of) {
                Some(step) => self.put_registers(step, out),
                None => out.put("info registers takes a stream, as 2.0\n"),
            },
            _ => out.put("info takes streams, points, waiting or registers\n"),
        }
        Ok(())
    }

    /// Adds the streams that run.
    fn put_streams(&self, out: &mut TextWriter) -> Result<(), LabFault> {
        for stream in running_streams(self.alloc, self.named.session.machine())?.iter() {
            self.put_stream_line(*stream, out);
        }
        Ok(())
    }

    /// Adds the streams that wait.
    fn put_waits(&self, out: &mut TextWriter) -> Result<(), LabFault> {
        for stream in running_streams(self.alloc, self.named.session.machine())?.iter() {
            if let Some(wait) = self.named.wait(stream.p, stream.s) {
                put_wait(out, self.names, *stream, wait);
                out.put("\n");
            }
        }
        Ok(())
    }

    /// Adds what stands in a place.
    pub(crate) fn print(&self, rest: &str, out: &mut TextWriter) -> Result<(), LabFault> {
        match read_name(rest) {
            Some(UserName::Word(address)) => {
                let _ = self.put_memory_word(address, out);
            }
            Some(UserName::Register { stream, register }) => {
                let step = stream.unwrap_or(self.stream_here());
                self.put_register(step, register, out);
            }
            Some(UserName::Stream(step)) => self.put_registers(step, out),
            None if rest.is_empty() => self.put_registers(self.stream_here(), out),
            _ => return self.print_named(rest, out),
        }
        Ok(())
    }

    /// Adds the word that a text without brackets, or with a name in them, says.
    fn print_named(&self, text: &str, out: &mut TextWriter) -> Result<(), LabFault> {
        match self.names.address_of(text) {
            Some(address) => {
                let _ = self.put_memory_word(address, out);
            }
            None if is_named_word(text) && !text.contains(' ') => {
                return self.put_no_address(text, out);
            }
            None => out.put(
                "print takes a register, a stream or a word, as r1, 2.0.r1, 2.0 or [8]\n",
            ),
        }
        Ok(())
    }

    /// Adds a register of a stream.
    fn put_register(&self, step: Step, register: u8, out: &mut TextWriter) {
        let place = Place::Stream {
            p: step.p,
            s: step.s,
            part: StreamPart::Register(register),
        };
        match self.named.value(place) {
            Some(Content::Number(number)) if self.has(step) => {
                put_named_register(out, step, register, number)
            }
            _ => out.put(NO_STREAM),
        }
    }

    /// Adds the program around a stream, with a mark at its place.
    pub(crate) fn list(&self, rest: &str, out: &mut TextWriter) {
        let Some(step) = self.stream_of(rest) else {
            out.put("list takes a stream, as 2.0\n");
            return;
        };
        match self.named.pc(step.p, step.s) {
            Some(_) if !self.has(step) => out.put(NO_STREAM),
            Some(_) if self.is_idle(step) => put_idle(step, out),
            Some(pc) => put_around(out, self.names, self.columns.place, pc),
            None => out.put(NO_STREAM),
        }
    }

    /// Adds why a stream waits, and which step left the word so; of a register or a word why it holds what it holds.
    pub(crate) fn why(&self, rest: &str, out: &mut TextWriter) -> Result<(), LabFault> {
        let Some(step) = self.stream_of(rest) else {
            return self.put_reason(rest, out);
        };
        if !self.has(step) {
            out.put(NO_STREAM);
            return Ok(());
        }
        let Some(wait) = self.named.wait(step.p, step.s) else {
            out.put_stream(step.p, step.s);
            out.put(" does not wait\n");
            return Ok(());
        };
        put_wait(out, self.names, step, wait);
        match self.named.last_turn(wait.address) {
            Ok(turn) => {
                put_turn(out, self.named.session.schedule(), wait, turn);
                Ok(())
            }
            Err(fault) => refuse(fault, out),
        }
    }
}

/// Adds a position of a schedule of so many steps.
fn put_position(out: &mut TextWriter, position: u64, steps: usize) {
    out.put("after ");
    out.put_number(position);
    out.put(" of ");
    out.put_number(steps as u64);
    out.put(" step");
    out.put(plural(steps));
}

/// Adds that a stream does not run.
pub(crate) fn put_idle(step: Step, out: &mut TextWriter) {
    out.put_stream(step.p, step.s);
    out.put(" does not run\n");
}

/// Adds the place and the instruction of a program word, which stands on this line; 0 where it stands on none.
fn put_code(out: &mut TextWriter, names: &ProgramNames<'_>, word: u32, line: usize) {
    out.put(" at ");
    names.put_place(out, word);
    if line > 0 {
        out.put(", line ");
        out.put_number(line as u64);
    }
    out.put(": ");
    names.put_statement(out, word);
}

/// Adds what a stream waits for.
fn put_wait(out: &mut TextWriter, names: &ProgramNames<'_>, step: Step, wait: Wait) {
    out.put_stream(step.p, step.s);
    out.put(" waits for ");
    names.put_address(out, wait.address);
    out.put(" to be ");
    out.put(wanted_word(wait.wanted));
}

/// Adds which step of a schedule left a word as it is, the one to this position; None where none did.
fn put_turn(out: &mut TextWriter, schedule: &[Step], wait: Wait, turn: Option<u64>) {
    let Some(position) = turn else {
        out.put("; it never was\n");
        return;
    };
    out.put("; step ");
    out.put_number(position);
    if let Some(by) = schedule.get(position.saturating_sub(1) as usize) {
        out.put(", of ");
        out.put_stream(by.p, by.s);
    }
    out.put(", ");
    out.put(turned_word(wait.wanted));
    out.put(" it last\n");
}

/// Adds a register of a stream, and the number in it.
fn put_named_register(out: &mut TextWriter, step: Step, register: u8, number: u64) {
    out.put_stream(step.p, step.s);
    out.put(".r");
    out.put_number(u64::from(register));
    out.put(" ");
    out.put_value(NumberStyle::Decimal, number);
    out.put("\n");
}

/// Adds the program around a word, with a mark at it; places take so many bytes.
fn put_around(out: &mut TextWriter, names: &ProgramNames<'_>, width: usize, pc: u32) {
    let end = pc
        .saturating_add(AROUND)
        .saturating_add(1)
        .min(names.words());
    for word in pc.saturating_sub(AROUND)..end {
        out.put(if word == pc { "> " } else { "  " });
        put_program_line(out, names, width, word);
    }
}

/// Adds the line, the place and the instruction of a program word.
fn put_program_line(out: &mut TextWriter, names: &ProgramNames<'_>, width: usize, word: u32) {
    out.put_right(names.line(word) as u64, 5);
    out.put("  ");
    let begin = out.len();
    names.put_place(out, word);
    out.pad(begin, width);
    out.put("  ");
    names.put_statement(out, word);
    out.put("\n");
}
