//! What a step changed, in words.

use crate::names::ProgramNames;
use crate::notation::Notation;
use crate::run_pieces::RunPieces;
use crate::values::{NumberStyle, put_content};
use plain_text::TextWriter;
use processor::Step;
use stream_core::{Outcome, Status, StatusWord};
use stream_waits::views::{Change, Content, Place, StepView, StreamPart};
use tag_memory::{MemOp, Reply};

/// What stands between two things that a step did.
const BETWEEN: &str = "; ";

/// The bits of a t0 that names no handler ("Traps", docs/MACHINE.md).
const NO_HANDLER: u64 = 0xFFFF_FFFF;

/// How the step's stream ended.
#[derive(Clone, Copy, PartialEq, Eq)]
enum Quit {
    /// It did not end.
    Not,
    /// It ended, and gave its place back.
    Whole,
    /// It ended, and its place is kept.
    KeepsPlace,
}

/// Adds what a step changed, after what stands there since `begin`. The place of the next line of the stream shows its
/// pc, if that is not the next word; its end stands for each part that became zero and for the counts, and a start for
/// the count of streams.
pub(crate) fn put_changes(
    out: &mut TextWriter,
    notation: Notation<'_, '_>,
    view: &StepView,
    begin: usize,
) {
    let quit = quit_of(view);
    match quit {
        Quit::Not => {}
        Quit::Whole => put_part_of(out, begin, "the stream ends"),
        Quit::KeepsPlace => put_part_of(out, begin, "the stream ends, its slot is kept"),
    }
    let writer = ChangeWriter {
        names: notation.names,
        style: notation.style,
        view,
        begin,
        has_ended: quit != Quit::Not,
    };
    for change in &view.changes {
        writer.put_change(out, change);
    }
}

/// Adds a part of a stream and what stands in it, as `r1 16` and `t0 no handler`.
pub fn put_stream_part(
    out: &mut TextWriter,
    names: &ProgramNames,
    style: NumberStyle,
    part: StreamPart,
    content: Content,
) {
    put_part(out, part);
    put_named_content(out, names, style, content);
}

/// Adds something that a step did, after what stands there since `begin`.
pub fn put_part_of(out: &mut TextWriter, begin: usize, text: &str) {
    if out.len() > begin {
        out.put(BETWEEN);
    }
    out.put(text);
}

/// How the step's stream ended.
fn quit_of(view: &StepView) -> Quit {
    let ended = view.changes.iter().any(|change| is_end(view.step, change));
    let gives_back = view.changes.iter().any(|change| change.place
        == Place::Reserved { p: view.step.p });
    match (ended, gives_back) {
        (false, _) => Quit::Not,
        (true, true) => Quit::Whole,
        (true, false) => Quit::KeepsPlace,
    }
}

/// Whether a change is the end of the stepping stream.
fn is_end(step: Step, change: &Change) -> bool {
    match change.place {
        Place::Stream {
            p,
            s,
            part: StreamPart::Status,
        } => step.p == p && step.s == s && change.after == Content::Status(Status::Idle),
        _ => false,
    }
}

/// The pc of a stream that a step started.
fn pc_after(view: &StepView, p: u8, s: u8) -> u32 {
    let place = Place::Stream {
        p,
        s,
        part: StreamPart::Pc,
    };
    match view.changes.iter().find(|change| change.place == place) {
        Some(change) => match change.after {
            Content::Number(pc) => word_at(pc),
            _ => 0,
        },
        None => 0,
    }
}

/// A pc, which has 32 bits, as the number of a program word.
fn word_at(pc: u64) -> u32 {
    u32::try_from(pc).unwrap_or(u32::MAX)
}

/// What is needed to write a change of a step.
#[derive(Clone, Copy)]
struct ChangeWriter<'a, 't> {
    names: &'a ProgramNames<'t>,
    style: NumberStyle,
    view: &'a StepView,
    begin: usize,
    /// Whether the step's stream ended.
    has_ended: bool,
}

impl ChangeWriter<'_, '_> {
    /// Adds a change.
    fn put_change(&self, out: &mut TextWriter, change: &Change) {
        match change.place {
            Place::Stream { p, s, part } => self.put_of_stream(out, Step { p, s }, part, change),
            Place::Current { .. } => {}
            Place::Reserved { p } => self.put_places(out, p, change),
            Place::Value { address } => self.put_memory(out, address, change),
            Place::Tags { address } => self.put_memory_tags(out, address, change),
        }
    }

    /// Adds a change of a stream.
    fn put_of_stream(&self, out: &mut TextWriter, stream: Step, part: StreamPart, change: &Change) {
        if stream != self.view.step {
            self.put_other(out, stream, part, change);
        } else if !self.has_ended {
            self.put_own(out, part, change);
        }
    }

    /// Adds a change of the stepping stream.
    fn put_own(&self, out: &mut TextWriter, part: StreamPart, change: &Change) {
        if part == StreamPart::Pc {
            self.put_jump(out, change.after);
            return;
        }
        put_part_of(out, self.begin, "");
        put_part(out, part);
        self.put_both(out, change);
    }

    /// Adds where the stream goes on, where that is not the next word.
    fn put_jump(&self, out: &mut TextWriter, content: Content) {
        let Content::Number(after) = content else {
            return;
        };
        if self.view.outcome != Outcome::Done || after != u64::from(self.view.pc) + 1 {
            put_part_of(out, self.begin, "to ");
            self.names.put_place(out, word_at(after));
        }
    }

    /// Adds a change of a stream that the step started; its pc stands after its name.
    fn put_other(&self, out: &mut TextWriter, stream: Step, part: StreamPart, change: &Change) {
        match part {
            StreamPart::Pc => {}
            StreamPart::Status => {
                put_part_of(out, self.begin, "starts ");
                out.put_stream(stream.p, stream.s);
                out.put(" at ");
                self.names
                    .put_place(out, pc_after(self.view, stream.p, stream.s));
            }
            _ => {
                put_part_of(out, self.begin, "");
                out.put_stream(stream.p, stream.s);
                out.put(" has ");
                put_part(out, part);
                self.put_content(out, change.after);
            }
        }
    }

    /// Adds how many places a processor has, unless the end of the step's stream stands for it.
    fn put_places(&self, out: &mut TextWriter, p: u8, change: &Change) {
        if self.has_ended {
            return;
        }
        put_part_of(out, self.begin, "processor ");
        out.put_number(u64::from(p));
        out.put(" has ");
        self.put_content(out, change.after);
        out.put(" slots");
    }

    /// Adds the value of a word, before and after.
    fn put_memory(&self, out: &mut TextWriter, address: u64, change: &Change) {
        put_part_of(out, self.begin, "");
        self.names.put_address(out, address);
        out.put(" ");
        self.put_both(out, change);
    }

    /// Adds the tags of a word, before and after; they follow its value where that changed too.
    fn put_memory_tags(&self, out: &mut TextWriter, address: u64, change: &Change) {
        if has_value(self.view, address) {
            out.put(", ");
        } else {
            put_part_of(out, self.begin, "");
            self.names.put_address(out, address);
            out.put(" ");
            self.put_value_read(out, address);
        }
        self.put_both(out, change);
    }

    /// Adds the value that the step read of a word, where it read one, and what goes on after it.
    fn put_value_read(&self, out: &mut TextWriter, address: u64) {
        if let Some(value) = value_read(self.view, address) {
            out.put("is ");
            out.put_value(self.style, value);
            out.put(", ");
        }
    }

    /// Adds what stood in a place, and what stands there.
    fn put_both(&self, out: &mut TextWriter, change: &Change) {
        self.put_content(out, change.before);
        out.put(" -> ");
        self.put_content(out, change.after);
    }

    /// Adds what stands in a place.
    fn put_content(&self, out: &mut TextWriter, content: Content) {
        put_named_content(out, self.names, self.style, content);
    }
}

/// Adds what stands in a place; a target register as the place where it is a pc alone.
fn put_named_content(
    out: &mut TextWriter,
    names: &ProgramNames,
    style: NumberStyle,
    content: Content,
) {
    match content {
        Content::Target(word) if word.bits() == NO_HANDLER => out.put("no handler"),
        Content::Target(word) if is_place(word) => names.put_place(out, word.pc),
        _ => put_content(out, style, content),
    }
}

/// Whether a step changed the value of the word at a byte address.
fn has_value(view: &StepView, address: u64) -> bool {
    let place = Place::Value { address };
    view.changes.iter().any(|change| change.place == place)
}

/// The value that a step read of the word at a byte address; None where it read none.
fn value_read(view: &StepView, address: u64) -> Option<u64> {
    let reference = view.reference?;
    let reads = matches!(reference.request.op, MemOp::Load | MemOp::Fadd);
    match reference.reply {
        Reply::Done(value) if reads && reference.address == address => Some(value),
        _ => None,
    }
}

/// Whether a target register is a pc alone, and not 0.
fn is_place(word: StatusWord) -> bool {
    word.pc != 0 && word.bits() == u64::from(word.pc)
}

/// Adds the name of a stream's part.
pub(crate) fn put_part(out: &mut TextWriter, part: StreamPart) {
    match part {
        StreamPart::Register(number) => put_numbered(out, "r", number),
        StreamPart::Target(number) => put_numbered(out, "t", number),
        StreamPart::Pc => out.put("pc "),
        StreamPart::Codes => out.put("codes "),
        StreamPart::Mask => out.put("mask "),
        StreamPart::InTrap => out.put("in trap "),
        StreamPart::TrapRegister => out.put("xr "),
        StreamPart::Retries => out.put("tries "),
        StreamPart::Status => out.put("status "),
    }
}

/// Adds the name of a register.
fn put_numbered(out: &mut TextWriter, kind: &str, number: u8) {
    out.put(kind);
    out.put_number(u64::from(number));
    out.put(" ");
}
