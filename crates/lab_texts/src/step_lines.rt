//! Lines that show steps.

use crate::changes::put_changes;
use crate::names::ProgramNames;
use crate::notation::Notation;
use crate::run_pieces::RunPieces;
use crate::values::{put_word, trap_words};
use crate::waits::wanted_word;
use machine::Machine;
use plain_text::TextWriter;
use processor::Step;
use std::alloc::AllocError;
use stream_core::{Outcome, Status, TrapKind};
use stream_waits::views::{Place, StepView};
use tag_memory::{MemOp, Reply};
use waiting::wait_of;

/// The widest column of a step's number.
const NUMBER_WIDTH: usize = 8;

/// The name of the column that says what a step did.
const WHAT_IT_DID: &str = "what it did";

/// What stands for the address and the instruction of a stream that is not started, or has quit.
const NO_INSTRUCTION: &str = "-";

/// The columns of lines that show steps.
#[derive(Clone, Copy, Debug)]
pub struct Columns {
    /// How many bytes the number of a step takes.
    pub number: usize,
    /// How many bytes a place of the program takes.
    pub place: usize,
    /// How many bytes an instruction takes.
    pub statement: usize,
    /// How many bytes the changes take, before a comment.
    pub changes: usize,
}

impl Columns {
    /// The columns for a run of so many steps of a program with these names.
    pub fn of(names: &ProgramNames, steps: usize) -> Columns {
        let mut number: usize = 3;
        let mut most: usize = 999;
        for _ in 3..NUMBER_WIDTH {
            if steps > most {
                number = number.saturating_add(1);
                most = most.saturating_mul(10).saturating_add(9);
            }
        }
        Columns {
            number,
            place: names.place_width().clamp(6, 24),
            statement: names.statement_width().clamp(12, 40),
            changes: 24,
        }
    }
}

/// Adds the line of a step of this number, with its end. The machine has just taken it.
pub fn push_step_line<const S: usize>(
    out: &mut String,
    notation: Notation<'_, '_>,
    columns: Columns,
    number: usize,
    view: &StepView,
    machine: &Machine<'_, S>,
) -> Result<(), AllocError> {
    let mut text = TextWriter::take(out);
    put_step_line(&mut text, notation, columns, number, view, machine);
    text.give_back(out)
}

/// Adds what [`push_step_line`] does.
pub fn put_step_line<const S: usize>(
    out: &mut TextWriter,
    notation: Notation<'_, '_>,
    columns: Columns,
    number: usize,
    view: &StepView,
    machine: &Machine<'_, S>,
) {
    out.put_right(number as u64, columns.number);
    out.put("  ");
    put_step_text(out, notation, columns, view, machine);
}

/// Adds the number of a step, with which its line begins.
pub fn push_step_number(
    out: &mut String,
    columns: Columns,
    number: usize,
) -> Result<(), AllocError> {
    let width = columns.number;
    write!(out, "{number:>width$}  ")
}

/// Adds what stands after the number in the line of a step, with the line's end.
pub fn push_step_text<const S: usize>(
    out: &mut String,
    notation: Notation<'_, '_>,
    columns: Columns,
    view: &StepView,
    machine: &Machine<'_, S>,
) -> Result<(), AllocError> {
    let mut text = TextWriter::take(out);
    put_step_text(&mut text, notation, columns, view, machine);
    text.give_back(out)
}

/// Adds what [`push_step_text`] does.
fn put_step_text<const S: usize>(
    out: &mut TextWriter,
    notation: Notation<'_, '_>,
    columns: Columns,
    view: &StepView,
    machine: &Machine<'_, S>,
) {
    put_instruction(out, notation.names, columns, view, machine);
    let begin = out.len();
    put_what(out, notation, view, machine);
    if let Some(address) = met_word(view) {
        put_remark(out, notation.names, begin, columns.changes, address);
    }
    out.end_line();
}

/// Adds whose step it was, and which instruction it took from where.
fn put_instruction<const S: usize>(
    out: &mut TextWriter,
    names: &ProgramNames,
    columns: Columns,
    view: &StepView,
    machine: &Machine<'_, S>,
) {
    let word = word_of_step(view, machine);
    let begin = out.len();
    out.put_stream(view.step.p, view.step.s);
    out.pad(begin, 7);
    let begin = out.len();
    match word {
        Some(word) => names.put_place(out, word),
        None => out.put(NO_INSTRUCTION),
    }
    out.pad(begin, columns.place);
    let begin = out.len();
    out.put("  ");
    put_statement_at(out, names, word);
    out.pad(begin, columns.statement.saturating_add(4));
}

/// Adds the instruction of a program word.
fn put_statement_at(out: &mut TextWriter, names: &ProgramNames, word: Option<u32>) {
    match word {
        Some(word) => names.put_statement(out, word),
        None => out.put(NO_INSTRUCTION),
    }
}

/// The program word at which the stream of a step stood, which the machine has just taken; None of a stream that is not
/// there, is not started, or has quit: it stands at no word.
fn word_of_step<const S: usize>(view: &StepView, machine: &Machine<'_, S>) -> Option<u32> {
    match view.outcome {
        Outcome::Done | Outcome::Blocked | Outcome::Trapped(_) | Outcome::Stopped(_) => {
            Some(view.pc)
        }
        // (the step changed nothing: the stream is as it was before)
        Outcome::Skipped => match machine.stream(view.step.p, view.step.s)?.status() {
            Status::Idle => None,
            Status::Running | Status::Stopped(_) => Some(view.pc),
        },
    }
}

/// Adds the comment of a word, where it has one, after a column that began at a place in the text.
fn put_remark(
    out: &mut TextWriter,
    names: &ProgramNames,
    begin: usize,
    width: usize,
    address: u64,
) {
    let comment = names.remark(address);
    if !comment.is_empty() {
        out.pad(begin, width);
        out.put("  ");
        out.put_quoted(comment);
    }
}

/// Adds the head of such lines: the name of each column. That of comments stands there where a word has one.
pub fn push_step_head(
    out: &mut String,
    names: &ProgramNames,
    columns: Columns,
) -> Result<(), AllocError> {
    let mut text = TextWriter::take(out);
    put_head(&mut text, "step", columns.number.saturating_add(2));
    put_head(&mut text, "stream", 7);
    put_head(&mut text, "at", columns.place);
    put_head(
        &mut text,
        "  instruction",
        columns.statement.saturating_add(4),
    );
    put_head(&mut text, WHAT_IT_DID, columns.changes.saturating_add(2));
    if names.has_comments() {
        text.put("comment");
    }
    text.end_line();
    text.give_back(out)
}

/// Adds the name of a column of this width.
fn put_head(out: &mut TextWriter, name: &str, width: usize) {
    let begin = out.len();
    out.put(name);
    out.pad(begin, width);
}

/// Adds what stands after the number in the line of a step, with the line's end: a column for each of these streams, in
/// which its instruction stands, and what the step did.
pub fn push_lane_text<const S: usize>(
    out: &mut String,
    notation: Notation<'_, '_>,
    columns: Columns,
    lanes: &[Step],
    view: &StepView,
    machine: &Machine<'_, S>,
) -> Result<(), AllocError> {
    let mut text = TextWriter::take(out);
    let width = columns.statement.saturating_add(2);
    for lane in lanes {
        let begin = text.len();
        if *lane == view.step {
            put_statement_at(&mut text, notation.names, word_of_step(view, machine));
        }
        text.pad(begin, width);
    }
    put_what(&mut text, notation, view, machine);
    text.end_line();
    text.give_back(out)
}

/// Adds the head of such lines: the name of each stream above its column.
pub fn push_lane_head(
    out: &mut String,
    columns: Columns,
    lanes: &[Step],
) -> Result<(), AllocError> {
    let mut text = TextWriter::take(out);
    put_head(&mut text, "step", columns.number.saturating_add(2));
    let width = columns.statement.saturating_add(2);
    for lane in lanes {
        let begin = text.len();
        text.put_stream(lane.p, lane.s);
        text.pad(begin, width);
    }
    text.put(WHAT_IT_DID);
    text.end_line();
    text.give_back(out)
}

/// The word that a step met: where its request ended, where that is a word.
fn met_word(view: &StepView) -> Option<u64> {
    let reference = view.reference?;
    match reference.reply {
        Reply::Done(_) | Reply::Blocked(_) => Some(reference.address),
        Reply::Trap(_, _) => None,
    }
}

/// Adds what a step did.
fn put_what<const S: usize>(
    out: &mut TextWriter,
    notation: Notation<'_, '_>,
    view: &StepView,
    machine: &Machine<'_, S>,
) {
    let begin = out.len();
    let names = notation.names;
    match view.outcome {
        Outcome::Skipped => {
            out.put(why_skipped(view, machine));
            return;
        }
        Outcome::Trapped(trap) | Outcome::Stopped(trap) => put_trapped(out, names, trap, view),
        Outcome::Blocked => put_blocked(out, names, view, machine),
        Outcome::Done => put_unchanged_word(out, notation, view, machine),
    }
    put_changes(out, notation, view, begin);
}

/// Why a step was skipped. A stream from the image's slim on is not there, whatever the machine's room is.
fn why_skipped<const S: usize>(view: &StepView, machine: &Machine<'_, S>) -> &'static str {
    if u16::from(view.step.s) >= machine.image().slim() {
        return "there is no such stream";
    }
    let Some(stream) = machine.stream(view.step.p, view.step.s) else {
        return "there is no such stream";
    };
    match stream.status() {
        Status::Stopped(_) => "has stopped: nothing happens",
        Status::Idle | Status::Running => "does not run: nothing happens",
    }
}

/// Adds a trap, with the address where the memory refused it.
fn put_trapped(out: &mut TextWriter, names: &ProgramNames, trap: TrapKind, view: &StepView) {
    out.put_trap(trap);
    if let Some(reference) = view.reference {
        out.put(" at ");
        names.put_address(out, reference.address);
    }
    out.put(": ");
    out.put(trap_words(trap));
}

/// Adds what a blocked step waits for.
fn put_blocked<const S: usize>(
    out: &mut TextWriter,
    names: &ProgramNames,
    view: &StepView,
    machine: &Machine<'_, S>,
) {
    match wait_of(machine, view.step.p, view.step.s) {
        Some(wait) => {
            out.put("waits for ");
            names.put_address(out, wait.address);
            out.put(" to be ");
            out.put(wanted_word(wait.wanted));
        }
        None => out.put("is blocked"),
    }
}

/// Adds the word that a done reference met, where it left it as it was.
fn put_unchanged_word<const S: usize>(
    out: &mut TextWriter,
    notation: Notation<'_, '_>,
    view: &StepView,
    machine: &Machine<'_, S>,
) {
    let Some(reference) = view.reference else {
        return;
    };
    let address = reference.address;
    let Some(word) = machine.word(address) else {
        return;
    };
    if !has_changed(view, address) {
        notation.names.put_address(out, address);
        out.put(verb_of(reference.request.op));
        put_word(out, notation.style, word);
    }
}

/// Whether a step changed the word at a byte address.
fn has_changed(view: &StepView, address: u64) -> bool {
    view.changes.iter().any(|change| {
        change.place == Place::Value { address } || change.place == Place::Tags { address }
    })
}

/// What a word does of which a request left all as it was.
fn verb_of(operation: MemOp) -> &'static str {
    match operation {
        MemOp::Load | MemOp::TagGet => " is ",
        MemOp::Store | MemOp::Fadd | MemOp::TagSet | MemOp::Purge => " stays ",
    }
}
