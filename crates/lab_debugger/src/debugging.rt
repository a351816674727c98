//! The command `debug`.

use crate::debug_lines::{InputLines, LINE_LIMIT, NextLine};
use crate::debug_repl::{AfterLine, DebugRepl};
use crate::debug_stops::OwnStops;
use crate::sessions::named_of;
use asked_programs::read_asked_program;
use image_machines::by_room;
use lab_requests::RunChoice;
use printed_lines::parts::texts::{Columns, ProgramNames, TextWriter, plural};
use printed_lines::parts::{Inputs, LabFault, Program, Status, steps_of};
use printed_lines::write_lines;
use processor::Step;
use std::alloc::Global;
use std::io::{Read, Write};
use std::rt::Files;
use trace_text::write_schedule;

/// What a person is prompted with.
const PROMPT: &str = "(mta) ";

/// What a person is greeted with.
const GREETING: &str =
    "help lists the words; rlwrap mta_lab debug .. has arrow keys and a history\n";

/// Where the answers go.
#[derive(Drop)]
pub struct Screen<'a, W, E> {
    /// Standard output, for the answers.
    pub output: &'a mut W,
    /// Standard error, for the prompt.
    pub errors: &'a mut E,
    /// Whether there is a prompt.
    pub is_prompted: bool,
    /// Whether the answers have colours.
    pub is_coloured: bool,
}

/// Answers the lines of standard input over a run of a program, each before the next is read. With the file of a case's words
/// the program has these.
pub fn debug<F: Files, R: Read, W: Write, E: Write>(
    alloc: Global,
    inputs: &mut Inputs<'_, F, R>,
    program: &str,
    given: Option<&str>,
    run: RunChoice,
    screen: &mut Screen<'_, W, E>,
) -> Result<Status, LabFault> {
    let program = read_asked_program(alloc, inputs, program, given)?;
    let steps = steps_of(alloc, inputs, &program, run)?;
    by_room!(
        program.image,
        debug_on::<F, R, W, E>(alloc, inputs, &program, steps, screen)
    )
}

/// The same in a session with room for `S` streams a processor.
fn debug_on<F: Files, R: Read, W: Write, E: Write, const S: usize>(
    alloc: Global,
    inputs: &mut Inputs<'_, F, R>,
    program: &Program,
    steps: Vec<Step>,
    screen: &mut Screen<'_, W, E>,
) -> Result<Status, LabFault> {
    let names = ProgramNames::of(alloc, &program.text)?;
    let columns = Columns::of(&names, steps.len());
    let mut repl = DebugRepl {
        alloc,
        named: named_of::<S>(alloc, program, steps)?,
        names: &names,
        columns,
        tried: Vec::new(alloc),
        stops: OwnStops::none(alloc),
    };
    talk(alloc, inputs, &mut repl, screen)?;
    Ok(Status::Done)
}

/// Answers the lines of standard input in a session, up to one that asks for the end, or to the last.
fn talk<const S: usize, F: Files, R: Read, W: Write, E: Write>(
    alloc: Global,
    inputs: &mut Inputs<'_, F, R>,
    repl: &mut DebugRepl<'_, '_, '_, S>,
    screen: &mut Screen<'_, W, E>,
) -> Result<(), LabFault> {
    let mut lines = InputLines::new(alloc);
    let mut line = String::new(alloc);
    let mut out = String::new(alloc);
    let mut text = TextWriter::take(&mut out);
    repl.put_where(&mut text);
    text.give_back(&mut out)?;
    screen.prompt_with(GREETING);
    for _ in 0..u64::MAX {
        screen.show(&out)?;
        out.clear();
        let goes_on = match read_line(alloc, &mut lines, inputs.input, &mut line)? {
            Heard::Line => answer_line(alloc, inputs, repl, line.as_str(), &mut out)?,
            Heard::TooLong => push_too_long(&mut out)?,
            Heard::NotText(number) => push_not_text(&mut out, number)?,
            Heard::End => {
                screen.prompt_with("\n");
                false
            }
        };
        if !goes_on {
            break;
        }
    }
    Ok(())
}

/// Adds the answer to a line, and says whether the session goes on.
fn answer_line<const S: usize, F: Files, R: Read>(
    alloc: Global,
    inputs: &Inputs<'_, F, R>,
    repl: &mut DebugRepl<'_, '_, '_, S>,
    line: &str,
    out: &mut String,
) -> Result<bool, LabFault> {
    let mut text = TextWriter::take(out);
    let goes_on = match repl.answer(line, &mut text)? {
        AfterLine::On => true,
        AfterLine::Save(path) => {
            save(alloc, inputs, path, repl, &mut text)?;
            true
        }
        AfterLine::Quit => false,
    };
    text.give_back(out)?;
    Ok(goes_on)
}

/// What was read.
#[derive(Clone, Copy)]
enum Heard {
    /// A line that is to be answered.
    Line,
    /// A line that is too long, and is refused.
    TooLong,
    /// A line of this number that is no text, and is refused.
    NotText(u64),
    /// The end of the input.
    End,
}

/// Adds that a line is too long. The session goes on.
fn push_too_long(out: &mut String) -> Result<bool, LabFault> {
    writeln!(
        out,
        "a line has at most {LINE_LIMIT} bytes: this one is not taken"
    )?;
    Ok(true)
}

/// Adds that the line of this number is no text. The session goes on.
fn push_not_text(out: &mut String, number: u64) -> Result<bool, LabFault> {
    writeln!(out, "line {number} is not UTF-8: it is not taken")?;
    Ok(true)
}

/// Reads the next line in place of the last one, which one that is empty or refused leaves as it is.
fn read_line<R: Read>(
    alloc: Global,
    lines: &mut InputLines,
    input: &mut R,
    line: &mut String,
) -> Result<Heard, LabFault> {
    match lines.next(alloc, input)? {
        NextLine::End => Ok(Heard::End),
        NextLine::TooLong => Ok(Heard::TooLong),
        NextLine::NotText(number) => Ok(Heard::NotText(number)),
        NextLine::Text(next) => {
            if !next.as_str().trim().is_empty() {
                *line = next;
            }
            Ok(Heard::Line)
        }
    }
}

/// Writes the schedule of a session into a file, and adds that it did, or why not.
fn save<const S: usize, F: Files, R: Read>(
    alloc: Global,
    inputs: &Inputs<'_, F, R>,
    path: &str,
    repl: &DebugRepl<'_, '_, '_, S>,
    out: &mut TextWriter,
) -> Result<(), LabFault> {
    if path.is_empty() {
        out.put("save takes a file\n");
        return Ok(());
    }
    let steps = repl.named.session.schedule();
    let schedule = write_schedule(alloc, steps)?;
    match inputs.write(alloc, path, schedule.as_bytes()) {
        Ok(()) => put_saved(out, path, steps.len()),
        Err(LabFault::Words(words)) => {
            out.put_plain(&words);
            out.put("\n");
        }
        Err(fault) => return Err(fault),
    }
    Ok(())
}

/// Adds that a file has the steps of the schedule, so many.
fn put_saved(out: &mut TextWriter, path: &str, steps: usize) {
    out.put_plain(path);
    out.put(" has the ");
    out.put_number(steps as u64);
    out.put(" step");
    out.put(plural(steps));
    out.put(" of the schedule\n");
}

impl<W: Write, E: Write> Screen<'_, W, E> {
    /// Writes an answer, and a prompt where a person types, before the next line is read.
    fn show(&mut self, text: &String) -> Result<(), LabFault> {
        let wrote = write_lines(self.output, text, self.is_coloured);
        self.prompt_with(PROMPT);
        wrote
    }

    /// Writes a text where a person types.
    fn prompt_with(&mut self, text: &str) {
        if self.is_prompted {
            let _ = write!(self.errors, "{text}").and_then(|()| self.errors.flush());
        }
    }
}
