//! The program, from its command line to its status.

use crate::joined_parts::{JoinedParts, make_gallery};
use crate::painting::Painting;
use command_parts::{CommandAnswer, Inputs, LabFault, Status, written};
use lab_adapter::adapt;
use lab_checks::{assemble_file, check, explain, lay_out, make_schedule, show_word, start_program};
use lab_command_line::read_lab_command;
use lab_debugger::{Screen, debug};
use lab_exercises::{exercise, watch_exercise};
use lab_explorer::show_every_end;
use lab_grades::{grade, merge};
use lab_language::serve_language;
use lab_pages::{write_page, write_picture, write_play_page};
use lab_requests::{Colours, ExerciseRequest, ExerciseTask, LabCommand};
use lab_surveys::survey;
use lab_views::{compare, view};
use plain_text::{plain, push_plain};
use printed_lines::{Printer, write_lines};
use program_searches::Console;
use std::alloc::{AllocError, Global};
use std::fmt::Display;
use std::fs::File;
use std::io::{Read, Write};
use std::marker::Send;
use std::rt::Files;
use std::sync::Wait;
use std::thread::Threads;
use std::time::Clock;

/// Which of the standard streams are terminals.
#[derive(Clone, Copy)]
pub(crate) struct Terminals {
    /// Standard input: then `debug` prompts.
    pub input: bool,
    /// Standard output.
    pub output: bool,
    /// Standard error: then a search reports how far it is, if a line can be wiped there.
    pub errors: bool,
    /// The environment wants no colours.
    pub refuse_colours: bool,
    /// They show no colours, and wipe no line.
    pub are_plain: bool,
}

impl Terminals {
    /// Whether the line that shows how far a search is may stand on standard error, and be wiped there.
    fn shows_progress(self) -> bool {
        self.errors && !self.are_plain
    }
}

/// The standard streams that are written.
#[derive(Drop)]
pub(crate) struct Outputs<'a, W, E> {
    /// Standard output.
    pub output: &'a mut W,
    /// Standard error.
    pub errors: &'a mut E,
    /// Which streams are terminals.
    pub terminals: Terminals,
    /// By which file the system says how much memory the process takes.
    pub memory: Option<&'a File>,
}

/// Runs the command of a command line, whose first word is the program's name, on these inputs and outputs, and gives the
/// exit status ("Exit statuses", docs/LAB_REFERENCE.md). All is composed before anything is written, but for
/// the prompts of `debug`, the rows of `grade` and the line of a search.
pub(crate) fn run_lab<
    X: Threads + Wait + Sync + Clock,
    F: Files,
    R: Read + Send,
    W: Write,
    E: Write,
>(
    rt: &X,
    alloc: Global,
    words: &[String],
    inputs: &mut Inputs<'_, F, R>,
    outputs: &mut Outputs<'_, W, E>,
) -> u8 {
    if let Some(name) = inputs.names().shown_twice(words) {
        report_twofold(alloc, name, outputs.errors);
        return Status::NoCommand.number();
    }
    match read_lab_command(alloc, words, inputs.names()) {
        Ok(call) => {
            let painting = Painting::of(&call, outputs.terminals);
            let ended = run_command(rt, alloc, &call.command, inputs, outputs, painting);
            number_of_status(ended, outputs.errors, painting)
        }
        Err(error) if error.use_stderr() => {
            let painting = Painting::by(Colours::Auto, outputs.terminals);
            report_refused(alloc, &error, outputs.errors, painting);
            Status::NoCommand.number()
        }
        Err(help) => {
            let output = &mut *outputs.output;
            let wrote = write!(output, "{help}").and_then(|()| output.flush());
            let ended = written(wrote).map(|()| Status::Done);
            number_of_status(ended, outputs.errors, Painting::NONE)
        }
    }
}

/// Writes that two words of the command line, which are not the same, are both shown so.
fn report_twofold<E: Write>(alloc: Global, name: &str, errors: &mut E) {
    match format!(in alloc;
        "{name}: two words of this line are shown so; rename one of the files"
    ) {
        Ok(words) => report_words(&words, errors, false),
        Err(_) => {
            let _ = writeln!(errors, "mta_lab: no memory");
        }
    }
}

/// Writes why a command line is refused.
fn report_refused<D: Display, E: Write>(
    alloc: Global,
    error: &D,
    errors: &mut E,
    painting: Painting,
) {
    match plain_lines(alloc, error) {
        Ok(lines) => {
            let _ = write_lines(errors, &lines, painting.errors);
        }
        Err(_) => {
            let _ = writeln!(errors, "mta_lab: no memory");
        }
    }
}

/// The lines of a message that repeats words of the command line, whose control bytes a terminal is not to get.
fn plain_lines<D: Display>(alloc: Global, message: &D) -> Result<String, AllocError> {
    let text = format!(in alloc; "{message}")?;
    let mut out = String::new(alloc);
    for line in text.lines() {
        push_plain(&mut out, line)?;
        out.push_str("\n")?;
    }
    Ok(out)
}

/// The number of a command's status; why it gave up, where it did, is written first.
fn number_of_status<E: Write>(
    ended: Result<Status, LabFault>,
    errors: &mut E,
    painting: Painting,
) -> u8 {
    match ended {
        Ok(status) => status.number(),
        Err(fault) => report_fault(&fault, errors, painting.errors),
    }
}

/// Runs a command.
fn run_command<X: Threads + Wait + Sync + Clock, F: Files, R: Read + Send, W: Write, E: Write>(
    rt: &X,
    alloc: Global,
    command: &LabCommand,
    inputs: &mut Inputs<'_, F, R>,
    outputs: &mut Outputs<'_, W, E>,
    painting: Painting,
) -> Result<Status, LabFault> {
    match command {
        LabCommand::Adapt => adapt(rt, alloc, inputs.files, inputs.input, outputs.output),
        LabCommand::ServeLanguage => serve_language(rt, alloc, inputs.input, outputs.output),
        LabCommand::Debug {
            program,
            given,
            run,
        } => {
            let mut screen = Screen {
                output: &mut *outputs.output,
                errors: &mut *outputs.errors,
                is_prompted: outputs.terminals.input,
                is_coloured: painting.output,
            };
            debug(alloc, inputs, program, *given, *run, &mut screen)
        }
        LabCommand::Exercise(request) if matches!(request.task, ExerciseTask::Watch) => {
            watch(rt, alloc, request, inputs, outputs, painting)
        }
        LabCommand::Check(_)
        | LabCommand::Schedule { .. }
        | LabCommand::View(_)
        | LabCommand::Compare { .. }
        | LabCommand::Survey(_)
        | LabCommand::Explore(_)
        | LabCommand::Grade(_)
        | LabCommand::Merge(_)
        | LabCommand::Exercise(_)
        | LabCommand::Page(_)
        | LabCommand::Picture(_)
        | LabCommand::Play(_)
        | LabCommand::Gallery(_)
        | LabCommand::Explain { .. }
        | LabCommand::Word { .. }
        | LabCommand::LayOut(_)
        | LabCommand::New { .. }
        | LabCommand::Assemble { .. } => {
            answer_whole(rt, alloc, command, inputs, outputs, painting)
        }
    }
}

/// Watches an exercise: what is said of it is printed as it comes.
fn watch<X: Threads + Wait + Sync + Clock, F: Files, R: Read + Send, W: Write, E: Write>(
    rt: &X,
    alloc: Global,
    request: &ExerciseRequest,
    inputs: &mut Inputs<'_, F, R>,
    outputs: &mut Outputs<'_, W, E>,
    painting: Painting,
) -> Result<Status, LabFault> {
    let mut console = Console {
        clock: rt,
        errors: &mut *outputs.errors,
        is_terminal: outputs.terminals.shows_progress(),
        memory: outputs.memory,
    };
    let mut printer = Printer {
        output: &mut *outputs.output,
        is_coloured: painting.output,
    };
    let pages = JoinedParts;
    watch_exercise(
        rt,
        alloc,
        inputs,
        request,
        &mut printer,
        &pages,
        &mut console,
    )
}

/// Runs a command that answers when it is done.
fn answer_whole<X: Threads + Wait + Sync + Clock, F: Files, R: Read, W: Write, E: Write>(
    rt: &X,
    alloc: Global,
    command: &LabCommand,
    inputs: &mut Inputs<'_, F, R>,
    outputs: &mut Outputs<'_, W, E>,
    painting: Painting,
) -> Result<Status, LabFault> {
    let mut console = Console {
        clock: rt,
        errors: &mut *outputs.errors,
        is_terminal: outputs.terminals.shows_progress(),
        memory: outputs.memory,
    };
    let mut printer = Printer {
        output: &mut *outputs.output,
        is_coloured: painting.output,
    };
    let answer = answer_to(rt, alloc, command, inputs, &mut printer, &mut console)?;
    print_answer(answer, outputs, painting)
}

/// What a command answers.
fn answer_to<X: Threads + Wait + Sync + Clock, F: Files, R: Read, W: Write, E: Write>(
    rt: &X,
    alloc: Global,
    command: &LabCommand,
    inputs: &mut Inputs<'_, F, R>,
    printer: &mut Printer<'_, W>,
    console: &mut Console<'_, X, E>,
) -> Result<CommandAnswer, LabFault> {
    match command {
        LabCommand::Check(request) => check(alloc, inputs, request),
        LabCommand::Schedule {
            program,
            maker,
            most,
        } => make_schedule(alloc, inputs, program, *maker, *most),
        LabCommand::View(request) => view(alloc, inputs, request),
        LabCommand::Compare {
            program,
            given,
            one,
            other,
            shown,
        } => compare(alloc, inputs, program, *given, *one, *other, *shown),
        // (these have their own way of writing)
        LabCommand::Debug { .. } | LabCommand::Adapt | LabCommand::ServeLanguage => {
            Err(LabFault::Closed)
        }
        LabCommand::Survey(request) => survey(rt, alloc, inputs, request, console),
        LabCommand::Explore(request) => show_every_end(alloc, inputs, request, console),
        LabCommand::Grade(request) => grade(rt, alloc, inputs, request, printer, console),
        LabCommand::Merge(request) => merge(alloc, inputs, request, printer),
        LabCommand::Exercise(request) => {
            exercise(rt, alloc, inputs, request, &JoinedParts, console)
        }
        LabCommand::Page(request) => write_page(alloc, inputs, request),
        LabCommand::Picture(request) => write_picture(alloc, inputs, request),
        LabCommand::Play(request) => write_play_page(alloc, inputs, request, console),
        LabCommand::Gallery(request) => make_gallery(rt, alloc, inputs, request, console),
        LabCommand::Explain { words } => explain(alloc, words),
        LabCommand::Word { words } => show_word(alloc, words),
        LabCommand::LayOut(request) => lay_out(alloc, inputs, request),
        LabCommand::New { name, idiom } => start_program(alloc, inputs, name, *idiom),
        LabCommand::Assemble { source, image } => assemble_file(alloc, inputs, source, *image),
    }
}

/// Writes an answer, and gives its status; or its fault, where a part of it was not done.
fn print_answer<W: Write, E: Write>(
    answer: CommandAnswer,
    outputs: &mut Outputs<'_, W, E>,
    painting: Painting,
) -> Result<Status, LabFault> {
    let CommandAnswer {
        output: text,
        errors: words,
        status,
        fault,
    } = answer;
    let wrote = write_lines(outputs.output, &text, painting.output);
    if wrote.is_ok() {
        let _ = write_lines(outputs.errors, &words, painting.errors);
    }
    if let Some(fault) = fault {
        return Err(fault);
    }
    wrote?;
    Ok(status)
}

/// Writes why a command gave up, and gives its status.
fn report_fault<E: Write>(fault: &LabFault, errors: &mut E, is_coloured: bool) -> u8 {
    match fault {
        LabFault::Words(words) => report_words(words, errors, is_coloured),
        LabFault::Lines(lines) => {
            let _ = write_lines(errors, lines, is_coloured);
        }
        LabFault::NoMemory => {
            let _ = writeln!(errors, "mta_lab: no memory");
        }
        LabFault::Write => {
            let _ = writeln!(errors, "mta_lab: write failed");
        }
        LabFault::Closed => return Status::Done.number(),
    }
    Status::Fault.number()
}

/// Writes a reason in words, which may have names of files, on a line of its own.
fn report_words<E: Write>(words: &String, errors: &mut E, is_coloured: bool) {
    match fault_line(*words.allocator(), words.as_str()) {
        Ok(line) => {
            let _ = write_lines(errors, &line, is_coloured);
        }
        Err(_) => {
            let _ = writeln!(errors, "mta_lab: no memory");
        }
    }
}

/// The line of a reason in words.
fn fault_line(alloc: Global, words: &str) -> Result<String, AllocError> {
    let line = plain(alloc, words)?;
    format!(in alloc; "mta_lab: {line}\n")
}
