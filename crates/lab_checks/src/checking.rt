//! The command `check`.

use crate::messages::{push_objects, push_source_objects};
use command_parts::{
    CommandAnswer, Inputs, LabFault, Program, SourceText, Status, check_loose_schedule, is_image,
    read_program,
};
use expectation_messages::check_expectations;
use fault_messages::{Message, Severity, push_message};
use image_file::{ImageFault, read_image};
use input_faults::image_fault_words;
use lab_requests::{CheckRequest, FileKind};
use plain_text::plain;
use source_checks::source_messages;
use std::alloc::{AllocError, Global};
use std::io::Read;
use std::rt::Files;

/// Judges files: their faults and warnings.
pub fn check<F: Files, R: Read>(
    alloc: Global,
    inputs: &mut Inputs<'_, F, R>,
    request: &CheckRequest,
) -> Result<CommandAnswer, LabFault> {
    if request.program.is_some() && !takes_program(request) {
        return Err(LabFault::Words(String::from_str(
            alloc,
            "--program goes with schedules and files of expectations, and none is given",
        )?));
    }
    let program = match request.program {
        Some(path) => Some(read_program(alloc, inputs, path)?),
        None => None,
    };
    let mut printed = String::new(alloc);
    let mut status = Status::Done;
    for path in &request.files {
        let found = check_file(alloc, inputs, request, program.as_ref(), path, &mut printed)?;
        status = status.worse(found);
    }
    if request.json {
        return Ok(CommandAnswer::printed(alloc, printed, status));
    }
    Ok(CommandAnswer {
        output: String::new(alloc),
        errors: printed,
        status,
        fault: None,
    })
}

/// Whether some file is checked for a program, as it was said or by its name.
fn takes_program(request: &CheckRequest) -> bool {
    match request.kind {
        Some(kind) => is_of_program(kind),
        None => request.files.iter().any(|path| kind_by_name(path).is_some_and(|kind| is_of_program(
            kind,
        ))),
    }
}

/// Whether files of a kind are checked for a program.
fn is_of_program(kind: FileKind) -> bool {
    match kind {
        FileKind::Schedule | FileKind::Expectations => true,
        FileKind::Source | FileKind::Image => false,
    }
}

/// Adds what is to be said of a file, and says whether it is right.
fn check_file<F: Files, R: Read>(
    alloc: Global,
    inputs: &mut Inputs<'_, F, R>,
    request: &CheckRequest,
    program: Option<&Program>,
    path: &str,
    printed: &mut String,
) -> Result<Status, LabFault> {
    let bytes = inputs.read(alloc, path)?;
    let kind = kind_of(request.kind, path, &bytes);
    let CheckedFile { text, messages } = judge(alloc, kind, bytes, program)?;
    match (text, request.json) {
        (CheckedText::Source(source), true) => {
            push_source_objects(alloc, printed, path, source.ascii(), &messages)?
        }
        (CheckedText::Other(_), true) => push_objects(alloc, printed, path, &messages)?,
        (CheckedText::Source(source), false) => {
            push_messages(alloc, printed, path, &source.into_written(), &messages)?
        }
        (CheckedText::Other(text), false) => push_messages(alloc, printed, path, &text, &messages)?,
    }
    let is_right = messages.iter().all(|message| message.severity != Severity::Error
        && !request.strict);
    Ok(if is_right {
        Status::Done
    } else {
        Status::Fault
    })
}

/// Adds messages about a file with this text as lines.
fn push_messages(
    alloc: Global,
    printed: &mut String,
    path: &str,
    text: &[u8],
    messages: &[Message],
) -> Result<(), AllocError> {
    let path = plain(alloc, path)?;
    for message in messages {
        push_message(printed, &path, text, message)?;
    }
    Ok(())
}

/// The kind of a file: as it was said, or by its first bytes and its name.
fn kind_of(said: Option<FileKind>, path: &str, bytes: &[u8]) -> FileKind {
    match said {
        Some(kind) => kind,
        None if is_image(bytes) => FileKind::Image,
        None => kind_by_name(path).unwrap_or(FileKind::Source),
    }
}

/// The kind of a file by the end of its name; None where that says none.
fn kind_by_name(path: &str) -> Option<FileKind> {
    if path.ends_with(".schedule") {
        Some(FileKind::Schedule)
    } else if path.ends_with(".expect") {
        Some(FileKind::Expectations)
    } else {
        None
    }
}

/// A text that was judged.
#[derive(Drop)]
enum CheckedText {
    /// A source text.
    Source(SourceText),
    /// Another one; an image has none.
    Other(Vec<u8>),
}

/// A file that was judged.
#[derive(Drop)]
struct CheckedFile {
    /// The text whose lines are shown.
    text: CheckedText,
    /// What is to be said of it.
    messages: Vec<Message>,
}

/// Judges the bytes of a file.
fn judge(
    alloc: Global,
    kind: FileKind,
    bytes: Vec<u8>,
    program: Option<&Program>,
) -> Result<CheckedFile, LabFault> {
    match kind {
        FileKind::Source => {
            let source = SourceText::of(alloc, bytes)?;
            let messages = source_messages(alloc, &source)?;
            Ok(CheckedFile {
                text: CheckedText::Source(source),
                messages,
            })
        }
        FileKind::Schedule => {
            let image = program.map(|program| &program.image);
            let messages = check_loose_schedule(alloc, &bytes, image)?;
            Ok(CheckedFile {
                text: CheckedText::Other(bytes),
                messages,
            })
        }
        FileKind::Expectations => {
            let messages = check_expectations(alloc, &bytes, program)?;
            Ok(CheckedFile {
                text: CheckedText::Other(bytes),
                messages,
            })
        }
        FileKind::Image => Ok(CheckedFile {
            text: CheckedText::Other(Vec::new(alloc)),
            messages: image_messages(alloc, &bytes)?,
        }),
    }
}

/// What is to be said of the bytes of an image.
fn image_messages(alloc: Global, bytes: &[u8]) -> Result<Vec<Message>, LabFault> {
    let mut messages = Vec::new(alloc);
    match read_image(alloc, bytes) {
        Ok(_) => {}
        Err(ImageFault::NoMemory) => return Err(LabFault::NoMemory),
        Err(fault) => messages.push(image_fault_words(alloc, bytes, fault)?)?,
    }
    Ok(messages)
}
