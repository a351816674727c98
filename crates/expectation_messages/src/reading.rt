//! Files of expectations, read for a command.

use crate::messages::{EMPTY, LineBegin, message_on};
use command_parts::texts::ProgramNames;
use command_parts::{LabFault, Program};
use expectation_files::{FileFault, KnownNames, Requirements, read_requirements};
use fault_messages::push_message;
use plain_text::plain;
use source_places::SourcePlaces;
use std::alloc::{AllocError, Global};

/// What the text of a path requires of a program.
pub fn requirements_of(
    alloc: Global,
    path: &str,
    text: &[u8],
    program: &Program,
) -> Result<Requirements, LabFault> {
    let places = SourcePlaces::of(alloc, &program.text)?;
    let known = KnownNames {
        words: places.data_names(),
        labels: places.labels(),
    };
    match read_requirements(alloc, known, &program.image, text) {
        Ok(required) => Ok(required),
        Err(fault) => Err(file_fault(alloc, path, text, fault, program)?),
    }
}

/// What is said of a file of expectations with a fault, for a program.
pub fn file_fault(
    alloc: Global,
    path: &str,
    text: &[u8],
    fault: FileFault,
    program: &Program,
) -> Result<LabFault, AllocError> {
    match fault {
        FileFault::NoMemory => Ok(LabFault::NoMemory),
        FileFault::Empty => {
            let path = plain(alloc, path)?;
            Ok(LabFault::Lines(format!(in alloc; "{path}:1:1: error: {EMPTY}\n")?))
        }
        FileFault::Line { line, fault } => {
            let names = ProgramNames::of(alloc, &program.text)?;
            let begin = LineBegin::FIRST.of_line(text, line);
            let message = message_on(alloc, text, begin, fault, &program.image, Some(&names))?;
            let path = plain(alloc, path)?;
            let mut lines = String::new(alloc);
            push_message(&mut lines, &path, text, &message)?;
            Ok(LabFault::Lines(lines))
        }
    }
}
