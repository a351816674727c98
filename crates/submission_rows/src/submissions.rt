//! Submissions, read.

use expectation_messages::parts::{
    Inputs, LabFault, LinkOut, Program, ProgramFault, RegularFile, program_in,
};
use fault_messages::{Message, Severity};
use grade_rows::judges::VerdictKind;
use grade_rows::{GradeRow, SourcePosition};
use std::alloc::{AllocError, Global};
use std::io::Read;
use std::rt::Files;

/// A submission that was read.
#[derive(Drop)]
pub struct ReadSubmission {
    /// Its bytes, or what is said of one that can't be read.
    pub bytes: Result<Vec<u8>, GradeRow>,
    /// The link that led to it, if that leads out of its folder.
    pub link: Option<LinkOut>,
}

/// Reads a submission. Only a regular file is read, and standard input for `-`; where links are refused, none that is
/// reached by one.
pub fn read_submission<F: Files, R: Read>(
    alloc: Global,
    inputs: &mut Inputs<'_, F, R>,
    path: &str,
    refuses_links: bool,
) -> Result<ReadSubmission, AllocError> {
    match read_file(alloc, inputs, path, refuses_links)? {
        Ok(RegularFile { bytes, link }) => Ok(ReadSubmission {
            bytes: Ok(bytes),
            link,
        }),
        Err(why) => Ok(ReadSubmission {
            bytes: Err(GradeRow::of_no_program(alloc, VerdictKind::NotRead, why)),
            link: None,
        }),
    }
}

/// The bytes of a submission, or why they are not read.
fn read_file<F: Files, R: Read>(
    alloc: Global,
    inputs: &mut Inputs<'_, F, R>,
    path: &str,
    refuses_links: bool,
) -> Result<Result<RegularFile, String>, AllocError> {
    if path != "-" {
        return inputs.read_regular(alloc, path, refuses_links);
    }
    match inputs.read_or_why(alloc, path)? {
        Ok(bytes) => Ok(Ok(RegularFile { bytes, link: None })),
        Err(why) => Ok(Err(why)),
    }
}

/// The program of a submission's bytes, or what is said of bytes that are none.
pub fn program_or_row(
    alloc: Global,
    bytes: Vec<u8>,
) -> Result<Result<Program, GradeRow>, LabFault> {
    match program_in(alloc, bytes) {
        Ok(program) => Ok(Ok(program)),
        Err(ProgramFault::NoMemory) => Err(LabFault::NoMemory),
        Err(ProgramFault::Messages { messages, .. }) => Ok(Err(source_fault(alloc, &messages)?)),
    }
}

/// What is said of a submission that is no program: the first error, as `8:9: no operation is called load.N`.
fn source_fault(alloc: Global, messages: &[Message]) -> Result<GradeRow, AllocError> {
    let mut words = String::new(alloc);
    let mut place = None;
    let first = messages
        .iter()
        .find(|message: &&Message| message.severity == Severity::Error);
    if let Some(message) = first {
        let (line, column) = (message.line, message.column);
        let what = message.words.as_str();
        write!(words, "{line}:{column}: {what}")?;
        place = Some(SourcePosition { line, column });
    }
    let mut row = GradeRow::of_no_program(alloc, VerdictKind::SourceFault, words);
    row.place = place;
    Ok(row)
}
