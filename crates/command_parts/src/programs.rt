//! Programs: source texts and images.

use crate::inputs::Inputs;
use crate::lab_fault::LabFault;
use asm_text::{AsmFault, Fault, assemble, listing};
use fault_messages::{Message, push_message};
use image_file::{Image, ImageFault, read_image};
use input_faults::image_fault_words;
use plain_text::plain;
use source_checks::SourceText;
use std::alloc::{AllocError, AllocFailed, Global};
use std::io::Read;
use std::rt::Files;

/// What images begin with, and no source text does.
const IMAGE_BEGIN: &[u8] = b"MTAP\0";

/// A program: its text, the source or else the listing of its image, and its image.
#[derive(Drop)]
pub struct Program {
    /// The text, which names its places. Its comments are UTF-8 without control characters above 7F.
    pub text: Vec<u8>,
    /// The image.
    pub image: Image,
}

/// Whether these are the bytes of an image, and not of a source text.
pub fn is_image(bytes: &[u8]) -> bool {
    bytes.starts_with(IMAGE_BEGIN)
}

/// The program of a path: a source text is assembled, an image is read.
pub fn read_program<F: Files, R: Read>(
    alloc: Global,
    inputs: &mut Inputs<'_, F, R>,
    path: &str,
) -> Result<Program, LabFault> {
    let bytes = inputs.read(alloc, path)?;
    program_of(alloc, path, bytes)
}

/// Why bytes are no program.
#[derive(Drop)]
pub enum ProgramFault {
    /// For what is said of this text.
    Messages {
        /// The text, as it was written; empty for an image.
        text: Vec<u8>,
        /// What is said, an error at least.
        messages: Vec<Message>,
    },
    /// Memory was refused.
    NoMemory,
}

impl From<AllocError> for ProgramFault {
    fn from(_error: AllocError) -> ProgramFault {
        ProgramFault::NoMemory
    }
}

impl<T: Drop> From<AllocFailed<T>> for ProgramFault {
    fn from(_error: AllocFailed<T>) -> ProgramFault {
        ProgramFault::NoMemory
    }
}

/// The program of the bytes of a path.
pub fn program_of(alloc: Global, path: &str, bytes: Vec<u8>) -> Result<Program, LabFault> {
    match program_in(alloc, bytes) {
        Ok(program) => Ok(program),
        Err(ProgramFault::NoMemory) => Err(LabFault::NoMemory),
        Err(ProgramFault::Messages { text, messages }) => {
            Err(LabFault::Lines(lines_of(alloc, path, &text, &messages)?))
        }
    }
}

/// The program of a file's bytes: a source text is assembled, an image is read.
pub fn program_in(alloc: Global, bytes: Vec<u8>) -> Result<Program, ProgramFault> {
    if is_image(&bytes) {
        return program_of_image(alloc, &bytes);
    }
    let source = SourceText::of(alloc, bytes)?;
    match assemble(alloc, source.ascii()) {
        Ok(image) => Ok(Program {
            text: source.into_shown(),
            image,
        }),
        Err(
            AsmFault {
                kind: Fault::NoMemory,
                ..
            },
        ) => Err(ProgramFault::NoMemory),
        Err(_) => Err(ProgramFault::Messages {
            messages: source.messages(alloc)?,
            text: source.into_written(),
        }),
    }
}

/// The program of an image's bytes.
fn program_of_image(alloc: Global, bytes: &[u8]) -> Result<Program, ProgramFault> {
    match read_image(alloc, bytes) {
        Ok(image) => {
            let text = listing(alloc, &image)?;
            Ok(Program {
                text: Vec::from_slice(alloc, text.as_bytes())?,
                image,
            })
        }
        Err(ImageFault::NoMemory) => Err(ProgramFault::NoMemory),
        Err(fault) => {
            let mut messages = Vec::new(alloc);
            messages.push(image_fault_words(alloc, bytes, fault)?)?;
            Err(ProgramFault::Messages {
                text: Vec::new(alloc),
                messages,
            })
        }
    }
}

/// What is said of the text of a path, in lines.
fn lines_of(
    alloc: Global,
    path: &str,
    text: &[u8],
    messages: &[Message],
) -> Result<String, AllocError> {
    let mut lines = String::new(alloc);
    let path = plain(alloc, path)?;
    for message in messages {
        push_message(&mut lines, &path, text, message)?;
    }
    Ok(lines)
}
