//! Programs, read as they are asked for.

use crate::cells_files::cells_of;
use crate::given_words::image_with_words;
use crate::lacking_names::lacking_words;
use crate::warnings::{WarningChoice, warnings_of};
use case_cells::name_lacking;
use command_parts::{Inputs, LabFault, Program, program_of, read_program};
use std::alloc::Global;
use std::io::Read;
use std::rt::Files;

/// The most warnings that are shown above an answer.
const MOST_WARNINGS: usize = 5;

/// A program, and what `check` says of its conditions that always or never hold.
#[derive(Drop)]
pub struct WarnedProgram {
    /// The program.
    pub program: Program,
    /// The warnings, in lines; empty if there are none, or if it is an image.
    pub warnings: String,
}

/// The program of a path, a source text or an image. With the file of a case's words these take the place of the program's
/// own, as `image_with_words` says; a program that has only some of their names is refused.
pub fn read_asked_program<F: Files, R: Read>(
    alloc: Global,
    inputs: &mut Inputs<'_, F, R>,
    path: &str,
    given: Option<&str>,
) -> Result<Program, LabFault> {
    let program = read_program(alloc, inputs, path)?;
    with_words_asked(alloc, inputs, program, given)
}

/// The same with the warnings of `check` about conditions that always or never hold.
pub fn read_warned_program<F: Files, R: Read>(
    alloc: Global,
    inputs: &mut Inputs<'_, F, R>,
    path: &str,
    given: Option<&str>,
) -> Result<WarnedProgram, LabFault> {
    let bytes = inputs.read(alloc, path)?;
    let warnings = warnings_of(alloc, path, &bytes, WarningChoice::Certain, MOST_WARNINGS)?;
    let program = program_of(alloc, path, bytes)?;
    Ok(WarnedProgram {
        program: with_words_asked(alloc, inputs, program, given)?,
        warnings,
    })
}

/// A program with the words of the file of a case, if one is given.
fn with_words_asked<F: Files, R: Read>(
    alloc: Global,
    inputs: &mut Inputs<'_, F, R>,
    program: Program,
    given: Option<&str>,
) -> Result<Program, LabFault> {
    let Some(path) = given else {
        return Ok(program);
    };
    let words = inputs.read(alloc, path)?;
    let cells = cells_of(alloc, path, &words)?;
    if let Some(name) = name_lacking(alloc, false, &words, &program.text)? {
        let why = lacking_words(alloc, &words, name, &program.text)?;
        return Err(LabFault::Words(format!(in alloc; "{path}: {why}")?));
    }
    let image = image_with_words(alloc, &program, &words, &cells)?;
    let Program {
        text,
        image: _own_image,
    } = program;
    Ok(Program { text, image })
}
