//! What a gallery shows: exercises, each with a wrong program of it, and examples.

use crate::example_cards::ADVICE;
use crate::folder_lists::names_ending;
use crate::galleries::Gallery;
use crate::levels::LevelFile;
use exercise_files::parts::{Inputs, LabFault, slash_after};
use exercise_files::{Exercise, read_exercises, read_part};
use lab_requests::GalleryRequest;
use plain_text::file_name;
use std::alloc::{AllocError, Global};
use std::io::Read;
use std::rt::Files;

/// What is said of a level that names an exercise alone.
const NO_PROGRAM: &str = "a level of an exercise names its program: EXERCISE/PROGRAM";

/// What a gallery shows.
#[derive(Drop)]
pub struct GalleryFiles {
    /// The exercises, in their order.
    pub exercises: Vec<ShownExercise>,
    /// The names of the examples, without their end.
    pub(crate) examples: Vec<String>,
    /// The levels.
    pub(crate) levels: LevelFile,
}

/// An exercise of a gallery.
#[derive(Drop)]
pub struct ShownExercise {
    /// The exercise.
    pub exercise: Exercise,
    /// The wrong program that is shown of it; None if it has none, and so no card.
    pub wrong: Option<WrongProgram>,
}

/// A wrong program of an exercise.
#[derive(Drop)]
pub struct WrongProgram {
    /// The name of its file, without its end.
    pub(crate) name: String,
    /// The path of its file.
    pub path: String,
}

/// Reads what a gallery shows: of each exercise the wrong program that its level names, or else the first one.
pub fn read_gallery<F: Files, R: Read>(
    alloc: Global,
    inputs: &mut Inputs<'_, F, R>,
    request: &GalleryRequest,
) -> Result<GalleryFiles, LabFault> {
    let levels = read_levels(alloc, inputs, request.exercises)?;
    let exercises = shown_exercises(alloc, inputs, request, &levels)?;
    let examples = names_ending(alloc, inputs.files, request.examples, ".asm", ADVICE)?;
    Ok(GalleryFiles {
        exercises,
        examples,
        levels,
    })
}

/// The file of the levels that lies beside the exercises; an empty one where there is none.
fn read_levels<F: Files, R: Read>(
    alloc: Global,
    inputs: &mut Inputs<'_, F, R>,
    exercises: &str,
) -> Result<LevelFile, LabFault> {
    let slash = slash_after(exercises);
    let path = format!(in alloc; "{exercises}{slash}levels")?;
    let bytes = match inputs.files.symlink_metadata(&path) {
        Ok(_) => read_part(alloc, inputs, &path)?,
        Err(_) => Vec::new(alloc),
    };
    Ok(LevelFile { path, bytes })
}

/// The exercises, each with the wrong program that is shown of it.
fn shown_exercises<F: Files, R: Read>(
    alloc: Global,
    inputs: &mut Inputs<'_, F, R>,
    request: &GalleryRequest,
    file: &LevelFile,
) -> Result<Vec<ShownExercise>, LabFault> {
    let levels = file.levels(alloc)?;
    let gallery = Gallery {
        folder: request.folder,
        file,
        levels: &levels,
    };
    let mut shown: Vec<ShownExercise> = Vec::new(alloc);
    for exercise in read_exercises(alloc, inputs, request.exercises)? {
        let wrong = wrong_program(alloc, inputs, gallery, &exercise)?;
        shown.push(ShownExercise { exercise, wrong })?;
    }
    Ok(shown)
}

/// The wrong program of an exercise that is shown. One that can't be read is refused.
fn wrong_program<F: Files, R: Read>(
    alloc: Global,
    inputs: &mut Inputs<'_, F, R>,
    gallery: Gallery<'_>,
    exercise: &Exercise,
) -> Result<Option<WrongProgram>, LabFault> {
    let Some(name) = name_shown(alloc, inputs.files, gallery, exercise)? else {
        return Ok(None);
    };
    let path = path_of(alloc, exercise, &name)?;
    read_part(alloc, inputs, &path)?;
    Ok(Some(WrongProgram { name, path }))
}

/// The path of a wrong program.
fn path_of(alloc: Global, exercise: &Exercise, name: &str) -> Result<String, AllocError> {
    let folder = exercise.path.as_str();
    format!(in alloc; "{folder}/wrong/{name}.asm")
}

/// The name of the wrong program that is shown: the one of the level, or else the first one.
fn name_shown<F: Files>(
    alloc: Global,
    files: &F,
    gallery: Gallery<'_>,
    exercise: &Exercise,
) -> Result<Option<String>, LabFault> {
    let Some(level) = gallery.level(file_name(&exercise.path)) else {
        return first_program(alloc, files, exercise);
    };
    if level.program.is_empty() {
        return Err(gallery.fault(alloc, level, NO_PROGRAM)?);
    }
    Ok(Some(String::from_str(alloc, level.program)?))
}

/// The first wrong program of an exercise, in the order of names; None if it has none, or no folder for them.
fn first_program<F: Files>(
    alloc: Global,
    files: &F,
    exercise: &Exercise,
) -> Result<Option<String>, LabFault> {
    let folder = exercise.file(alloc, "wrong")?;
    if files.symlink_metadata(&folder).is_err() {
        return Ok(None);
    }
    let wrong = names_ending(alloc, files, &folder, ".asm", "")?;
    match wrong.first() {
        Some(name) => Ok(Some(String::from_str(alloc, name)?)),
        None => Ok(None),
    }
}
