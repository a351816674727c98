//! The exercises of a folder.

use crate::left_out::{LeftOut, LookedFor};
use crate::part_files::read_part;
use command_parts::{Inputs, LabFault, folder_names, slash_after};
use plain_text::{file_name, plain};
use std::alloc::{AllocError, Global};
use std::io::Read;
use std::rt::Files;
use std::str;

/// What is said besides of a folder that can't be read.
const ADVICE: &str = "; --folder says where the exercises are";

/// The most exercises of a folder.
const MOST_EXERCISES: usize = 1_000;

/// An exercise.
#[derive(Drop)]
pub struct Exercise {
    /// Its number, which its folder's name begins with.
    pub number: usize,
    /// The path of its folder.
    pub path: String,
    /// What it is called: the first line of its task, without control bytes.
    pub title: String,
}

impl Exercise {
    /// The path of a file in its folder.
    pub fn file(&self, alloc: Global, name: &str) -> Result<String, AllocError> {
        let path = self.path.as_str();
        format!(in alloc; "{path}/{name}")
    }

    /// Whether a word is its number, the name of its folder, or this name without the number: `3`, `03_lock`, `lock`.
    pub fn is_called(&self, word: &str) -> bool {
        if let Some(number) = number_in(word) {
            return number == self.number;
        }
        let folder = file_name(&self.path);
        match folder.split_once('_') {
            Some((_, name)) => name == word,
            None => false,
        }
    }
}

/// The exercises of a folder, in the order of their names, one at least: its folders `NUMBER_NAME`.
pub fn read_exercises<F: Files, R: Read>(
    alloc: Global,
    inputs: &mut Inputs<'_, F, R>,
    folder: &str,
) -> Result<Vec<Exercise>, LabFault> {
    let names = names_of_exercises(alloc, inputs.files, folder)?;
    let mut exercises = Vec::new(alloc);
    for name in &names {
        if let Some(number) = number_in(name) {
            exercises.push(exercise_of(alloc, inputs, folder, name, number)?)?;
        }
    }
    Ok(exercises)
}

/// The number of an exercise, by its number or by the name of its folder: `3`, `03_lock`.
fn number_in(word: &str) -> Option<usize> {
    let digits = match word.split_once('_') {
        Some((before, _)) => before,
        None => word,
    };
    if digits.bytes().all(|byte| byte.is_ascii_digit()) {
        digits.parse::<usize>().ok()
    } else {
        None
    }
}

/// The exercise of a folder's name.
fn exercise_of<F: Files, R: Read>(
    alloc: Global,
    inputs: &mut Inputs<'_, F, R>,
    folder: &str,
    name: &str,
    number: usize,
) -> Result<Exercise, LabFault> {
    let slash = slash_after(folder);
    let title = title_at(
        alloc,
        inputs,
        &format!(in alloc; "{folder}{slash}{name}/task.md")?,
    )?;
    Ok(Exercise {
        number,
        path: format!(in alloc; "{folder}{slash}{name}")?,
        title,
    })
}

/// The title of the task of a path.
fn title_at<F: Files, R: Read>(
    alloc: Global,
    inputs: &mut Inputs<'_, F, R>,
    path: &str,
) -> Result<String, LabFault> {
    let text = read_part(alloc, inputs, path)?;
    title_of(alloc, &text)
}

/// The first line of a task, without the mark of a heading.
fn title_of(alloc: Global, task: &[u8]) -> Result<String, LabFault> {
    let line = task.split(|byte| *byte == b'\n').next().unwrap_or(b"");
    let line = str::from_utf8(line).unwrap_or("");
    Ok(plain(alloc, line.strip_prefix("# ").unwrap_or(line).trim())?)
}

/// The names of a folder's exercises, in their order.
fn names_of_exercises<F: Files>(
    alloc: Global,
    files: &F,
    folder: &str,
) -> Result<Vec<String>, LabFault> {
    let bytes = folder_names(alloc, files, folder, ADVICE)?;
    let mut names: Vec<String> = Vec::new(alloc);
    push_names(alloc, &bytes, &mut names)?;
    if names.is_empty() {
        return no_exercise(alloc, files, folder);
    }
    names.sort()?;
    Ok(names)
}

/// Adds the names of exercises among the entries of a folder, each of which ends with a zero byte.
fn push_names(alloc: Global, entries: &[u8], names: &mut Vec<String>) -> Result<(), AllocError> {
    for entry in entries.split(|byte| *byte == 0) {
        if let Some(name) = name_of_exercise(entry)
            && names.len() < MOST_EXERCISES
        {
            names.push(String::from_str(alloc, name)?)?;
        }
    }
    Ok(())
}

/// That a folder has no exercise, or none that can be read.
fn no_exercise<F: Files>(alloc: Global, files: &F, folder: &str) -> Result<Vec<String>, LabFault> {
    let mut left_out = LeftOut::none(alloc);
    left_out.add(alloc, files, folder, LookedFor::Exercises)?;
    match left_out.fault()? {
        Some(fault) => Err(fault),
        None => Err(LabFault::Words(format!(in alloc;
            "{folder}: no exercise is here, as a folder 01_NAME; --folder says where they are"
        )?)),
    }
}

/// The name of the exercise that an entry of a folder is.
fn name_of_exercise(entry: &[u8]) -> Option<&str> {
    let name = str::from_utf8(entry).ok()?;
    let (digits, _) = name.split_once('_')?;
    if digits.is_empty() {
        return None;
    }
    number_in(name)?;
    Some(name)
}
