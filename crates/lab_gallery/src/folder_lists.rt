//! Names in a folder.

use exercise_files::parts::{LabFault, folder_names};
use std::alloc::{AllocError, Global};
use std::rt::Files;
use std::str;

/// The most names of a folder that are looked at.
const MOST_NAMES: usize = 10_000;

/// The names in a folder that end so, without this end, in their order. `advice` stands after the fault of a folder that
/// can't be read.
pub(crate) fn names_ending<F: Files>(
    alloc: Global,
    files: &F,
    folder: &str,
    end: &str,
    advice: &str,
) -> Result<Vec<String>, LabFault> {
    let entries = folder_names(alloc, files, folder, advice)?;
    let mut names: Vec<String> = Vec::new(alloc);
    push_names(alloc, &entries, end, &mut names)?;
    names.sort()?;
    Ok(names)
}

/// Adds such names among the entries of a folder, each of which ends with a zero byte.
fn push_names(
    alloc: Global,
    entries: &[u8],
    end: &str,
    names: &mut Vec<String>,
) -> Result<(), AllocError> {
    for entry in entries.split(|byte| *byte == 0) {
        if let Ok(name) = str::from_utf8(entry)
            && let Some(stem) = name.strip_suffix(end)
            && !stem.is_empty()
            && names.len() < MOST_NAMES
        {
            names.push(String::from_str(alloc, stem)?)?;
        }
    }
    Ok(())
}
