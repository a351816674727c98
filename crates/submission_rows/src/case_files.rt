//! The cases that submissions are judged by, read.

use asked_programs::cells_of;
use expectation_messages::parts::{Inputs, LabFault, RegularFile, folder_names, slash_after};
use grade_rows::judges::Case;
use lab_requests::GradeCases;
use named_files::shown_name;
use std::alloc::{AllocError, Global};
use std::io::Read;
use std::rt::Files;
use std::str;

/// The most cases that a folder has.
const MOST_CASES: usize = 10_000;

/// A case without a name, of which nothing was read.
fn unread_case(alloc: Global) -> Case {
    Case {
        name: None,
        path: String::new(alloc),
        expected: Vec::new(alloc),
        cells: None,
        given: Vec::new(alloc),
    }
}

/// Takes the cells of the file of a path, whose bytes a case has, into the case.
fn take_cells(alloc: Global, path: &str, case: &mut Case) -> Result<(), LabFault> {
    case.cells = Some(cells_of(alloc, path, &case.given)?);
    Ok(())
}

/// All the bytes of a file in a folder of cases. It has to be a regular file: so nothing waits at a FIFO.
fn read_in_folder<F: Files, R: Read>(
    alloc: Global,
    inputs: &mut Inputs<'_, F, R>,
    path: &str,
) -> Result<Vec<u8>, LabFault> {
    match inputs.read_regular(alloc, path, false)? {
        Ok(RegularFile { bytes, link: _link }) => Ok(bytes),
        Err(why) => Err(LabFault::Words(format!(in alloc; "{path}: {why}")?)),
    }
}

/// The cases that are asked for, in the order of their names, one at least.
pub fn read_cases<F: Files, R: Read>(
    alloc: Global,
    inputs: &mut Inputs<'_, F, R>,
    cases: GradeCases,
) -> Result<Vec<Case>, LabFault> {
    match cases {
        GradeCases::Folder(folder) => cases_of_folder(alloc, inputs, folder),
        GradeCases::One { expected, given } => {
            let case = case_given(alloc, inputs, expected, given)?;
            let mut cases = Vec::new(alloc);
            cases.push(case)?;
            Ok(cases)
        }
    }
}

/// The only case: that of a file of expectations, and perhaps of one of cells.
fn case_given<F: Files, R: Read>(
    alloc: Global,
    inputs: &mut Inputs<'_, F, R>,
    expected: &str,
    given: Option<&str>,
) -> Result<Case, LabFault> {
    let mut case = unread_case(alloc);
    read_given(alloc, inputs, expected, given, &mut case)?;
    Ok(case)
}

/// Reads a case of a file of expectations, and perhaps of one of cells.
fn read_given<F: Files, R: Read>(
    alloc: Global,
    inputs: &mut Inputs<'_, F, R>,
    expected: &str,
    given: Option<&str>,
    case: &mut Case,
) -> Result<(), LabFault> {
    case.expected = inputs.read(alloc, expected)?;
    case.path = String::from_str(alloc, expected)?;
    if let Some(path) = given {
        case.given = inputs.read(alloc, path)?;
        take_cells(alloc, path, case)?;
    }
    Ok(())
}

/// The cases of a folder.
fn cases_of_folder<F: Files, R: Read>(
    alloc: Global,
    inputs: &mut Inputs<'_, F, R>,
    folder: &str,
) -> Result<Vec<Case>, LabFault> {
    let names = names_in_folder(alloc, inputs.files, folder)?;
    let mut cases = Vec::new(alloc);
    for name in &names {
        cases.push(case_of(alloc, inputs, folder, name)?)?;
    }
    Ok(cases)
}

/// The case of a name.
fn case_of<F: Files, R: Read>(
    alloc: Global,
    inputs: &mut Inputs<'_, F, R>,
    folder: &str,
    name: &str,
) -> Result<Case, LabFault> {
    let mut case = unread_case(alloc);
    read_in(alloc, inputs, folder, name, &mut case)?;
    case.name = Some(String::from_str(alloc, name)?);
    Ok(case)
}

/// Reads a case from the two files of its name in a folder.
fn read_in<F: Files, R: Read>(
    alloc: Global,
    inputs: &mut Inputs<'_, F, R>,
    folder: &str,
    name: &str,
    case: &mut Case,
) -> Result<(), LabFault> {
    let slash = slash_after(folder);
    case.path = format!(in alloc; "{folder}{slash}{name}.expect")?;
    case.expected = read_in_folder(alloc, inputs, &case.path)?;
    let data = format!(in alloc; "{folder}{slash}{name}.data")?;
    case.given = read_in_folder(alloc, inputs, &data)?;
    take_cells(alloc, &data, case)
}

/// The names of a folder's cases, in their order, one at least.
fn names_in_folder<F: Files>(
    alloc: Global,
    files: &F,
    folder: &str,
) -> Result<Vec<String>, LabFault> {
    let bytes = folder_names(alloc, files, folder, "")?;
    names_of_cases(alloc, folder, &bytes)
}

/// The same by the names of the folder's files, each with a zero after it.
fn names_of_cases(alloc: Global, folder: &str, bytes: &[u8]) -> Result<Vec<String>, LabFault> {
    let mut names = Vec::new(alloc);
    add_names(alloc, &mut names, folder, bytes)?;
    if names.is_empty() {
        return Err(no_case_in(alloc, folder)?);
    }
    names.sort()?;
    Ok(names)
}

/// Adds each name once: of each file NAME.data or NAME.expect the part before the point.
fn add_names(
    alloc: Global,
    names: &mut Vec<String>,
    folder: &str,
    bytes: &[u8],
) -> Result<(), LabFault> {
    for entry in bytes.split(|byte| *byte == 0) {
        if is_foreign_case(entry) {
            return Err(foreign_case(alloc, folder, entry)?);
        }
        if let Some(name) = name_of_case(entry)
            && !names.iter().any(|known: &String| known.as_str() == name)
        {
            if names.len() >= MOST_CASES {
                return Err(too_many_cases(alloc, folder)?);
            }
            names.push(String::from_str(alloc, name)?)?;
        }
    }
    Ok(())
}

/// What is said of a folder that has more cases than are taken.
fn too_many_cases(alloc: Global, folder: &str) -> Result<LabFault, AllocError> {
    Ok(LabFault::Words(format!(in alloc; "{folder}: more than {MOST_CASES} cases")?))
}

/// Whether a file is of a case by the end of its name, which is not UTF-8.
fn is_foreign_case(entry: &[u8]) -> bool {
    let is_case = entry.ends_with(b".data") || entry.ends_with(b".expect");
    is_case && str::from_utf8(entry).is_err()
}

/// What is said of a folder with such a file.
fn foreign_case(alloc: Global, folder: &str, entry: &[u8]) -> Result<LabFault, AllocError> {
    let slash = slash_after(folder);
    let name = shown_name(alloc, entry)?;
    Ok(LabFault::Words(format!(in alloc;
        "{folder}{slash}{name}: the name of a case has to be UTF-8"
    )?))
}

/// What is said of a folder that has no case.
fn no_case_in(alloc: Global, folder: &str) -> Result<LabFault, AllocError> {
    Ok(LabFault::Words(format!(in alloc;
        "{folder}: no case is here, as NAME.data and NAME.expect"
    )?))
}

/// The name of the case that a file of this name is of.
fn name_of_case(entry: &[u8]) -> Option<&str> {
    let entry = str::from_utf8(entry).ok()?;
    let (name, kind) = entry.rsplit_once('.')?;
    if name.is_empty() || kind != "data" && kind != "expect" {
        return None;
    }
    Some(name)
}
