//! The names in a folder.

use crate::lab_fault::LabFault;
use std::alloc::{AllocError, Global};
use std::io::{Error, Read};
use std::rt::Files;

/// The bytes that one read of a folder's names asks for.
const CHUNK: usize = 65_536;

/// What stands between a folder's path and a name in it.
pub fn slash_after(folder: &str) -> &'static str {
    if folder.ends_with('/') { "" } else { "/" }
}

/// The names in a folder, each with a zero after it. `advice` stands after the fault of one that can't be read.
pub fn folder_names<F: Files>(
    alloc: Global,
    files: &F,
    folder: &str,
    advice: &str,
) -> Result<Vec<u8>, LabFault> {
    let slash = slash_after(folder);
    let path = format!(in alloc; "{folder}{slash}")?;
    match files.open_dir(&path) {
        Ok(mut reader) => read_names(alloc, &mut reader, folder, advice),
        Err(error) => Err(not_read(alloc, folder, &error, advice)?),
    }
}

/// All that a folder's reader has.
fn read_names<R: Read>(
    alloc: Global,
    reader: &mut R,
    folder: &str,
    advice: &str,
) -> Result<Vec<u8>, LabFault> {
    let mut names = Vec::new(alloc);
    let mut chunk = vec![in alloc; 0; CHUNK]?;
    for _ in 0..u64::MAX {
        match reader.read(&mut chunk) {
            Ok(0) => return Ok(names),
            Ok(count) => names.extend_from_slice(&chunk[..count])?,
            Err(error) => return Err(not_read(alloc, folder, &error, advice)?),
        }
    }
    Ok(names)
}

/// What is said of a folder that can't be read.
fn not_read(
    alloc: Global,
    folder: &str,
    error: &Error,
    advice: &str,
) -> Result<LabFault, AllocError> {
    Ok(LabFault::Words(format!(in alloc; "{folder}: read failed: {error}{advice}")?))
}
