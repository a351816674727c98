//! Files that are made together, where nothing has their names.

use crate::contents::has_bytes;
use crate::making::make_whole;
use crate::write_faults::WriteFault;
use std::alloc::Global;
use std::fs;
use std::io::{Error, ErrorKind};
use std::rt::Files;

/// A file that is to be made.
#[derive(Clone, Copy, Debug)]
pub struct NewFile<'a> {
    /// Its path.
    pub path: &'a str,
    /// Its content.
    pub bytes: &'a [u8],
}

/// Which file was not made, and why.
#[derive(Drop)]
pub struct NotMade<'a> {
    /// Its path.
    pub path: &'a str,
    /// Why.
    pub fault: WriteFault,
}

/// Makes files where nothing has their names, all or none. A name that is a link, wherever it leads, is taken too, and so
/// is one that something gets meanwhile.
pub fn make_new<'a, F: Files>(
    alloc: Global,
    files: &F,
    wanted: &[NewFile<'a>],
) -> Result<(), NotMade<'a>> {
    for (index, file) in wanted.iter().enumerate() {
        if let Err(error) = make_whole(alloc, files, file.path, file.bytes) {
            take_back(files, wanted.get(..index).unwrap_or(&[]));
            let fault = match error.kind() {
                ErrorKind::AlreadyExists => WriteFault::Exists,
                _ => WriteFault::from(error),
            };
            return Err(NotMade {
                path: file.path,
                fault,
            });
        }
    }
    Ok(())
}

/// Removes files that were made, as far as they are still as they were made.
fn take_back<F: Files>(files: &F, made: &[NewFile<'_>]) {
    for file in made {
        if is_as_made(files, file).unwrap_or(false) {
            let _ = files.remove_file(file.path);
        }
    }
}

/// Whether a regular file of these bytes is at the path.
fn is_as_made<F: Files>(files: &F, made: &NewFile<'_>) -> Result<bool, Error> {
    if !files.symlink_metadata(made.path)?.is_file() {
        return Ok(false);
    }
    let mut file = fs::open(files, made.path)?;
    has_bytes(&mut file, made.bytes)
}
