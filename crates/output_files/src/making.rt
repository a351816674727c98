//! A file that is made where there was none.

use crate::places::folder_of;
use crate::random_numbers::random_number;
use std::alloc::{AllocError, Global};
use std::fs::{OpenFile, OpenOptions};
use std::io::{Error, ErrorKind, Write};
use std::os::unix::fs::{MetadataExt, OpenOptionsExt};
use std::rt::Files;

/// How many names are tried for a file that is made beside a place.
const MOST_NAMES: u64 = 1000;

/// The permission bits of a file that is new, from which the system takes those of the process's mask.
const NEW_MODE: u32 = 0o666;

/// Those of a file that nobody else is to see.
const HIDDEN_MODE: u32 = 0o600;

/// Makes a file of these bytes at a place, whole at once, whose name nothing has: else the error is AlreadyExists. A link
/// has a name too, wherever it leads. An error leaves nothing that was made.
pub(crate) fn make_whole<F: Files>(
    alloc: Global,
    files: &F,
    place: &str,
    bytes: &[u8],
) -> Result<(), Error> {
    let (beside, mut file) = make_beside(alloc, files, place, NEW_MODE)?;
    let made = fill_and_name(files, &mut file, &beside, place, bytes);
    let _ = files.remove_file(&beside);
    made
}

/// Writes the bytes to the file that was made beside a place, and gives it that place as a second name. A system of files
/// without second names gets the file there at once.
fn fill_and_name<F: Files>(
    files: &F,
    file: &mut F::File,
    beside: &str,
    place: &str,
    bytes: &[u8],
) -> Result<(), Error> {
    file.write_all(bytes)?;
    file.flush()?;
    match files.hard_link(beside, place) {
        Err(error) if error.kind() != ErrorKind::AlreadyExists => make_there(files, place, bytes),
        named => named,
    }
}

/// Makes a file of these bytes at a place whose name nothing has.
fn make_there<F: Files>(files: &F, place: &str, bytes: &[u8]) -> Result<(), Error> {
    let mut file = make_file(files, place, NEW_MODE)?;
    let written = file.write_all(bytes);
    if written.is_err() {
        let _ = files.remove_file(place);
    }
    written
}

/// Makes a file of these bytes in the folder of a place, which nobody else can read, and which is on the disk when this
/// ends; its path. An error leaves nothing that was made.
pub(crate) fn make_hidden<F: Files>(
    alloc: Global,
    files: &F,
    place: &str,
    bytes: &[u8],
) -> Result<String, Error> {
    let (beside, mut file) = make_beside(alloc, files, place, HIDDEN_MODE)?;
    match fill(&mut file, bytes) {
        Ok(()) => Ok(beside),
        Err(error) => {
            let _ = files.remove_file(&beside);
            Err(error)
        }
    }
}

/// Writes the bytes to a file, and waits until the disk has them: some systems say only then that there was no room.
fn fill<T: Write + OpenFile>(file: &mut T, bytes: &[u8]) -> Result<(), Error> {
    file.write_all(bytes)?;
    file.flush()?;
    file.sync_all()
}

/// Makes an empty file in the folder of a place, under a name that nothing had; that name and the open file.
fn make_beside<F: Files>(
    alloc: Global,
    files: &F,
    place: &str,
    mode: u32,
) -> Result<(String, F::File), Error> {
    let folder = folder_of(place);
    for attempt in 0..MOST_NAMES {
        let beside = name_in(alloc, files, folder, attempt)?;
        match make_file(files, &beside, mode) {
            Ok(file) => return Ok((beside, file)),
            Err(error) if error.kind() == ErrorKind::AlreadyExists => {}
            Err(error) => return Err(error),
        }
    }
    Err(Error::new(
        ErrorKind::AlreadyExists,
        "no name is free for a file beside it",
    ))
}

/// Makes an empty file; an error where anything has its name, a link that leads nowhere too.
fn make_file<F: Files>(files: &F, path: &str, mode: u32) -> Result<F::File, Error> {
    let mut options = OpenOptions::new();
    options.write(true).create_new(true).mode(mode);
    options.open(files, path)
}

/// A name in a folder, which nobody can take beforehand: it is drawn at random for each attempt.
fn name_in<F: Files>(
    alloc: Global,
    files: &F,
    folder: &str,
    attempt: u64,
) -> Result<String, AllocError> {
    let number = match random_number(files) {
        Ok(number) => number,
        // (a root without devices)
        Err(_) => time_of(files, folder).wrapping_add(attempt),
    };
    format!(in alloc; "{folder}.mta_lab-{number:016x}.new")
}

/// The nanoseconds of the second in which a folder was last changed; 0 where that is not known.
fn time_of<F: Files>(files: &F, folder: &str) -> u64 {
    let path = if folder.is_empty() { "." } else { folder };
    match files.metadata(path) {
        Ok(found) => found.mtime_nsec().unsigned_abs(),
        Err(_) => 0,
    }
}
