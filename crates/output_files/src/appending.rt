//! A file to whose end whole lines are added.

use crate::identities::FileIdentity;
use crate::used_files::{FoundBy, UsedFiles};
use crate::write_faults::WriteFault;
use crate::writing::refuse_used;
use std::alloc::Global;
use std::fs::{OpenFile, OpenOptions};
use std::io::{Seek, SeekFrom, Write};
use std::rt::Files;

/// Opens the regular file of a path that the user named, to add to its end. Nothing of it changes, and it is not made.
pub fn open_to_append<F: Files>(
    alloc: Global,
    files: &F,
    used: &UsedFiles,
    path: &str,
) -> Result<F::File, WriteFault> {
    let found = files.metadata(path)?;
    refuse_used(alloc, files, used, FoundBy::AnyPath, &found)?;
    if !found.is_file() {
        return Err(WriteFault::NotRegular);
    }
    let mut options = OpenOptions::new();
    options.read(true).append(true);
    let file = options.open(files, path)?;
    if FileIdentity::of(&file.metadata()?) != FileIdentity::of(&found) {
        return Err(WriteFault::Busy);
    }
    Ok(file)
}

/// Adds these bytes to the end of a file that was opened so. Where the system refuses them in the middle, as on a full
/// disk, the file keeps its old length.
pub fn append<T: Write + Seek + OpenFile>(file: &mut T, bytes: &[u8]) -> Result<(), WriteFault> {
    let length = file.seek(SeekFrom::End(0))?;
    let added = file.write_all(bytes).and_then(|()| file.flush());
    if added.is_err() {
        let _ = file.set_len(length);
    }
    Ok(added?)
}
