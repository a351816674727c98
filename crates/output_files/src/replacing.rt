//! A regular file whose content is replaced.

use crate::contents::{has_bytes, lengthen, overwrite};
use crate::making::make_hidden;
use crate::write_faults::WriteFault;
use std::alloc::Global;
use std::fs::{OpenFile, OpenOptions};
use std::io::{Error, ErrorKind, Read, Seek, Write};
use std::rt::Files;

/// A file that is open to be replaced.
#[derive(Drop)]
pub(crate) struct OldFile<T> {
    /// The file.
    pub file: T,
    /// Whether it may be read too.
    pub is_readable: bool,
}

/// Opens the regular file at a place to be replaced, and changes nothing of it. (To be read too, since then nothing waits
/// where a FIFO has come to stand there.)
pub(crate) fn open_old<F: Files>(files: &F, place: &str) -> Result<OldFile<F::File>, Error> {
    let mut options = OpenOptions::new();
    options.read(true).write(true);
    match options.open(files, place) {
        Ok(file) => Ok(OldFile {
            file,
            is_readable: true,
        }),
        Err(error) if error.kind() == ErrorKind::PermissionDenied => Ok(OldFile {
            file: OpenOptions::new().write(true).open(files, place)?,
            is_readable: false,
        }),
        Err(error) => Err(error),
    }
}

/// Makes these bytes the content of the open file at a place, which stays the same file: its owner, group, permissions,
/// access list and other names stay. Where it is to have `replaced` until then, and has other bytes, it is left as it is;
/// it may have the new ones already.
///
/// Before that the new content lies whole in a file beside the place, and on the disk, so that it is found there if the
/// run is ended in the middle. A fault leaves the old content, or it is Partly.
pub(crate) fn replace_content<F: Files>(
    alloc: Global,
    files: &F,
    place: &str,
    old: &mut OldFile<F::File>,
    bytes: &[u8],
    replaced: Option<&[u8]>,
) -> Result<(), WriteFault> {
    let beside = make_hidden(alloc, files, place, bytes)?;
    let begun = begin(old, bytes, replaced);
    if begun.is_err() {
        let _ = files.remove_file(&beside);
        return begun;
    }
    match overwrite(files, &mut old.file, old.is_readable, bytes) {
        Ok(()) => {
            let _ = files.remove_file(&beside);
            Ok(())
        }
        Err(error) => Err(WriteFault::Partly {
            error,
            kept: beside,
        }),
    }
}

/// Looks whether a file still has what it is to have, or already its new content, and makes it as long as that.
fn begin<T: Read + Write + Seek + OpenFile>(
    old: &mut OldFile<T>,
    bytes: &[u8],
    replaced: Option<&[u8]>,
) -> Result<(), WriteFault> {
    if let Some(replaced) = replaced
        && !has_bytes(&mut old.file, replaced)?
        && !has_bytes(&mut old.file, bytes)?
    {
        return Err(WriteFault::Changed);
    }
    Ok(lengthen(&mut old.file, bytes)?)
}
