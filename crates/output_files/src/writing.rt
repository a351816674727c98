//! A file that is written as a whole.

use crate::identities::FileIdentity;
use crate::making::make_whole;
use crate::places::end_of_links;
use crate::replacing::{open_old, replace_content};
use crate::used_files::{FoundBy, UsedFiles};
use crate::write_faults::WriteFault;
use std::alloc::Global;
use std::fs::{Metadata, OpenFile, OpenOptions};
use std::io::{Error, ErrorKind, Write};
use std::os::unix::fs::MetadataExt;
use std::rt::Files;

/// How often a write begins again, where another program changes what its path leads to.
const MOST_ATTEMPTS: usize = 10_000;

/// Who chose the path of a file that is written.
#[derive(Clone, Copy, Debug, PartialEq, Eq)]
pub enum PathOrigin {
    /// The user: links are followed, and a device is written to.
    Named,
    /// The lab: the path has to be that of a regular file with one name, or of nothing.
    Derived,
}

/// What is to be written, and where.
#[derive(Clone, Copy, Debug)]
pub struct Output<'a> {
    /// The path.
    pub path: &'a str,
    /// Who chose it.
    pub origin: PathOrigin,
    /// The content.
    pub bytes: &'a [u8],
    /// What the file has to have until then; None where it may be anything, and may be missing.
    pub replaced: Option<&'a [u8]>,
}

/// What became of an attempt to write.
#[derive(Drop)]
enum Attempt {
    /// It is written.
    Done,
    /// Another file came to stand there, or may be about to go: the fault if it stays so.
    Again(WriteFault),
}

/// Makes these bytes the content of the file of a path. Where nothing is there, the file is made whole at once. A regular
/// file that is there gets them in place, unless the run uses it, under whatever name, or this process may not write to
/// it: it stays the same file, whose owner and permissions nothing changes. A device or a FIFO that the user named is
/// written to. A fault leaves a regular file as it was, or it is Partly.
pub fn write_whole<F: Files>(
    alloc: Global,
    files: &F,
    used: &UsedFiles,
    output: Output<'_>,
) -> Result<(), WriteFault> {
    let mut fault = WriteFault::Busy;
    for _ in 0..MOST_ATTEMPTS {
        match try_once(alloc, files, used, output)? {
            Attempt::Done => return Ok(()),
            Attempt::Again(found) => fault = found,
        }
    }
    Err(fault)
}

/// The same, once.
fn try_once<F: Files>(
    alloc: Global,
    files: &F,
    used: &UsedFiles,
    output: Output<'_>,
) -> Result<Attempt, WriteFault> {
    let found = match output.origin {
        PathOrigin::Named => files.metadata(output.path),
        PathOrigin::Derived => files.symlink_metadata(output.path),
    };
    match found {
        Ok(old) => write_over(alloc, files, used, output, &old),
        Err(error) if error.kind() == ErrorKind::NotFound => make(alloc, files, output),
        Err(error) => Err(WriteFault::from(error)),
    }
}

/// Makes the file where nothing is.
fn make<F: Files>(alloc: Global, files: &F, output: Output<'_>) -> Result<Attempt, WriteFault> {
    if output.replaced.is_some() {
        return Err(WriteFault::Changed);
    }
    let place = place_of(alloc, files, output)?;
    match make_whole(alloc, files, &place, output.bytes) {
        Ok(()) => Ok(Attempt::Done),
        Err(error) if error.kind() == ErrorKind::AlreadyExists => {
            Ok(Attempt::Again(WriteFault::from(error)))
        }
        Err(error) => Err(WriteFault::from(error)),
    }
}

/// The path without links that an output's path leads to.
fn place_of<F: Files>(alloc: Global, files: &F, output: Output<'_>) -> Result<String, Error> {
    match output.origin {
        PathOrigin::Named => end_of_links(alloc, files, output.path),
        PathOrigin::Derived => Ok(String::from_str(alloc, output.path)?),
    }
}

/// Writes where the path leads to something of which the system says this.
fn write_over<F: Files>(
    alloc: Global,
    files: &F,
    used: &UsedFiles,
    output: Output<'_>,
    old: &Metadata,
) -> Result<Attempt, WriteFault> {
    refuse_used(alloc, files, used, found_by(output, old), old)?;
    if !old.is_file() {
        write_to_special(files, output, old)?;
        return Ok(Attempt::Done);
    }
    if output.origin == PathOrigin::Derived && old.nlink() > 1 {
        // (a file that another run is making has two names for a moment)
        return Ok(Attempt::Again(WriteFault::Link));
    }
    let place = place_of(alloc, files, output)?;
    let mut opened = open_old(files, &place)?;
    if FileIdentity::of(&opened.file.metadata()?) != FileIdentity::of(old) {
        return Ok(Attempt::Again(WriteFault::Busy));
    }
    replace_content(
        alloc,
        files,
        &place,
        &mut opened,
        output.bytes,
        output.replaced,
    )?;
    Ok(Attempt::Done)
}

/// How the file of an output was found, of which the system says this.
fn found_by<'a>(output: Output<'a>, old: &Metadata) -> FoundBy<'a> {
    match output.origin {
        PathOrigin::Derived if old.nlink() == 1 => FoundBy::OnlyName(output.path),
        PathOrigin::Derived | PathOrigin::Named => FoundBy::AnyPath,
    }
}

/// Writes to what is no regular file, if the user named it, and it is not to be replaced.
fn write_to_special<F: Files>(
    files: &F,
    output: Output<'_>,
    old: &Metadata,
) -> Result<(), WriteFault> {
    match output.origin {
        PathOrigin::Named if output.replaced.is_none() => {
            let mut file = OpenOptions::new().write(true).open(files, output.path)?;
            file.write_all(output.bytes)?;
            Ok(file.flush()?)
        }
        PathOrigin::Derived if old.is_symlink() => Err(WriteFault::Link),
        PathOrigin::Named | PathOrigin::Derived => Err(WriteFault::NotRegular),
    }
}

/// A fault where this file, which was found so, is one that the run uses.
pub(crate) fn refuse_used<F: Files>(
    alloc: Global,
    files: &F,
    used: &UsedFiles,
    found: FoundBy<'_>,
    old: &Metadata,
) -> Result<(), WriteFault> {
    let Some(identity) = FileIdentity::of(old) else {
        return Ok(());
    };
    match used.name_of(files, found, identity) {
        Some(name) => Err(WriteFault::InUse(String::from_str(alloc, name)?)),
        None => Ok(()),
    }
}
