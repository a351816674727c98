//! Files that commands write.

use crate::inputs::Inputs;
use crate::lab_fault::LabFault;
use output_files::{
    NewFile, Output, PathOrigin, WriteFault, append, make_folder, make_new, open_to_append,
    write_whole,
};
use std::alloc::{AllocError, Global};
use std::io::Read;
use std::rt::Files;

impl<F: Files, R: Read> Inputs<'_, F, R> {
    /// Writes these bytes to the file of a path that the user named, as `write_whole` does, or says in words why not: a
    /// file that the command has read, or that a standard stream goes to, is not written over.
    pub fn write<'o>(&self, alloc: Global, path: &'o str, bytes: &'o [u8]) -> Result<(), LabFault> {
        self.put(
            alloc,
            Output {
                path,
                origin: PathOrigin::Named,
                bytes,
                replaced: None,
            },
        )
    }

    /// The same of a path that the lab chose: what is there has to be a regular file, and no link.
    pub fn write_derived<'o>(
        &self,
        alloc: Global,
        path: &'o str,
        bytes: &'o [u8],
    ) -> Result<(), LabFault> {
        self.put(
            alloc,
            Output {
                path,
                origin: PathOrigin::Derived,
                bytes,
                replaced: None,
            },
        )
    }

    /// The same of a path that the user named, where its file has still the bytes that were read of it.
    pub fn write_over_read<'o>(
        &self,
        alloc: Global,
        path: &'o str,
        read: &'o [u8],
        bytes: &'o [u8],
    ) -> Result<(), LabFault> {
        self.put(
            alloc,
            Output {
                path,
                origin: PathOrigin::Named,
                bytes,
                replaced: Some(read),
            },
        )
    }

    /// Writes an output, or says in words why not.
    fn put(&self, alloc: Global, output: Output<'_>) -> Result<(), LabFault> {
        match write_whole(alloc, self.files, &self.used, output) {
            Ok(()) => Ok(()),
            Err(fault) => Err(not_written(alloc, output.path, &fault)?),
        }
    }

    /// Opens the regular file of a path that the user named, to add to its end, as `open_to_append` does, or says in words
    /// why not.
    pub fn open_to_append(&self, alloc: Global, path: &str) -> Result<F::File, LabFault> {
        match open_to_append(alloc, self.files, &self.used, path) {
            Ok(file) => Ok(file),
            Err(fault) => Err(not_written(alloc, path, &fault)?),
        }
    }

    /// Adds these bytes to the end of the file that was opened so by a path, all or none, or says in words why not.
    pub fn append(
        &self,
        alloc: Global,
        path: &str,
        file: &mut F::File,
        bytes: &[u8],
    ) -> Result<(), LabFault> {
        match append(file, bytes) {
            Ok(()) => Ok(()),
            Err(fault) => Err(not_written(alloc, path, &fault)?),
        }
    }

    /// Makes files where nothing has their names, all or none, or says in words why not.
    pub fn make_new(&self, alloc: Global, wanted: &[NewFile<'_>]) -> Result<(), LabFault> {
        match make_new(alloc, self.files, wanted) {
            Ok(()) => Ok(()),
            Err(unmade) => Err(not_written(alloc, unmade.path, &unmade.fault)?),
        }
    }

    /// Remembers the file of a path, if there is one, as a file that the command reads, before it does: it is not written
    /// over.
    pub fn reserve(&mut self, alloc: Global, path: &str) -> Result<(), AllocError> {
        match self.files.metadata(path) {
            Ok(metadata) => self.used.remember(alloc, self.files, path, &metadata),
            Err(_) => Ok(()),
        }
    }

    /// Makes a folder where there is none, or says in words why not.
    pub fn make_folder(&self, alloc: Global, path: &str) -> Result<(), LabFault> {
        match make_folder(self.files, path) {
            Ok(()) => Ok(()),
            Err(error) => Err(LabFault::Words(format!(in alloc;
                "{path}: the folder cannot be made: {error}"
            )?)),
        }
    }
}

/// Why a file was not written, in words.
fn not_written(alloc: Global, path: &str, fault: &WriteFault) -> Result<LabFault, AllocError> {
    let words = match fault {
        WriteFault::NoMemory => return Ok(LabFault::NoMemory),
        WriteFault::System(error) => format!(in alloc; "{path}: write failed: {error}")?,
        WriteFault::Partly { error, kept } => format!(in alloc;
            "{path}: write failed in the middle: {error}; its new content is whole in {kept}"
        )?,
        WriteFault::InUse(name) if name.as_str() == path => {
            format!(in alloc; "{path}: not written: this command reads it")?
        }
        WriteFault::InUse(name) => format!(in alloc;
            "{path}: not written: it is the same file as {name}, which this command uses"
        )?,
        WriteFault::Exists => format!(in alloc; "{path}: there is a file of this name")?,
        WriteFault::Link => format!(in alloc;
            "{path}: not written: it is a link, and you did not name it as the output"
        )?,
        WriteFault::NotRegular => {
            format!(in alloc; "{path}: not written: it is not a regular file")?
        }
        WriteFault::Changed => {
            format!(in alloc; "{path}: not written: it has changed since it was read")?
        }
        WriteFault::Busy => {
            format!(in alloc; "{path}: not written: another program keeps changing what it is")?
        }
    };
    Ok(LabFault::Words(words))
}
