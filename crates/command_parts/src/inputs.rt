//! Files and standard input, read whole.

use crate::lab_fault::LabFault;
use named_files::ForeignNames;
use output_files::UsedFiles;
use std::alloc::{AllocError, Global};
use std::fs;
use std::fs::OpenFile;
use std::io::{Error, Read};
use std::rt::Files;

/// The most bytes that are taken from one input.
const INPUT_LIMIT: usize = 33_554_432;

/// The bytes that one read asks for: most files have fewer, and each of them takes a buffer of this size.
const CHUNK: usize = 8_192;

/// What is said of a file whose name is not UTF-8.
pub(crate) const NOT_UTF_8: &str = "its name is not UTF-8: rename it to have it read";

/// Where a command's inputs come from, and which files it has read: it never writes over them.
#[derive(Drop)]
pub struct Inputs<'a, F, R> {
    /// Where files are opened.
    pub files: &'a F,
    /// Standard input, for the path `-`.
    pub input: &'a mut R,
    /// The files that were read.
    pub(crate) used: UsedFiles,
    /// The words of the command line that are not UTF-8.
    pub(crate) foreign: ForeignNames,
}

impl<'a, F: Files, R: Read> Inputs<'a, F, R> {
    /// Those of a command that has read nothing yet.
    pub fn new(alloc: Global, files: &'a F, input: &'a mut R) -> Inputs<'a, F, R> {
        Inputs {
            files,
            input,
            used: UsedFiles::none(alloc),
            foreign: ForeignNames::none(alloc),
        }
    }

    /// The same of a command in whose line these words are not UTF-8.
    pub fn with_names(
        alloc: Global,
        files: &'a F,
        input: &'a mut R,
        foreign: ForeignNames,
    ) -> Inputs<'a, F, R> {
        Inputs {
            files,
            input,
            used: UsedFiles::none(alloc),
            foreign,
        }
    }

    /// The words of the command line that are not UTF-8.
    pub fn names(&self) -> &ForeignNames {
        &self.foreign
    }

    /// All the bytes of the file of a path, or of standard input for `-`. The file is remembered as read.
    pub fn read(&mut self, alloc: Global, path: &str) -> Result<Vec<u8>, LabFault> {
        read_or_fault(alloc, path, self.read_or_why(alloc, path)?)
    }

    /// The same, or in words why it is not read, without its path.
    pub fn read_or_why(
        &mut self,
        alloc: Global,
        path: &str,
    ) -> Result<Result<Vec<u8>, String>, AllocError> {
        if path == "-" {
            return read_whole(alloc, self.input);
        }
        if self.foreign.has(path) {
            return Ok(Err(String::from_str(alloc, NOT_UTF_8)?));
        }
        match fs::open(self.files, path) {
            Ok(file) => self.read_opened(alloc, path, file),
            Err(error) => Ok(Err(not_read(alloc, &error)?)),
        }
    }

    /// The same of a file that the command is to replace: it is not remembered, and so it may be written over.
    pub fn read_to_replace(&mut self, alloc: Global, path: &str) -> Result<Vec<u8>, LabFault> {
        if self.foreign.has(path) {
            return Err(LabFault::Words(format!(in alloc; "{path}: {NOT_UTF_8}")?));
        }
        let read = if path == "-" {
            read_whole(alloc, self.input)?
        } else {
            match fs::open(self.files, path) {
                Ok(mut file) => read_whole(alloc, &mut file)?,
                Err(error) => Err(not_read(alloc, &error)?),
            }
        };
        read_or_fault(alloc, path, read)
    }

    /// All the bytes of the file of a path that is open to be added to; it is not remembered.
    pub fn read_again(&self, alloc: Global, path: &str) -> Result<Vec<u8>, LabFault> {
        let read = match fs::open(self.files, path) {
            Ok(mut file) => read_whole(alloc, &mut file)?,
            Err(error) => Err(not_read(alloc, &error)?),
        };
        read_or_fault(alloc, path, read)
    }

    /// The bytes of the file that was opened by a path, which is remembered as read; or in words why they are not read.
    pub(crate) fn read_opened(
        &mut self,
        alloc: Global,
        path: &str,
        file: F::File,
    ) -> Result<Result<Vec<u8>, String>, AllocError> {
        let mut file = file;
        self.remember(alloc, path, &file)?;
        read_whole(alloc, &mut file)
    }

    /// Remembers a file that was opened by a path.
    pub(crate) fn remember(
        &mut self,
        alloc: Global,
        path: &str,
        file: &F::File,
    ) -> Result<(), AllocError> {
        match file.metadata() {
            Ok(metadata) => self.used.remember(alloc, self.files, path, &metadata),
            Err(_) => Ok(()),
        }
    }
}

/// The bytes of a path, or the fault that says why they are not read.
fn read_or_fault(
    alloc: Global,
    path: &str,
    read: Result<Vec<u8>, String>,
) -> Result<Vec<u8>, LabFault> {
    match read {
        Ok(bytes) => Ok(bytes),
        Err(why) => Err(LabFault::Words(format!(in alloc; "{path}: {why}")?)),
    }
}

/// Why a file was not read, in words.
pub(crate) fn not_read(alloc: Global, error: &Error) -> Result<String, AllocError> {
    format!(in alloc; "read failed: {error}")
}

/// All the bytes that a reader has, or why they are not read.
fn read_whole<R: Read>(
    alloc: Global,
    reader: &mut R,
) -> Result<Result<Vec<u8>, String>, AllocError> {
    let mut bytes = Vec::new(alloc);
    let mut chunk = vec![in alloc; 0; CHUNK]?;
    for _ in 0..u64::MAX {
        match reader.read(&mut chunk) {
            Ok(0) => return Ok(Ok(bytes)),
            Ok(count) => {
                if count > INPUT_LIMIT - bytes.len().min(INPUT_LIMIT) {
                    return Ok(Err(format!(in alloc; "longer than {INPUT_LIMIT} bytes")?));
                }
                bytes.extend_from_slice(&chunk[..count])?;
            }
            Err(error) => {
                return Ok(Err(not_read(alloc, &error)?));
            }
        }
    }
    Ok(Ok(bytes))
}
