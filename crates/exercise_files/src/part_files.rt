//! The files of exercises and examples, which the lab finds in a folder: nobody names them one by one.

use command_parts::{Inputs, LabFault, RegularFile};
use std::alloc::{AllocError, Global};
use std::io::Read;
use std::rt::Files;

/// All the bytes of such a file, or in words why they are not read. It has to be a regular file: so nothing waits at a FIFO.
pub fn read_part_or_why<F: Files, R: Read>(
    alloc: Global,
    inputs: &mut Inputs<'_, F, R>,
    path: &str,
) -> Result<Result<Vec<u8>, String>, AllocError> {
    match inputs.read_regular(alloc, path, false)? {
        Ok(RegularFile { bytes, link: _link }) => Ok(Ok(bytes)),
        Err(why) => Ok(Err(why)),
    }
}

/// The same, or the fault that says why they are not read.
pub fn read_part<F: Files, R: Read>(
    alloc: Global,
    inputs: &mut Inputs<'_, F, R>,
    path: &str,
) -> Result<Vec<u8>, LabFault> {
    match read_part_or_why(alloc, inputs, path)? {
        Ok(bytes) => Ok(bytes),
        Err(why) => Err(LabFault::Words(format!(in alloc; "{path}: {why}")?)),
    }
}

/// The same of a file that is to be replaced: the command does not remember that it has read it, and so it may be written over.
pub fn read_to_replace<F: Files>(
    alloc: Global,
    files: &F,
    path: &str,
) -> Result<Vec<u8>, LabFault> {
    let mut nothing: &[u8] = b"";
    let mut inputs = Inputs::new(alloc, files, &mut nothing);
    read_part(alloc, &mut inputs, path)
}
