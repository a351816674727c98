//! What is written to a standard stream.

use crate::lab_fault::LabFault;
use std::io::{Error, ErrorKind, Write};

/// Writes all the bytes.
pub fn write_out<W: Write>(writer: &mut W, bytes: &[u8]) -> Result<(), LabFault> {
    written(writer.write_all(bytes).and_then(|()| writer.flush()))
}

/// What it means that something was written, or was not.
pub fn written(wrote: Result<(), Error>) -> Result<(), LabFault> {
    match wrote {
        Ok(()) => Ok(()),
        Err(error) if error.kind() == ErrorKind::BrokenPipe => Err(LabFault::Closed),
        Err(_) => Err(LabFault::Write),
    }
}
