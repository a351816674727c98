//! Numbers that nobody can know beforehand.

use std::fs;
use std::io::{Error, Read};
use std::rt::Files;

/// A number that the system draws at random.
pub(crate) fn random_number<F: Files>(files: &F) -> Result<u64, Error> {
    let mut source = fs::open(files, "/dev/urandom")?;
    let mut bytes = [0u8; 8];
    source.read_exact(&mut bytes)?;
    Ok(u64::from_le_bytes(bytes))
}
