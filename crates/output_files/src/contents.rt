//! What an open file has, and what it gets in place.

use crate::random_numbers::random_number;
use std::fs::OpenFile;
use std::io::{Error, ErrorKind, Read, Seek, SeekFrom, Write};
use std::rt::Files;
use std::thread::yield_now;

/// The bytes that one read asks for.
const CHUNK: usize = 4096;

/// How often a file is written that others write to at the same time.
const MOST_ROUNDS: u32 = 200;

/// How often a writer lets others run while about one round of theirs goes by, for a short file.
const YIELDS: u64 = 64;

/// For how many bytes more of a file it does so once more.
const BYTES_OF_YIELD: u64 = 1024;

/// After how many rounds the longest wait grows no more, which doubles from round to round.
const ROUNDS_OF_GROWTH: u32 = 6;

/// Whether a file has these bytes, and no others.
pub(crate) fn has_bytes<T: Read + Seek>(file: &mut T, bytes: &[u8]) -> Result<bool, Error> {
    file.seek(SeekFrom::Start(0))?;
    let mut chunk = [0u8; CHUNK];
    let mut left = bytes;
    for _ in 0..u64::MAX {
        let count = file.read(&mut chunk)?;
        if count == 0 {
            return Ok(left.is_empty());
        }
        let found = chunk.get(..count).unwrap_or(&[]);
        if !left.starts_with(found) {
            return Ok(false);
        }
        left = left.get(found.len()..).unwrap_or(&[]);
    }
    Ok(false)
}

/// Writes what these bytes have beyond the length of a file to its end: so one that has no room for them keeps all that
/// it had.
pub(crate) fn lengthen<T: Write + Seek + OpenFile>(
    file: &mut T,
    bytes: &[u8],
) -> Result<(), Error> {
    let length = file.metadata()?.len();
    let known = usize::try_from(length).unwrap_or(usize::MAX);
    let Some(rest) = bytes.get(known..) else {
        return Ok(());
    };
    file.seek(SeekFrom::Start(length))?;
    let added = file.write_all(rest);
    if added.is_err() {
        let _ = file.set_len(length);
    }
    added
}

/// Writes these bytes over all that a file has. Where others write to it at the same time, one of them ends with its own
/// bytes there: each looks after its last write, if the file may be read, and where others stand there it writes again
/// after a wait of random length, so that they don't go on in step.
pub(crate) fn overwrite<F: Files>(
    files: &F,
    file: &mut F::File,
    is_readable: bool,
    bytes: &[u8],
) -> Result<(), Error> {
    for round in 0..MOST_ROUNDS {
        overwrite_once(file, bytes)?;
        if !is_readable || has_bytes(file, bytes)? {
            return file.sync_all();
        }
        wait_at_random(files, round, bytes.len() as u64);
    }
    Err(Error::new(ErrorKind::ResourceBusy, "other programs write to it too"))
}

/// Lets others run for a random part of the longest wait after a round of writing so many bytes.
fn wait_at_random<F: Files>(files: &F, round: u32, length: u64) {
    let most = (YIELDS + length / BYTES_OF_YIELD) << round.min(ROUNDS_OF_GROWTH);
    // (a root without devices)
    let number = random_number(files).unwrap_or(u64::from(round));
    for _ in 0..number % most {
        yield_now();
    }
}

/// The same, whoever else writes to it.
fn overwrite_once<T: Write + Seek + OpenFile>(file: &mut T, bytes: &[u8]) -> Result<(), Error> {
    file.seek(SeekFrom::Start(0))?;
    file.write_all(bytes)?;
    file.set_len(bytes.len() as u64)
}
