//! The words of the command line that the program was started with.

use crate::foreign_names::ForeignNames;
use std::alloc::{AllocError, Global};
use std::env::FillError;
use std::rt::Env;

/// How many bytes of a word there is room for at first.
const USUAL_ROOM: usize = 256;

/// The words, the program's name first. One that is not UTF-8 is the text that shows it, and `names` keeps its bytes.
pub fn arguments<E: Env>(
    env: &E,
    alloc: Global,
    names: &mut ForeignNames,
) -> Result<Vec<String>, AllocError> {
    let mut words = Vec::new(alloc);
    for place in 0..usize::MAX {
        match bytes_of_word(env, alloc, place)? {
            Some(bytes) => {
                let word = names.text_of(alloc, bytes)?;
                words.push(word)?;
            }
            None => break,
        }
    }
    Ok(words)
}

/// The bytes of the word at a place; None if there are not so many words.
fn bytes_of_word<E: Env>(
    env: &E,
    alloc: Global,
    place: usize,
) -> Result<Option<Vec<u8>>, AllocError> {
    let mut room = USUAL_ROOM;
    for _ in 0..usize::BITS {
        let mut bytes = vec![in alloc; 0u8; room]?;
        match env.arg(place, &mut bytes) {
            Ok(count) => {
                bytes.truncate(count);
                return Ok(Some(bytes));
            }
            Err(FillError::NotPresent) => return Ok(None),
            Err(FillError::TooLong) => room = room.saturating_mul(2),
        }
    }
    Err(AllocError)
}
