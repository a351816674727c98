//! Words of a program that no way reaches.

use crate::numbers::UNREACHED;
use fault_messages::{Notes, Spot};
use image_file::Image;
use reachable_places::unreached_rows;
use std::alloc::AllocError;

/// Warns of each row of words of an image's program that no way reaches, at its first word: no stream ever stands there.
/// The spots are those of the program's words in the text.
pub(crate) fn note_unreached(
    notes: &mut Notes,
    image: &Image,
    text: &[u8],
    spots: &[Spot],
) -> Result<(), AllocError> {
    for place in unreached_rows(notes.alloc(), image)? {
        if let Some(spot) = spots.get(place) {
            notes.number(UNREACHED);
            notes.say(*spot, "no stream can reach this word", help_at(text, *spot))?;
        }
    }
    Ok(())
}

/// What may be meant by a word that is not reached, which stands at this spot of a text.
fn help_at(text: &[u8], spot: Spot) -> &'static str {
    let place = spot.start.saturating_add(spot.column).saturating_sub(1);
    let statement = text.get(place..).unwrap_or(b"");
    if statement.starts_with(b".word") {
        ".word adds an instruction: did you mean .data?"
    } else {
        "no entry, no target and no word before it leads here"
    }
}
