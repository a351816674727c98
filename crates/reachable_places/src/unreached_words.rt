//! Words of a program that no stream comes to.

ghost use Rattle.std.specs.Prelude.{All, IfOk};
ghost use Rattle.reachable_places.specs.Reached.{IsNeverReached};

use crate::places::reachable_places;
use image_file::Image;
use std::alloc::{AllocError, Global};

/// The first place of each row of words of an image's program that no stream comes to, as far as the program alone
/// shows: in no world that a schedule of the image leads to a running stream stands there.
pub fn unreached_rows(alloc: Global, image: &Image) -> Result<Vec<usize>, AllocError>
    ensures { IfOk result (λ rows. All (IsNeverReached image.now) rows.items) }
{
    let places = reachable_places(alloc, image)?;
    let mut rows = Vec::new(alloc);
    let mut is_before_reached = true;
    for (place, is_reached) in places.iter().enumerate() {
        if is_before_reached && !*is_reached {
            rows.push(place)?;
        }
        is_before_reached = *is_reached;
    }
    Ok(rows)
}
