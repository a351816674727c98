//! What the streams of each processor may still ask for.

ghost use Rattle.std.specs.Prelude.{ℕ, Bool, IsTrue, IfOk};
ghost use Rattle.first_sets.specs.UnreadLoads.{AreUnreadPlaces};
ghost use Rattle.first_sets.specs.ApartSets.{AreTouchTables};

use image_file::Image;
use std::alloc::{AllocError, Global};
use touched_words::TouchTable;

/// For each processor of an image, in the order of their numbers, the table of what its streams may still ask for. `unread`
/// says of each place whether nobody reads what the instruction there loads. An error where memory is refused.
pub fn touch_tables(
    alloc: Global,
    image: &Image,
    unread: &[bool],
) -> Result<Vec<TouchTable>, AllocError>
    ensures { IfOk result (λ ts. (named : ℕ → Bool) (live : ℕ → ℕ → Bool)
        → AreUnreadPlaces (λ r. IsTrue (named r)) (λ k r. IsTrue (live k r)) image.now.profile image.now.program unread.now
        → AreTouchTables (λ r. IsTrue (named r)) (λ k r. IsTrue (live k r)) image.now.profile image.now.program ts.items) }
{
    let mut tables = Vec::new(alloc);
    for p in 0..image.processors() {
        let entry = image.entry(p).unwrap_or(0);
        tables.push(TouchTable::of(alloc, image, entry, unread)?)?;
    }
    Ok(tables)
}
