//! The words of a program that streams come to.

ghost use Rattle.std.specs.Prelude.{IfOk};
ghost use Rattle.reachable_places.specs.Ways.{AreReachable};
ghost use Rattle.reachable_places.specs.Reached.{CoversRuns};

use crate::search::found_places;
use image_file::Image;
use std::alloc::{AllocError, Global};

/// For each word of an image's program whether a way leads to it: from an entry or the trap entry, by the successors of
/// words ("What each operation does", docs/MACHINE.md), whatever registers and the memory hold. In every world that a
/// schedule of the image leads to, each running stream stands at such a word, or at or past the program's end. An error
/// where memory is refused.
#[tactic(auto, using(crate::proofs::KeptWorlds::reachable_covers))]
pub fn reachable_places(alloc: Global, image: &Image) -> Result<Vec<bool>, AllocError>
    ensures ways { IfOk result (λ places. AreReachable image.now places.items) }
    ensures covers { IfOk result (λ places. CoversRuns image.now places.items) }
{
    found_places(alloc, image)
}
