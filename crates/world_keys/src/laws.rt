//! What keys are good for.

ghost use Rattle.std.specs.Prelude.{◌≡◌, ℕ, List};
ghost use Rattle.image_file.specs.ImageValue.{ImageValue};
ghost use Rattle.processor.specs.World.{World};
ghost use Rattle.world_keys.specs.Tables.{Extends};
ghost use Rattle.world_keys.specs.WorldKeys.{key_of, IsKnown};

/// Worlds of one image that have the same key are the same, and a key stays as it is when the table is extended.
#[tactic(auto, using(crate::proofs::Worlds::same_world, crate::proofs::Worlds::key_kept, crate::proofs::Worlds::known_kept))]
pub fn keys_distinguish_worlds()
    ensures apart { (table : List (List ℕ)) (image : ImageValue) (one other : World)
        → IsKnown table image one → IsKnown table image other
        → key_of table image one ≡ key_of table image other → one ≡ other }
    ensures key { (old new : List (List ℕ)) (image : ImageValue) (w : World)
        → Extends old new → IsKnown old image w → key_of new image w ≡ key_of old image w }
    ensures known { (old new : List (List ℕ)) (image : ImageValue) (w : World)
        → Extends old new → IsKnown old image w → IsKnown new image w }
{}
