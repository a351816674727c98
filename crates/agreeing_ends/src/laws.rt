//! What holds of worlds of which each step was taken, or one that can be taken before all others.

ghost use Rattle.std.specs.Prelude.{◌≡◌, ℕ, ◌<◌, Bool, IsTrue, List, [], ◌∷◌};
ghost use Rattle.image_file.specs.ImageValue.{ImageValue};
ghost use Rattle.processor.specs.World.{World, run};
ghost use Rattle.processor.specs.declared.steps.Step.{Step};
ghost use Rattle.same_futures.specs.LocalSteps.FreeSteps.{IsFreeStep};
ghost use Rattle.program_flow.specs.Tables.{is_live_at, is_named_by, is_asked_at, IsClosedTable, HasCodesOf};
ghost use Rattle.same_futures.specs.Links.{WorldsAgree};
ghost use Rattle.same_futures.specs.Handlers.{may_have_handlers};
ghost use Rattle.agreeing_ends.specs.FirstSets.{IsFirstSet};
ghost use Rattle.agreeing_ends.specs.Followed.{FoundWorlds, IsGrounded, AllExpanded, AllFollowed, HasAllWorlds, HasAllEnds};
ghost use Rattle.agreeing_ends.specs.Followed.{IsDistinct, HasShortestEnds, TellsWhetherAllEnd};

/// Where each step from each world that was found leads to one that agrees with another one that was found, they stand
/// for all worlds that schedules lead to. Where of some only the steps of a set were taken, which can be taken before all
/// others, they stand for all ends, by schedules that are as short as any where no two of them agree, and tell whether an
/// end can be reached from wherever a schedule leads.
pub fn followed_worlds_have_all_ends()
    ensures worlds { (handled : Bool) (named : ℕ → Bool) (live asked : ℕ → ℕ → Bool) (v : FoundWorlds)
        → IsGrounded (IsTrue handled) (λ r. IsTrue (named r)) (λ k r. IsTrue (live k r)) (λ k c. IsTrue (asked k c)) v
        → AllExpanded (WorldsAgree (λ r. IsTrue (named r)) (λ k r. IsTrue (live k r)) (λ k c. IsTrue (asked k c))) v
        → HasAllWorlds (WorldsAgree (λ r. IsTrue (named r)) (λ k r. IsTrue (live k r)) (λ k c. IsTrue (asked k c))) v }
    ensures ends { (handled : Bool) (named : ℕ → Bool) (live asked : ℕ → ℕ → Bool) (v : FoundWorlds)
        → IsGrounded (IsTrue handled) (λ r. IsTrue (named r)) (λ k r. IsTrue (live k r)) (λ k c. IsTrue (asked k c)) v
        → AllFollowed (WorldsAgree (λ r. IsTrue (named r)) (λ k r. IsTrue (live k r)) (λ k c. IsTrue (asked k c))) v
        → HasAllEnds (WorldsAgree (λ r. IsTrue (named r)) (λ k r. IsTrue (live k r)) (λ k c. IsTrue (asked k c))) v }
    ensures shortest { (handled : Bool) (named : ℕ → Bool) (live asked : ℕ → ℕ → Bool) (v : FoundWorlds)
        → IsGrounded (IsTrue handled) (λ r. IsTrue (named r)) (λ k r. IsTrue (live k r)) (λ k c. IsTrue (asked k c)) v
        → AllFollowed (WorldsAgree (λ r. IsTrue (named r)) (λ k r. IsTrue (live k r)) (λ k c. IsTrue (asked k c))) v
        → IsDistinct (WorldsAgree (λ r. IsTrue (named r)) (λ k r. IsTrue (live k r)) (λ k c. IsTrue (asked k c))) v
        → HasShortestEnds (WorldsAgree (λ r. IsTrue (named r)) (λ k r. IsTrue (live k r)) (λ k c. IsTrue (asked k c))) v }
    ensures tells { (handled : Bool) (named : ℕ → Bool) (live asked : ℕ → ℕ → Bool) (v : FoundWorlds)
        → IsGrounded (IsTrue handled) (λ r. IsTrue (named r)) (λ k r. IsTrue (live k r)) (λ k c. IsTrue (asked k c)) v
        → AllFollowed (WorldsAgree (λ r. IsTrue (named r)) (λ k r. IsTrue (live k r)) (λ k c. IsTrue (asked k c))) v → TellsWhetherAllEnd v }
{}

/// Worlds that schedules of an image lead to are grounded, by tables of what is live in its program and of which condition
/// codes may be asked for, that were made with what `may_have_handlers` says.
pub fn worlds_of_schedules_are_grounded()
    ensures { (names : List Bool) (table codes : List (List Bool)) (v : FoundWorlds) (schedules : ℕ → List Step)
        → IsClosedTable v.image.profile v.image.program (may_have_handlers v.image) names table
        → HasCodesOf v.image.profile v.image.program (may_have_handlers v.image) codes → 0 < v.count
        → ((k : ℕ) → k < v.count → v.world k ≡ run v.image (schedules k))
        → IsGrounded (IsTrue (may_have_handlers v.image)) (λ r. IsTrue (is_named_by names r))
        (λ k r. IsTrue (is_live_at table k r)) (λ k c. IsTrue (is_asked_at codes k c)) v }
{}

/// A step that can be taken before all others is, alone, a set that can.
pub fn free_steps_are_first_sets()
    ensures { (image : ImageValue) (w : World) (t : Step) → IsFreeStep image w t
        → IsFirstSet (λ a b. a ≡ b) image w (t ∷ []) }
{}
