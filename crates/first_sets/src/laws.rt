//! What holds of sets of steps that are apart from the steps of others.

ghost use Rattle.std.specs.Prelude.{ℕ, Bool, IsTrue, List};
ghost use Rattle.image_file.specs.ImageValue.{ImageValue};
ghost use Rattle.processor.specs.World.{World, steps};
ghost use Rattle.processor.specs.declared.steps.Step.{Step};
ghost use Rattle.program_flow.specs.Agreeing.{TellsFlow};
ghost use Rattle.touched_words.specs.TouchTables.{TouchValue};
ghost use Rattle.agreeing_ends.specs.SameFutures.Links.{TellsHandlers, WorldsAgree};
ghost use Rattle.agreeing_ends.specs.FirstSets.{IsFirstSet};
ghost use Rattle.first_sets.specs.ApartSets.{AreTouchTables, IsApartSet};

/// A set of steps that is apart from those of all others can be taken before all of them, and leads to worlds that agree:
/// they differ in numbers alone that adds load and nobody reads. What is live is all that may be read, what is asked all
/// codes that may be asked for, and where a trap has a handler, `handled` says so.
pub fn apart_sets_are_first()
    ensures { (handled : Bool) (named : ℕ → Bool) (live asked : ℕ → ℕ → Bool) (image : ImageValue)
        (tables : List TouchValue) (w : World) (set : List Step)
        → TellsFlow image.profile image.program (IsTrue handled) (λ r. IsTrue (named r)) (λ k r. IsTrue (live k r))
        (λ k c. IsTrue (asked k c))
        → ((us : List Step) → TellsHandlers (IsTrue handled) (steps image w us))
        → AreTouchTables (λ r. IsTrue (named r)) (λ k r. IsTrue (live k r)) image.profile image.program tables
        → IsApartSet image tables w set
        → IsFirstSet (WorldsAgree (λ r. IsTrue (named r)) (λ k r. IsTrue (live k r)) (λ k c. IsTrue (asked k c)))
        image w set }
{}
