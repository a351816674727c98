//! What holds of worlds that differ in registers and condition codes alone that do not matter, and of worlds in which no
//! stream has a handler.

ghost use Rattle.std.specs.Prelude.{◌≡◌, ℕ, Bool, false, IsTrue, List};
ghost use Rattle.image_file.specs.ImageValue.{ImageValue};
ghost use Rattle.processor.specs.World.{World, after, steps};
ghost use Rattle.processor.specs.declared.steps.Step.{Step};
ghost use Rattle.program_flow.specs.Agreeing.{TellsFlow};
ghost use Rattle.same_futures.specs.Links.{IsLinked, TellsHandlers, KeepsLink, WorldsAgree};
ghost use Rattle.same_futures.specs.Agreeing.{DifferInParts, EndAlike};
ghost use Rattle.same_futures.specs.Handlers.{may_have_handlers, NobodyHasHandlers};

/// The same step of two worlds that differ in registers and condition codes of one stream, but not in those that matter,
/// comes out the same, and leaves one world or two that differ so. What is live has to be all that may be read from each
/// place of the program on, and what is asked for each code that may be asked for from there on; where a trap of a running
/// stream has a handler, `handled` has to say so.
pub fn links_are_kept()
    ensures { (image : ImageValue) (handled : Bool) (named : ℕ → Bool) (live asked : ℕ → ℕ → Bool)
        → TellsFlow image.profile image.program (IsTrue handled) (λ r. IsTrue (named r)) (λ k r. IsTrue (live k r)) (λ k c. IsTrue (asked k c))
        → (a b : World) (t : Step) → TellsHandlers (IsTrue handled) a
        → IsLinked (λ r. IsTrue (named r)) (λ k r. IsTrue (live k r)) (λ k c. IsTrue (asked k c)) a b
        → KeepsLink image (λ r. IsTrue (named r)) (λ k r. IsTrue (live k r)) (λ k c. IsTrue (asked k c)) a b t }
{}

/// Two worlds that agree, which is to differ in registers and codes alone that do not matter, agree after each schedule. Where a
/// trap of a running stream has a handler in a world that the first one leads to, `handled` has to say so.
pub fn schedules_agree()
    ensures { (image : ImageValue) (handled : Bool) (named : ℕ → Bool) (live asked : ℕ → ℕ → Bool)
        → TellsFlow image.profile image.program (IsTrue handled) (λ r. IsTrue (named r)) (λ k r. IsTrue (live k r)) (λ k c. IsTrue (asked k c))
        → (ts : List Step) (a b : World) → ((us : List Step) → TellsHandlers (IsTrue handled) (steps image a us))
        → WorldsAgree (λ r. IsTrue (named r)) (λ k r. IsTrue (live k r)) (λ k c. IsTrue (asked k c)) a b
        → WorldsAgree (λ r. IsTrue (named r)) (λ k r. IsTrue (live k r)) (λ k c. IsTrue (asked k c)) (steps image a ts) (steps image b ts) }
{}

/// Each world agrees with itself, two agree both ways, and three where the second agrees with both others. Worlds that
/// agree are alike: they differ in nothing but registers and condition codes that do not matter.
pub fn agreeing_worlds_are_alike()
    ensures itself { (named : ℕ → Bool) (live asked : ℕ → ℕ → Bool) (a : World)
        → WorldsAgree (λ r. IsTrue (named r)) (λ k r. IsTrue (live k r)) (λ k c. IsTrue (asked k c)) a a }
    ensures back { (named : ℕ → Bool) (live asked : ℕ → ℕ → Bool) (a b : World)
        → WorldsAgree (λ r. IsTrue (named r)) (λ k r. IsTrue (live k r)) (λ k c. IsTrue (asked k c)) a b
        → WorldsAgree (λ r. IsTrue (named r)) (λ k r. IsTrue (live k r)) (λ k c. IsTrue (asked k c)) b a }
    ensures next { (named : ℕ → Bool) (live asked : ℕ → ℕ → Bool) (a b c : World)
        → WorldsAgree (λ r. IsTrue (named r)) (λ k r. IsTrue (live k r)) (λ k c. IsTrue (asked k c)) a b
        → WorldsAgree (λ r. IsTrue (named r)) (λ k r. IsTrue (live k r)) (λ k c. IsTrue (asked k c)) b c
        → WorldsAgree (λ r. IsTrue (named r)) (λ k r. IsTrue (live k r)) (λ k c. IsTrue (asked k c)) a c }
    ensures alike { (named : ℕ → Bool) (live asked : ℕ → ℕ → Bool) (a b : World)
        → WorldsAgree (λ r. IsTrue (named r)) (λ k r. IsTrue (live k r)) (λ k c. IsTrue (asked k c)) a b
        → DifferInParts (λ r. IsTrue (named r)) (λ k r. IsTrue (live k r)) (λ k c. IsTrue (asked k c)) a b }
{}

/// In two worlds that agree the same streams run, the same are stuck and the same were stopped by a trap, and if no step
/// follows they are ends of the same kind: where the one is an end, the other is one.
pub fn agreeing_worlds_end_alike()
    ensures { (image : ImageValue) (handled : Bool) (named : ℕ → Bool) (live asked : ℕ → ℕ → Bool)
        → TellsFlow image.profile image.program (IsTrue handled) (λ r. IsTrue (named r)) (λ k r. IsTrue (live k r)) (λ k c. IsTrue (asked k c))
        → (a b : World) → TellsHandlers (IsTrue handled) a
        → WorldsAgree (λ r. IsTrue (named r)) (λ k r. IsTrue (live k r)) (λ k c. IsTrue (asked k c)) a b → EndAlike image a b }
{}

/// Where no word of a program writes t0 and streams begin without a handler, no step gives one to a running stream of a
/// world in which none has one. No trap of a running stream of such a world has one.
pub fn handlers_stay_out()
    ensures stays { (image : ImageValue) (w : World) (t : Step) → may_have_handlers image ≡ false → NobodyHasHandlers w
        → NobodyHasHandlers (after image w t) }
    ensures told { (w : World) → NobodyHasHandlers w → TellsHandlers ⊥ w }
{}
