//! What holds of steps that can be taken before all others.

ghost use Rattle.std.specs.Prelude.{◌≡◌, ◌≢◌, Bool, List, IsTrue};
ghost use Rattle.image_file.specs.ImageValue.{ImageValue};
ghost use Rattle.processor.specs.World.{World, after};
ghost use Rattle.processor.specs.declared.steps.Step.{Step};
ghost use Rattle.waiting.specs.Running.{runs_in};
ghost use Rattle.waiting.specs.Stuck.{IsStuck};
ghost use Rattle.local_steps.specs.LocalSteps.{IsLocalStep};
ghost use Rattle.local_steps.specs.EndingSteps.{IsEndingStep};
ghost use Rattle.local_steps.specs.SettledEndings.{AreSettled, IsSettledEnding};

/// A step that concerns its own stream alone commutes with each step of another stream, and can be taken after it as
/// well. Its stream runs, and is not stuck.
#[tactic(auto, using(crate::proofs::Orders::commutes, crate::proofs::Orders::stays))]
pub fn local_steps_commute()
    ensures commutes { (image : ImageValue) (w : World) (t u : Step) → IsLocalStep image w t → u ≢ t
        → after image (after image w t) u ≡ after image (after image w u) t }
    ensures stays { (image : ImageValue) (w : World) (t u : Step) → IsLocalStep image w t → u ≢ t
        → IsLocalStep image (after image w u) t }
    ensures runs { (image : ImageValue) (w : World) (t : Step) → IsLocalStep image w t → IsTrue (runs_in w t) }
    ensures goes_on { (image : ImageValue) (w : World) (t : Step) → IsLocalStep image w t → ¬ (IsStuck image w t) }
{}

/// A step that ends a stream, where no other stream of its processor ever asks for a stream, commutes with each step of
/// another stream, and can be taken after it as well. Its stream runs, and is not stuck. It is such a step where each
/// other stream of the processor that runs stands at a settled place, with no handler for traps.
pub fn ending_steps_commute()
    ensures commutes { (image : ImageValue) (w : World) (t u : Step) → IsEndingStep image w t → u ≢ t
        → after image (after image w t) u ≡ after image (after image w u) t }
    ensures stays { (image : ImageValue) (w : World) (t u : Step) → IsEndingStep image w t → u ≢ t
        → IsEndingStep image (after image w u) t }
    ensures runs { (image : ImageValue) (w : World) (t : Step) → IsEndingStep image w t → IsTrue (runs_in w t) }
    ensures goes_on { (image : ImageValue) (w : World) (t : Step) → IsEndingStep image w t → ¬ (IsStuck image w t) }
    ensures settled { (image : ImageValue) (places : List Bool) (w : World) (t : Step) → AreSettled image places
        → IsSettledEnding places image w t → IsEndingStep image w t }
{}
