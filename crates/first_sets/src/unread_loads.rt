//! What holds of two steps whose requests commute but for the numbers that they load.

ghost use Rattle.std.specs.Prelude.{◌≢◌, ℕ, Bool, Some, IsTrue};
ghost use Rattle.tag_memory.specs.declared.requests.Request.{Request};
ghost use Rattle.image_file.specs.ImageValue.{ImageValue};
ghost use Rattle.stream_core.specs.Streams.{StreamValue};
ghost use Rattle.processor.specs.World.{World, after};
ghost use Rattle.processor.specs.declared.steps.Step.{Step};
ghost use Rattle.agreeing_ends.specs.SameFutures.Links.{WorldsAgree};
ghost use Rattle.commuting_requests.specs.RequestSteps.{IsRequestStep};
ghost use Rattle.tag_memory.specs.Adds.{DoCommuteButForNumbers};
ghost use Rattle.first_sets.specs.UnreadLoads.{IsUnreadBy};

/// Two steps of different streams come to worlds that agree in both orders where their requests commute but for the
/// numbers that they load, and nobody reads these: the worlds differ in these two registers alone.
pub fn unread_loads_agree()
    ensures { (image : ImageValue) (named : ℕ → Bool) (live asked : ℕ → ℕ → Bool) (w : World) (t u : Step)
        (s x : StreamValue) (q r : Request)
        → IsRequestStep image w t s (Some q) → IsRequestStep image w u x (Some r) → u ≢ t
        → DoCommuteButForNumbers w.memory q r
        → IsUnreadBy image (λ n. IsTrue (named n)) (λ k n. IsTrue (live k n)) s
        → IsUnreadBy image (λ n. IsTrue (named n)) (λ k n. IsTrue (live k n)) x
        → WorldsAgree (λ n. IsTrue (named n)) (λ k n. IsTrue (live k n)) (λ k c. IsTrue (asked k c))
        (after image (after image w t) u) (after image (after image w u) t) }
{}
