//! What holds of two steps that execute instructions and ask for no stream, where their requests commute.

ghost use Rattle.std.specs.Prelude.{◌≡◌, ◌≢◌, Option, Some, None};
ghost use Rattle.tag_memory.specs.Storage.{TaggedMemory};
ghost use Rattle.tag_memory.specs.Answer.{answer};
ghost use Rattle.tag_memory.specs.Distant.{AreDistant};
ghost use Rattle.tag_memory.specs.declared.requests.Request.{Request};
ghost use Rattle.image_file.specs.ImageValue.{ImageValue};
ghost use Rattle.stream_core.specs.Streams.{StreamValue};
ghost use Rattle.processor.specs.World.{World, after, outcome_of};
ghost use Rattle.processor.specs.declared.steps.Step.{Step};
ghost use Rattle.commuting_requests.specs.Pairs.{DoCommute};
ghost use Rattle.commuting_requests.specs.RequestSteps.{IsRequestStep};

/// Two steps of different streams commute where each executes an instruction and asks for no stream, and the requests
/// that they make commute.
pub fn steps_of_commuting_requests_commute()
    ensures { (image : ImageValue) (w : World) (t u : Step) (s x : StreamValue) (q r : Option Request)
        → IsRequestStep image w t s q → IsRequestStep image w u x r → u ≢ t → DoCommute w.memory q r
        → after image (after image w t) u ≡ after image (after image w u) t }
{}

/// After one of them the other one is a step of the same stream with the same request, and has the same outcome.
pub fn steps_of_commuting_requests_stay()
    ensures asks { (image : ImageValue) (w : World) (t u : Step) (s x : StreamValue) (q r : Option Request)
        → IsRequestStep image w t s q → IsRequestStep image w u x r → u ≢ t → IsRequestStep image (after image w t) u x r }
    ensures outcome { (image : ImageValue) (w : World) (t u : Step) (s x : StreamValue) (q r : Option Request)
        → IsRequestStep image w t s q → IsRequestStep image w u x r → u ≢ t → DoCommute w.memory q r
        → outcome_of image (after image w t) u ≡ outcome_of image w u }
{}

/// Two requests commute that leave the memory as it is: those that only read, and those that wait or trap. So do no
/// request and any.
pub fn unchanging_requests_commute()
    ensures both { (m : TaggedMemory) (q r : Request) → (answer m q).0 ≡ m → (answer m r).0 ≡ m
        → DoCommute m (Some q) (Some r) }
    ensures none { (m : TaggedMemory) (q : Option Request) → DoCommute m None q }
    ensures other { (m : TaggedMemory) (q : Option Request) → DoCommute m q None }
{}

/// Two requests commute where neither is led by the word that the other one ends at.
pub fn distant_requests_commute()
    ensures { (m : TaggedMemory) (q r : Request) → AreDistant m q r → DoCommute m (Some q) (Some r) }
{}
