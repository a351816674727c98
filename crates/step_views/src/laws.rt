//! The law of places. The function is a law: there is nothing to run.

ghost use Rattle.step_views.specs.Laws.{AreAllPlaces};

use tag_memory::serving_laws;

/// The law of places: worlds that hold the same in each place are the same, but for the chain limit of their memories,
/// which no step changes. So nothing that a step can change stands outside the places.
pub fn worlds_are_their_places()
    ensures { AreAllPlaces }
{
    serving_laws();
}
