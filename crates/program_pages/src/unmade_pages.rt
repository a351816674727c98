//! Why a program has no page of all schedules.

use lab_requests::Bounds;
use lab_texts::plural;
use search_texts::searches::{SearchBound, USUAL_MEGABYTES};
use std::alloc::{AllocError, Global};

/// Why there is no page of all schedules, in words: the search for the program's states, which goes so far, came to this
/// bound.
pub fn too_large(alloc: Global, bounds: Bounds, bound: SearchBound) -> Result<String, AllocError> {
    match bound {
        SearchBound::States => {
            let states = bounds.worlds;
            let some_states = plural(states);
            format!(in alloc; "the program has more than {states} state{some_states}")
        }
        SearchBound::Memory => {
            let megabytes = bounds.megabytes.unwrap_or(USUAL_MEGABYTES);
            let some_megabytes = plural(megabytes);
            format!(in alloc;
                "the search for the program's states takes more than {megabytes} megabyte{some_megabytes}"
            )
        }
        SearchBound::Seconds | SearchBound::Refused => {
            let ended = bound.words();
            format!(in alloc; "the search for the program's states was not finished: {ended}")
        }
    }
}
