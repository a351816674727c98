//! The places at which a stream runs.

ghost use Rattle.std.specs.Prelude.{◌<◌, ℕ, false, length, slice_index_or, IfOk};
ghost use Rattle.starving_streams.specs.Graphs.{AreMarksBy, IsMarkedBy};

use fair_rounds::Standing;
use processor::Step;
use std::alloc::{AllocError, Global};

/// For each of so many places whether a stream stands there.
pub(crate) fn places_of(
    alloc: Global,
    standings: &[Standing],
    count: usize,
    who: Step,
) -> Result<Vec<bool>, AllocError>
    ensures { IfOk result (λ v. AreMarksBy standings.now count who v.items) }
{
    let mut marks = vec![in alloc; false; count]?;
    for standing in standings {
        mark_standing(&mut marks, *standing, who);
    }
    Ok(marks)
}

/// Marks the place of a standing, if it is the stream's.
#[tactic(auto, using(crate::proofs::Marks::set_marked, crate::proofs::Marks::not_marked))]
fn mark_standing(marks: &mut [bool], standing: Standing, who: Step)
    ensures { (k : ℕ) → k < length marks.old
        → IsMarkedBy standing who k (slice_index_or marks.old k false) (slice_index_or marks.new k false) }
{
    let place = standing.place as usize;
    let is_of_stream = standing.step.p == who.p && standing.step.s == who.s;
    if place >= marks.len() || !is_of_stream {
        return;
    }
    marks[place] = true;
}
