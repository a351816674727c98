//! The first world from which a stream loops alone, as an end.

ghost use Rattle.std.specs.Prelude.{◌≡◌, ◌<◌, IfOk};
ghost use Rattle.seed_verdicts.specs.ScheduleSpace.Spaces.{count};
ghost use Rattle.space_ends.specs.Loops.{looping_of, loop_of};

use crate::end_values::{SpaceEnd, SpaceEndKind};
use crate::every_end::new_end;
use end_states::EndState;
use seed_verdicts::busy::Busy;
use seed_verdicts::space::Space;
use std::alloc::{AllocError, Global};

/// The world from which a stream loops alone, as an end, with the steps of the loop.
pub(crate) fn busy_end(alloc: Global, space: &Space<'_>, busy: Busy) -> Result<SpaceEnd, AllocError>
    ensures kind { IfOk result (λ e. e.kind ≡ SpaceEndKind.Busy) }
    ensures is { IfOk result (λ e. busy.place < count space.now
        → looping_of e ≡ loop_of space.now busy.place busy.stream busy.steps) }
{
    let state = EndState::empty(alloc);
    let mut end = new_end(alloc, space, busy.place, SpaceEndKind::Busy, state)?;
    end.cycle = vec![in alloc; busy.stream; busy.steps]?;
    Ok(end)
}
