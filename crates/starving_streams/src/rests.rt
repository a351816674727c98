//! Which streams may rest.

ghost use Rattle.std.specs.Prelude.{◌≡◌};
ghost use Rattle.starving_streams.specs.Rests.{rests_by, may_rest};

use crate::standings::is_step;
use claims::Rest;
use machine::Machine;
use processor::Step;

/// Whether one of these lets a stream rest in the world of a machine.
pub(crate) fn may_rest<const S: usize>(machine: &Machine<'_, S>, rests: &[Rest], who: Step) -> bool
    ensures { result ≡ may_rest rests.now machine.now.world who }
{
    rests.iter().any(
        |rest: &Rest| -> bool
            ensures { result ≡ rests_by machine.entry.now.world who rest.now }
        { is_step(rest.who, who) && rest.places.holds(machine) },
    )
}
