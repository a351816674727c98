//! The schedule that is gathered of parts.

ghost use Rattle.std.specs.Prelude.{◌≡◌, ℕ, IfOk, IfErr, MatchOption};
ghost use Rattle.shared_history.specs.FaultNumbers.{gather_fault_number};
ghost use Rattle.shared_history.specs.Schedule.{IsLongEnough};
ghost use Rattle.shared_history.specs.Gathering.{IsGathered, Refuses, AreWhole};

use crate::part_faults::{first_foreign, first_short, first_torn};
use crate::parts::Parts;
use crate::weaving::weave;
use crate::woven::Woven;
use std::alloc::Global;

/// Why parts are not gathered. The kinds are tried in this order over all processors, and the least one is named.
#[derive(Clone, Copy, Debug, PartialEq, Eq)]
pub enum GatherFault {
    /// The memory's image has a processor of this number or there is a record in this place, but not both, or the
    /// record's image or number is another.
    Foreign(usize),
    /// The record has fewer steps than it was to take, and a stream of it runs.
    Short(usize),
    /// The record's pairs are not the processor's entries of the history, in order.
    Torn(usize),
    /// Memory was refused.
    NoMemory,
}

impl GatherFault {
    /// The kind's number, 1 to 4 in the order of the variants.
    pub fn number(self) -> u8
        ensures { result ≡ gather_fault_number self }
    {
        match self {
            GatherFault::Foreign(_) => 1,
            GatherFault::Short(_) => 2,
            GatherFault::Torn(_) => 3,
            GatherFault::NoMemory => 4,
        }
    }
}

/// The schedule that the parts' history and records make: it holds the steps of each record in order, it makes just
/// that history, and it ends in the records' states and the memory's words.
///
/// Where it is refused, the parts are handed back as they were. `Foreign`, `Short` and `Torn` are answered exactly
/// where they hold, in this order; with none of them the answer is the schedule, or `NoMemory`. All memory is taken
/// before the first step of the schedule is made.
pub fn gather<'i, const S: usize>(
    alloc: Global,
    parts: Parts<'i, S>,
) -> Result<Woven<'i, S>, (Parts<'i, S>, GatherFault)>
    ensures ok { IfOk result (λ w. IsGathered parts.entry w) }
    ensures long { IfOk result (λ w. IsLongEnough parts.entry.fuel w) }
    ensures err { IfErr result (λ e. (e.0 ≡ parts.entry) × Refuses parts.entry e.1) }
{
    match fault(&parts) {
        Some(fault) => Err((parts, fault)),
        None => match weave(alloc, parts.shared(), parts.records()) {
            Err(_) => Err((parts, GatherFault::NoMemory)),
            Ok(schedule) => Ok(Woven::of(schedule, parts)),
        },
    }
}

/// The first fault of the parts.
fn fault<const S: usize>(parts: &Parts<S>) -> Option<GatherFault>
    ensures { MatchOption result (AreWhole parts.now) (λ f. Refuses parts.now f) }
{
    if let Some(p) = first_foreign(parts.shared(), parts.records()) {
        return Some(GatherFault::Foreign(p));
    }
    if let Some(p) = first_short(parts.fuel(), parts.records()) {
        return Some(GatherFault::Short(p));
    }
    if let Some(p) = first_torn(parts.shared(), parts.records()) {
        return Some(GatherFault::Torn(p));
    }
    None
}
