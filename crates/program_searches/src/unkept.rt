//! What is required of a program as a whole, and is not so.

ghost use Rattle.std.specs.Prelude.{◌≡◌};
ghost use Rattle.program_searches.specs.Statuses.{is_starved, is_evaded, is_broken, is_open, status_of_unkept};
ghost use Rattle.program_searches.specs.Waits.{first_waiting, unkept_waits};

use end_kinds::Status;
use endless_waits::starving::Starving;
use endless_waits::{EndlessWaits, Unanswered};
use processor::Step;

/// Why it is not known that nobody can wait forever.
#[derive(Clone, Copy, Debug)]
pub enum UnkeptWaits {
    /// This stream can: the first one that is shown.
    Starved(Step),
    /// Of this stream it was not decided, the first one.
    Undecided(Step),
    /// It was not asked, for this reason.
    Unanswered(Unanswered),
    /// Runs were looked at alone, which do not decide it.
    RunsAlone,
}

/// Why it is not known that all runs keep each condition.
#[derive(Clone, Copy, Debug)]
pub enum UnkeptConditions {
    /// Not the one of this place: the first one that a run evades.
    Evaded(usize),
    /// Of the one of this place it was not decided, the first one.
    Undecided(usize),
    /// It was not asked, for this reason.
    Unanswered(Unanswered),
    /// Runs were looked at alone, which do not decide it.
    RunsAlone,
}

/// What is required of a program as a whole, and is not so.
#[derive(Clone, Copy, Debug)]
pub struct Unkept {
    /// The place of the first rule of programs that it breaks.
    pub rule: Option<usize>,
    /// The place of the first claim that has to hold of one world at least, and that none shows which was looked at.
    pub unshown: Option<usize>,
    /// Why it is not known that nobody can wait forever, where that is required.
    pub waits: Option<UnkeptWaits>,
    /// Why it is not known that all runs keep each condition, where some is required.
    pub conditions: Option<UnkeptConditions>,
    /// The number of the line `never busy`, where runs were looked at alone, which do not decide it.
    pub undecided: Option<usize>,
}

impl Unkept {
    /// What it means for the exit status, by every schedule or by some runs: that no run shows a claim says nothing of other
    /// schedules.
    pub fn status(self, is_of_every: bool) -> Status
        ensures { result ≡ status_of_unkept self is_of_every }
    {
        if self.is_broken(is_of_every) {
            Status::Unexpected
        } else if self.is_open() {
            Status::OutOfSteps
        } else {
            Status::Done
        }
    }

    /// Whether something of it is known not to be so, by every schedule or by some runs.
    fn is_broken(self, is_of_every: bool) -> bool
        ensures { result ≡ is_broken self is_of_every }
    {
        self.rule.is_some()
            || (is_of_every && self.unshown.is_some())
            || (self.is_starved() || self.is_evaded())
    }

    /// Whether something of it is not known to be so.
    fn is_open(self) -> bool
        ensures { result ≡ is_open self }
    {
        self.unshown.is_some()
            || self.undecided.is_some()
            || (self.waits.is_some() || self.conditions.is_some())
    }

    /// Whether a run is shown that evades a condition.
    fn is_evaded(self) -> bool
        ensures { result ≡ is_evaded self.conditions }
    {
        match self.conditions {
            Some(UnkeptConditions::Evaded(_)) => true,
            Some(
                UnkeptConditions::Undecided(_)
                | UnkeptConditions::Unanswered(_)
                | UnkeptConditions::RunsAlone,
            )
            | None => false,
        }
    }

    /// Whether a stream is shown to wait forever.
    fn is_starved(self) -> bool
        ensures { result ≡ is_starved self.waits }
    {
        match self.waits {
            Some(UnkeptWaits::Starved(_)) => true,
            Some(UnkeptWaits::Undecided(_) | UnkeptWaits::Unanswered(_) | UnkeptWaits::RunsAlone)
            | None => false,
        }
    }
}

/// Why it is not known that nobody can wait forever, by what was said of it; None if it is known, or was not asked.
pub(crate) fn unkept_waits(waits: &Option<EndlessWaits>) -> Option<UnkeptWaits>
    ensures { result ≡ unkept_waits waits.now }
{
    match waits {
        Some(EndlessWaits::Answered(found)) => first_waiting(&found.starving, &found.undecided),
        Some(EndlessWaits::Unanswered(reason)) => Some(UnkeptWaits::Unanswered(*reason)),
        None => None,
    }
}

/// The first stream that is shown to wait forever, or else the first that is left undecided.
fn first_waiting(starving: &[Starving], undecided: &[Step]) -> Option<UnkeptWaits>
    ensures { result ≡ first_waiting starving.now undecided.now }
{
    if let [shown, ..] = starving {
        return Some(UnkeptWaits::Starved(shown.stream));
    }
    match undecided {
        [who, ..] => Some(UnkeptWaits::Undecided(*who)),
        [] => None,
    }
}
