//! Why a text is no schedule.

ghost use Rattle.std.specs.Prelude.{◌≡◌};
ghost use Rattle.trace_text.specs.ScheduleFaults.{schedule_fault_number, schedule_no_memory};

use std::alloc::AllocError;

/// What is wrong with a line of a schedule, in the order in which faults of one line are looked for.
#[derive(Clone, Copy, Debug, PartialEq, Eq)]
pub enum ScheduleFaultKind {
    /// It is not `p s` or `p s n`, decimal numbers apart by single spaces.
    Form,
    /// The processor or the stream is above 255, or n is 0 or above 1,000,000.
    Number,
    /// It takes the schedule above 1,000,000 steps.
    Limit,
    /// Memory was refused.
    NoMemory,
}

impl ScheduleFaultKind {
    /// The kind's number, 1 to 4 in the order of the variants.
    pub fn number(self) -> u8
        ensures { result ≡ schedule_fault_number self }
    {
        match self {
            ScheduleFaultKind::Form => 1,
            ScheduleFaultKind::Number => 2,
            ScheduleFaultKind::Limit => 3,
            ScheduleFaultKind::NoMemory => 4,
        }
    }
}

/// Why a text is no schedule: the least line with a fault, and the first fault of that line.
#[derive(Clone, Copy, Debug, PartialEq, Eq)]
pub struct ScheduleFault {
    /// The line, counted from 1; 0 where memory was refused.
    pub line: usize,
    /// What is wrong with it.
    pub kind: ScheduleFaultKind,
}

impl From<AllocError> for ScheduleFault {
    ghost from_gives = { λ _ fault. fault ≡ schedule_no_memory };

    fn from(_error: AllocError) -> ScheduleFault {
        ScheduleFault {
            line: 0,
            kind: ScheduleFaultKind::NoMemory,
        }
    }
}
