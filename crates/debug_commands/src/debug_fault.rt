//! Why a command of the debugger is refused.

ghost use Rattle.std.specs.Prelude.{◌≡◌};
ghost use Rattle.debug_commands.specs.Faults.{debug_fault_number};
ghost use Rattle.debug_commands.specs.declared.debug_fault.DebugFault.TheVariants.{NoMemory};

use std::alloc::{AllocError, AllocFailed};

/// Why a command is refused.
#[derive(Clone, Copy, Debug, PartialEq, Eq)]
pub enum DebugFault {
    /// The line is no command; or a number of words to be shown is not 1 to 64.
    Syntax,
    /// There is no such processor or stream.
    NoSuchStream,
    /// There is no such word: its address is no multiple of 8, or past the last word.
    NoSuchWord,
    /// No point has this key.
    NoSuchPoint,
    /// The position is past the end of the schedule.
    Past,
    /// Memory was refused.
    NoMemory,
}

impl DebugFault {
    /// The fault's number, 1 to 6 in the order of the variants.
    pub fn number(self) -> u8
        ensures { result ≡ debug_fault_number self }
    {
        match self {
            DebugFault::Syntax => 1,
            DebugFault::NoSuchStream => 2,
            DebugFault::NoSuchWord => 3,
            DebugFault::NoSuchPoint => 4,
            DebugFault::Past => 5,
            DebugFault::NoMemory => 6,
        }
    }
}

impl From<AllocError> for DebugFault {
    ghost from_gives = { λ _ fault. fault ≡ NoMemory };

    fn from(_error: AllocError) -> DebugFault {
        DebugFault::NoMemory
    }
}

impl<T: Drop> From<AllocFailed<T>> for DebugFault {
    ghost from_gives = { λ _ fault. fault ≡ NoMemory };

    fn from(_error: AllocFailed<T>) -> DebugFault {
        DebugFault::NoMemory
    }
}
