//! Why the tool gives up.
ghost use Rattle.std.specs.Prelude.{◌≡◌};
ghost use Rattle.mta_engines.specs.Faults.{IsOfSource, IsOfImage, IsOfSchedule, IsOfThreads};
ghost use Rattle.mta_engines.specs.declared.tool_fault.ToolFault.TheVariants.{NoMemory};

use asm_text::{AsmFault, Fault};
use image_file::ImageFault;
use memory_lock::{GatherFault, PartsFault, ThreadsFault};
use std::alloc::{AllocError, AllocFailed};
use thiserror::Error;
use trace_text::{ScheduleFault, ScheduleFaultKind};

/// Why a command ended with status 1. Its text goes to standard error after `mta_sim: `.
#[derive(Clone, Copy, Debug, PartialEq, Eq, Error)]
pub enum ToolFault {
    /// A reader failed, or was interrupted; or a file can't be opened for reading.
    #[error("read failed")]
    Read,
    /// A writer failed; or a file can't be made or emptied.
    #[error("write failed")]
    Write,
    /// A reader had more than [`INPUT_LIMIT`](crate::INPUT_LIMIT) bytes.
    #[error("input too large")]
    TooLarge,
    /// Memory was refused, here or in a crate below, whose own fault for it is never shown. It can come before any later
    /// fault of an input would be found.
    #[error("no memory")]
    NoMemory,
    /// The line of this number, counted from 1, is the first fault of a text of words.
    #[error("words line {0}")]
    Words(u32),
    /// A source text has this fault, which is no want of memory.
    #[error("source line {} fault {}", .0.line, .0.kind.number())]
    Asm(AsmFault),
    /// The bytes of an image file have this fault, which is no want of memory.
    #[error("image fault {}", .0.number())]
    Image(ImageFault),
    /// A schedule has this fault, which is no want of memory.
    #[error("schedule line {} fault {}", .0.line, .0.kind.number())]
    Schedule(ScheduleFault),
    /// A threaded run has no parts for this reason, which is no want of memory.
    #[error("threads fault {}", .0.number())]
    Build(PartsFault),
    /// What a threaded run left is not gathered for this reason, which is no want of memory.
    #[error("gather fault {}", .0.number())]
    Gather(GatherFault),
}

impl From<AllocError> for ToolFault {
    ghost from_gives = { λ _ fault. fault ≡ NoMemory };

    fn from(_error: AllocError) -> ToolFault {
        ToolFault::NoMemory
    }
}

impl<T: Drop> From<AllocFailed<T>> for ToolFault {
    ghost from_gives = { λ _ fault. fault ≡ NoMemory };

    fn from(_error: AllocFailed<T>) -> ToolFault {
        ToolFault::NoMemory
    }
}

impl From<AsmFault> for ToolFault {
    ghost from_gives = { λ found fault. IsOfSource found fault };

    fn from(fault: AsmFault) -> ToolFault {
        match fault.kind {
            Fault::NoMemory => ToolFault::NoMemory,
            _ => ToolFault::Asm(fault),
        }
    }
}

impl From<ImageFault> for ToolFault {
    ghost from_gives = { λ found fault. IsOfImage found fault };

    fn from(fault: ImageFault) -> ToolFault {
        match fault {
            ImageFault::NoMemory => ToolFault::NoMemory,
            _ => ToolFault::Image(fault),
        }
    }
}

impl From<ScheduleFault> for ToolFault {
    ghost from_gives = { λ found fault. IsOfSchedule found fault };

    fn from(fault: ScheduleFault) -> ToolFault {
        match fault.kind {
            ScheduleFaultKind::NoMemory => ToolFault::NoMemory,
            _ => ToolFault::Schedule(fault),
        }
    }
}

impl<'i, const S: usize> From<ThreadsFault<'i, S>> for ToolFault {
    ghost from_gives = { λ found fault. IsOfThreads found fault };

    fn from(fault: ThreadsFault<'i, S>) -> ToolFault {
        match fault {
            ThreadsFault::Build(PartsFault::NoMemory) => ToolFault::NoMemory,
            ThreadsFault::Build(fault) => ToolFault::Build(fault),
            ThreadsFault::Gather(_, GatherFault::NoMemory) => ToolFault::NoMemory,
            ThreadsFault::Gather(_, fault) => ToolFault::Gather(fault),
        }
    }
}
