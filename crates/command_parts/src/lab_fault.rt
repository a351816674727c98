//! Why a command gives up.

use std::alloc::{AllocError, AllocFailed};

/// Why a command gives up.
#[derive(Drop)]
pub enum LabFault {
    /// For a reason in words.
    Words(String),
    /// For reasons that are reported in whole lines.
    Lines(String),
    /// Memory was refused.
    NoMemory,
    /// Standard output can't be written.
    Write,
    /// Nobody reads standard output any more.
    Closed,
}

impl From<AllocError> for LabFault {
    fn from(_error: AllocError) -> LabFault {
        LabFault::NoMemory
    }
}

impl<T: Drop> From<AllocFailed<T>> for LabFault {
    fn from(_error: AllocFailed<T>) -> LabFault {
        LabFault::NoMemory
    }
}
