//! Why a request is refused.

use debug_commands::DebugFault;
use named_session::fault_words;
use std::alloc::{AllocError, AllocFailed};

/// Why a request is refused.
#[derive(Clone, Copy, PartialEq, Eq)]
pub enum Refusal {
    /// For a reason in words.
    Words(&'static str),
    /// Memory was refused.
    NoMemory,
}

impl Refusal {
    /// The reason in words.
    pub fn words(self) -> &'static str {
        match self {
            Refusal::Words(words) => words,
            Refusal::NoMemory => "no memory",
        }
    }
}

impl From<AllocError> for Refusal {
    fn from(_error: AllocError) -> Refusal {
        Refusal::NoMemory
    }
}

impl<T: Drop> From<AllocFailed<T>> for Refusal {
    fn from(_error: AllocFailed<T>) -> Refusal {
        Refusal::NoMemory
    }
}

impl From<DebugFault> for Refusal {
    fn from(fault: DebugFault) -> Refusal {
        match fault_words(fault) {
            Some(words) => Refusal::Words(words),
            None => Refusal::NoMemory,
        }
    }
}
