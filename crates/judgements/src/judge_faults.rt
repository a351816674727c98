//! Why a submission was not judged.

ghost use Rattle.std.specs.Prelude.{◌≡◌};
ghost use Rattle.judgements.specs.Faults.{IsAtCase, IsByFile, IsBySearch};
ghost use Rattle.judgements.specs.declared.judge_faults.JudgeFault.TheVariants.{NoMemory};
ghost use Rattle.judgements.specs.declared.judge_faults.CaseFault.TheVariants as case_fault;

use expectation_files::FileFault;
use program_searches::SearchFault;
use std::alloc::{AllocError, AllocFailed};
use std::io;

/// Why a submission was not judged.
#[derive(Debug, Drop)]
pub enum JudgeFault {
    /// There is no case.
    NoCase,
    /// The text of a case is no file of expectations.
    Expectations {
        /// The place of the case.
        case: usize,
        /// What is wrong with it.
        fault: FileFault,
    },
    /// Memory was refused.
    NoMemory,
    /// The time is bounded, and the clock can't be read.
    Clock(io::Error),
}

impl From<AllocError> for JudgeFault {
    ghost from_gives = { λ _ fault. fault ≡ NoMemory };

    fn from(_error: AllocError) -> JudgeFault {
        JudgeFault::NoMemory
    }
}

impl<T: Drop> From<AllocFailed<T>> for JudgeFault {
    ghost from_gives = { λ _ fault. fault ≡ NoMemory };

    fn from(_error: AllocFailed<T>) -> JudgeFault {
        JudgeFault::NoMemory
    }
}

/// Why a submission was not judged by one case.
#[derive(Debug, Drop)]
pub(crate) enum CaseFault {
    /// The text of the case is no file of expectations.
    Expectations(FileFault),
    /// Memory was refused.
    NoMemory,
    /// The time is bounded, and the clock can't be read.
    Clock(io::Error),
}

impl CaseFault {
    /// The same of the case at a place.
    pub(crate) fn of_case(self, case: usize) -> JudgeFault
        ensures { IsAtCase case self result }
    {
        match self {
            CaseFault::Expectations(fault) => JudgeFault::Expectations { case, fault },
            CaseFault::NoMemory => JudgeFault::NoMemory,
            CaseFault::Clock(error) => JudgeFault::Clock(error),
        }
    }
}

impl From<AllocError> for CaseFault {
    ghost from_gives = { λ _ fault. fault ≡ case_fault.NoMemory };

    fn from(_error: AllocError) -> CaseFault {
        CaseFault::NoMemory
    }
}

impl From<SearchFault> for CaseFault {
    ghost from_gives = { λ found fault. IsBySearch found fault };

    fn from(fault: SearchFault) -> CaseFault {
        match fault {
            SearchFault::NoMemory => CaseFault::NoMemory,
            SearchFault::Clock(error) => CaseFault::Clock(error),
        }
    }
}

impl CaseFault {
    /// That of a text with this fault.
    pub(crate) fn of_file(fault: FileFault) -> CaseFault
        ensures { IsByFile fault result }
    {
        match fault {
            FileFault::NoMemory => CaseFault::NoMemory,
            FileFault::Empty | FileFault::Line { .. } => CaseFault::Expectations(fault),
        }
    }
}
