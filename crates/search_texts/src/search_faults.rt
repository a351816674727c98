//! Why a search gave no answer, in words.

use command_parts::LabFault;
use program_searches::SearchFault;
use std::alloc::{AllocError, Global};

/// Why a search gave no answer, as a command says it.
pub fn search_fault(alloc: Global, fault: SearchFault) -> Result<LabFault, AllocError> {
    match fault {
        SearchFault::NoMemory => Ok(LabFault::NoMemory),
        SearchFault::Clock(error) => Ok(LabFault::Words(format!(in alloc;
            "--seconds: the clock cannot be read: {error}"
        )?)),
    }
}
