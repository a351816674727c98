//! What became of the files that `explore` writes.

use plain_text::push_plain;
use replay_page::MOST_STEPS;
use search_texts::parts::LabFault;
use std::alloc::{AllocError, Global};

/// What became of the files that `explore` writes.
#[derive(Drop)]
pub(crate) struct WrittenFiles {
    /// Lines for standard error, on pages that are left out.
    pub notes: String,
    /// Why a file was not written: the first reason.
    pub fault: Option<LabFault>,
}

impl WrittenFiles {
    /// Of no files.
    pub(crate) fn new(alloc: Global) -> WrittenFiles {
        WrittenFiles {
            notes: String::new(alloc),
            fault: None,
        }
    }

    /// Keeps why a file was not written, unless there is a reason already. Refused memory ends the command.
    pub(crate) fn keep(&mut self, made: Result<(), LabFault>) -> Result<(), LabFault> {
        match made {
            Ok(()) => Ok(()),
            Err(LabFault::NoMemory) => Err(LabFault::NoMemory),
            Err(fault) => {
                if self.fault.is_none() {
                    self.fault = Some(fault);
                }
                Ok(())
            }
        }
    }

    /// Notes that there is no page of a run of so many steps, which are too many.
    pub(crate) fn note_long_run(&mut self, path: &str, steps: usize) -> Result<(), AllocError> {
        let alloc = *self.notes.allocator();
        let why = format!(in alloc;
            ": not written: a run of {steps} steps, and no more than {MOST_STEPS} are shown\n"
        )?;
        self.notes.push_str("mta_lab: warning: ")?;
        push_plain(&mut self.notes, path)?;
        self.notes.push_str(&why)
    }
}
