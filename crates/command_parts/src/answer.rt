//! What a command answers.

use crate::lab_fault::LabFault;
use end_kinds::Status;
use std::alloc::Global;

/// What a command prints, and how it ended.
#[derive(Drop)]
pub struct CommandAnswer {
    /// For standard output.
    pub output: String,
    /// For standard error.
    pub errors: String,
    /// How it ended.
    pub status: Status,
    /// Why a part of it was not done, which is reported after all else.
    pub fault: Option<LabFault>,
}

impl CommandAnswer {
    /// An answer that has nothing for standard error.
    pub fn printed(alloc: Global, output: String, status: Status) -> CommandAnswer {
        CommandAnswer {
            output,
            errors: String::new(alloc),
            status,
            fault: None,
        }
    }

    /// An answer that prints nothing, and all is done.
    pub fn silent(alloc: Global) -> CommandAnswer {
        CommandAnswer::printed(alloc, String::new(alloc), Status::Done)
    }
}
