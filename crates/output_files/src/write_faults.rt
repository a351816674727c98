//! Why a file is not written.

use std::alloc::AllocError;
use std::io::{Error, ErrorKind};

/// Why a file was not written.
#[derive(Drop)]
pub enum WriteFault {
    /// The run uses this very file, by this name.
    InUse(String),
    /// Something has the name of a file that is to be new.
    Exists,
    /// It is a link, or has a second name, and the user did not name it.
    Link,
    /// It is no regular file, and the user did not name it, or it is to be replaced.
    NotRegular,
    /// Its content is no longer what the run has read.
    Changed,
    /// Another program keeps putting other files in its place.
    Busy,
    /// The system refused it after a part was written.
    Partly {
        /// What the system says.
        error: Error,
        /// The path of a file that has all of the new content.
        kept: String,
    },
    /// The system refuses it.
    System(Error),
    /// Memory was refused.
    NoMemory,
}

impl From<AllocError> for WriteFault {
    fn from(_error: AllocError) -> WriteFault {
        WriteFault::NoMemory
    }
}

impl From<Error> for WriteFault {
    fn from(error: Error) -> WriteFault {
        match error.kind() {
            ErrorKind::OutOfMemory => WriteFault::NoMemory,
            _ => WriteFault::System(error),
        }
    }
}
