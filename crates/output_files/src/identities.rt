//! Which file of the system a path or an open file stands for.

use std::fs::Metadata;
use std::os::unix::fs::{FileTypeExt, MetadataExt};

/// A file that keeps what is written to it, whatever names and links lead to it: its device and its inode.
#[derive(Clone, Copy, Debug, PartialEq, Eq)]
pub struct FileIdentity {
    device: u64,
    inode: u64,
}

impl FileIdentity {
    /// The file of which the system says this; None of a terminal, a FIFO, a socket or a folder, in which a write can
    /// take the place of nothing.
    pub fn of(metadata: &Metadata) -> Option<FileIdentity> {
        let kind = metadata.file_type();
        if kind.is_file() || kind.is_block_device() {
            Some(FileIdentity {
                device: metadata.dev(),
                inode: metadata.ino(),
            })
        } else {
            None
        }
    }
}
