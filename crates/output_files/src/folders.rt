//! Folders that files are written into.

use std::fs;
use std::io::{Error, ErrorKind};
use std::rt::Files;

/// Makes a folder where nothing has its name yet. The folder that it stands in has to be there.
pub fn make_folder<F: Files>(files: &F, path: &str) -> Result<(), Error> {
    match fs::create_dir(files, path) {
        Err(error) if error.kind() == ErrorKind::AlreadyExists => Ok(()),
        made => made,
    }
}
