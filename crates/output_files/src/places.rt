//! Where a file is made: the folder of a path, and the end of a chain of links.

use std::alloc::Global;
use std::io::{Error, ErrorKind};
use std::rt::Files;

/// The most links that are followed, as many as the system follows.
const MOST_LINKS: usize = 40;

/// The path of a path's folder, with its slash; nothing of a name alone.
pub(crate) fn folder_of(path: &str) -> &str {
    match path.rfind('/') {
        Some(slash) => path.get(..slash.saturating_add(1)).unwrap_or(""),
        None => "",
    }
}

/// The name at the end of a path, without its folder.
pub(crate) fn name_in_folder(path: &str) -> &str {
    path.get(folder_of(path).len()..).unwrap_or(path)
}

/// The path itself where it is no symbolic link, else the one that it leads to, over all links on the way. Nothing needs
/// to stand there.
pub(crate) fn end_of_links<F: Files>(
    alloc: Global,
    files: &F,
    path: &str,
) -> Result<String, Error> {
    let mut place = String::from_str(alloc, path)?;
    for _ in 0..MOST_LINKS {
        match next_place(alloc, files, &place)? {
            Some(next) => place = next,
            None => return Ok(place),
        }
    }
    Err(Error::from(ErrorKind::FilesystemLoop))
}

/// Where a symbolic link leads; None of a path that is none.
fn next_place<F: Files>(alloc: Global, files: &F, place: &str) -> Result<Option<String>, Error> {
    if !is_link(files, place) {
        return Ok(None);
    }
    let target = files.read_link(alloc, place)?.into_string();
    if target.starts_with('/') {
        return Ok(Some(target));
    }
    let folder = folder_of(place);
    Ok(Some(format!(in alloc; "{folder}{target}")?))
}

/// Whether a path is a symbolic link.
fn is_link<F: Files>(files: &F, path: &str) -> bool {
    match files.symlink_metadata(path) {
        Ok(found) => found.is_symlink(),
        Err(_) => false,
    }
}
