//! The files that a run uses, which it never writes over.

use crate::identities::FileIdentity;
use crate::places::{end_of_links, name_in_folder};
use std::alloc::{AllocError, Global};
use std::fs::Metadata;
use std::rt::Files;

/// The paths of the standard streams' files, and what they are called.
const STREAMS: [(&str, &str); 3] = [
    ("/dev/stdin", "standard input"),
    ("/dev/stdout", "standard output"),
    ("/dev/stderr", "standard error"),
];

/// The files that a run has read.
#[derive(Drop)]
pub struct UsedFiles {
    files: Vec<UsedFile>,
}

/// A file, the path by which it was opened, and the name that it had then in its folder, at the end of all links.
#[derive(Drop)]
struct UsedFile {
    identity: FileIdentity,
    path: String,
    name: String,
}

/// How the file that is to be written was found.
#[derive(Clone, Copy, Debug)]
pub(crate) enum FoundBy<'a> {
    /// By a path that may be a link, or one of several names of the file.
    AnyPath,
    /// By the only name that the file has, at the end of this path, which is no link.
    OnlyName(&'a str),
}

impl UsedFiles {
    /// Of a run that has read nothing yet.
    pub fn none(alloc: Global) -> UsedFiles {
        UsedFiles {
            files: Vec::new(alloc),
        }
    }

    /// Remembers the file that was opened by a path, of which the system says this.
    pub fn remember<F: Files>(
        &mut self,
        alloc: Global,
        files: &F,
        path: &str,
        metadata: &Metadata,
    ) -> Result<(), AllocError> {
        let Some(identity) = FileIdentity::of(metadata) else {
            return Ok(());
        };
        let name = match end_of_links(alloc, files, path) {
            Ok(place) => String::from_str(alloc, name_in_folder(&place))?,
            Err(_) => String::from_str(alloc, name_in_folder(path))?,
        };
        let path = String::from_str(alloc, path)?;
        Ok(
            self.files.push(UsedFile {
                identity,
                path,
                name,
            })?,
        )
    }

    /// What the run calls this file, where it uses it: the path by which it was read, or a standard stream. A file that
    /// has come to stand at such a path since then counts too, as a source that was edited meanwhile.
    pub(crate) fn name_of<F: Files>(
        &self,
        files: &F,
        found: FoundBy<'_>,
        identity: FileIdentity,
    ) -> Option<&str> {
        for used in self.files.iter() {
            if used.identity == identity
                || (used.may_be(found) && is_at(files, &used.path, identity))
            {
                return Some(&used.path);
            }
        }
        stream_of(files, identity)
    }
}

impl UsedFile {
    /// Whether the file that was found so may be the one that stands at this path now. (So the system is asked of few
    /// paths, where a run writes many files beside many that it has read.)
    fn may_be(&self, found: FoundBy<'_>) -> bool {
        match found {
            FoundBy::AnyPath => true,
            FoundBy::OnlyName(path) => self.name.eq_ignore_ascii_case(name_in_folder(path)),
        }
    }
}

/// The standard stream that this file is.
fn stream_of<F: Files>(files: &F, identity: FileIdentity) -> Option<&'static str> {
    for (path, name) in STREAMS {
        if is_at(files, path, identity) {
            return Some(name);
        }
    }
    None
}

/// Whether a path leads to this file now.
fn is_at<F: Files>(files: &F, path: &str, identity: FileIdentity) -> bool {
    match files.metadata(path) {
        Ok(metadata) => FileIdentity::of(&metadata) == Some(identity),
        Err(_) => false,
    }
}
