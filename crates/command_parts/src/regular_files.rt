//! Regular files of others, who may put something else in their place at any time.

use crate::inputs::{Inputs, NOT_UTF_8, not_read};
use crate::links::{FoundLink, LinkOut, link_out};
use output_files::FileIdentity;
use std::alloc::{AllocError, Global};
use std::fs;
use std::fs::{Metadata, OpenFile, OpenOptions};
use std::io::{Error, Read};
use std::rt::Files;

/// What is said of a symbolic link that is refused.
const A_LINK: &str = "it is a symbolic link";

/// What is said of a file if another one has its name by now.
const ANOTHER: &str = "another file has come in its place";

/// What was read of a regular file.
#[derive(Drop)]
pub struct RegularFile {
    /// Its bytes.
    pub bytes: Vec<u8>,
    /// The link that led to it, if that leads out of its folder, or is of another user.
    pub link: Option<LinkOut>,
}

/// What has a name now.
#[derive(Clone, Copy, Debug, PartialEq, Eq)]
enum Named {
    /// The file that was opened by it.
    TheFile,
    /// A symbolic link.
    ALink,
    /// Something else, or nothing.
    AnotherFile,
}

impl<F: Files, R: Read> Inputs<'_, F, R> {
    /// The bytes of the regular file of a path, or in words why they are not read. What the path has led to is asked of the
    /// open file: so it does not matter what is put in its place meanwhile. Where links are refused, the path has to be the
    /// file's own name in its folder.
    pub fn read_regular(
        &mut self,
        alloc: Global,
        path: &str,
        refuses_links: bool,
    ) -> Result<Result<RegularFile, String>, AllocError> {
        if self.names().has(path) {
            return refused(alloc, NOT_UTF_8);
        }
        if refuses_links && self.is_link(path) {
            return refused(alloc, A_LINK);
        }
        match self.files.metadata(path) {
            Ok(metadata) => match kind_words(&metadata) {
                Some(words) => refused(alloc, words),
                None => self.read_named(alloc, path, refuses_links),
            },
            Err(error) => Ok(Err(not_read(alloc, &error)?)),
        }
    }

    /// Whether a path is that of a symbolic link now.
    fn is_link(&self, path: &str) -> bool {
        match self.files.symlink_metadata(path) {
            Ok(metadata) => metadata.is_symlink(),
            Err(_) => false,
        }
    }

    /// The same of a path that has led to a regular file just now.
    fn read_named(
        &mut self,
        alloc: Global,
        path: &str,
        refuses_links: bool,
    ) -> Result<Result<RegularFile, String>, AllocError> {
        let opened = open_regular(self.files, path).and_then(|file| {
            let metadata = file.metadata()?;
            Ok((file, metadata))
        });
        let (file, metadata) = match opened {
            Ok(opened) => opened,
            Err(error) => return Ok(Err(not_read(alloc, &error)?)),
        };
        if let Some(words) = kind_words(&metadata) {
            return refused(alloc, words);
        }
        match self.named(path, &metadata) {
            Named::ALink if refuses_links => return refused(alloc, A_LINK),
            Named::AnotherFile => return refused(alloc, ANOTHER),
            Named::TheFile | Named::ALink => {}
        }
        let link = match link_out(alloc, self.files, path, &metadata)? {
            FoundLink::Nothing => None,
            FoundLink::Out(link) => Some(link),
            FoundLink::Elsewhere => return refused(alloc, ANOTHER),
        };
        match self.read_filled(alloc, path, file, &metadata)? {
            Ok(bytes) => Ok(Ok(RegularFile { bytes, link })),
            Err(why) => Ok(Err(why)),
        }
    }

    /// The bytes of a file that was opened by a path, of which the system says this. One of no length is not read: the system
    /// has files of its own that look so, and some of them make who reads them wait.
    fn read_filled(
        &mut self,
        alloc: Global,
        path: &str,
        file: F::File,
        metadata: &Metadata,
    ) -> Result<Result<Vec<u8>, String>, AllocError> {
        if metadata.len() == 0 {
            self.remember(alloc, path, &file)?;
            return Ok(Ok(Vec::new(alloc)));
        }
        self.read_opened(alloc, path, file)
    }

    /// What has a path now, by which a file was opened of which the system says this.
    fn named(&self, path: &str, opened: &Metadata) -> Named {
        match self.files.symlink_metadata(path) {
            Ok(found) if found.is_symlink() => Named::ALink,
            Ok(found) if is_same(&found, opened) => Named::TheFile,
            Ok(_) | Err(_) => Named::AnotherFile,
        }
    }
}

/// Whether both are of one file that keeps what is written to it.
pub(crate) fn is_same(one: &Metadata, other: &Metadata) -> bool {
    match (FileIdentity::of(one), FileIdentity::of(other)) {
        (Some(one), Some(other)) => one == other,
        (None, _) | (_, None) => false,
    }
}

/// Opens a file for reading. (For writing too, if that may be: then nothing waits if a FIFO has come to stand there.)
fn open_regular<F: Files>(files: &F, path: &str) -> Result<F::File, Error> {
    let mut options = OpenOptions::new();
    options.read(true).write(true);
    match options.open(files, path) {
        Ok(file) => Ok(file),
        Err(_) => fs::open(files, path),
    }
}

/// What is said of something that is no regular file.
fn kind_words(metadata: &Metadata) -> Option<&'static str> {
    if metadata.is_file() {
        None
    } else if metadata.is_dir() {
        Some("it is a folder")
    } else {
        Some("it is no regular file")
    }
}

/// These words, as why a file is not read.
fn refused<T: Drop>(alloc: Global, words: &str) -> Result<Result<T, String>, AllocError> {
    Ok(Err(String::from_str(alloc, words)?))
}
