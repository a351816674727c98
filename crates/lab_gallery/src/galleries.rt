//! Where a gallery is written, and which levels it has.

use crate::levels::{Level, LevelFile, level_of};
use exercise_files::parts::{Inputs, LabFault, slash_after};
use std::alloc::{AllocError, Global};
use std::io::Read;
use std::rt::Files;

/// Where a gallery is written, and which levels it has.
#[derive(Clone, Copy)]
pub(crate) struct Gallery<'a> {
    /// The folder.
    pub folder: &'a str,
    /// The file of the levels.
    pub file: &'a LevelFile,
    /// The levels.
    pub levels: &'a [Level<'a>],
}

impl Gallery<'_> {
    /// The level of a card, if it has one.
    pub(crate) fn level(&self, card: &str) -> Option<&Level<'_>> {
        self.levels.get(level_of(self.levels, card)?)
    }

    /// What is said of a level that can't be taken.
    pub(crate) fn fault(
        &self,
        alloc: Global,
        level: &Level<'_>,
        why: &str,
    ) -> Result<LabFault, AllocError> {
        self.file.fault(alloc, level.line, why)
    }

    /// Writes a page into the folder. Its name is put together of two parts.
    pub(crate) fn write<F: Files, R: Read>(
        &self,
        alloc: Global,
        inputs: &Inputs<'_, F, R>,
        name: &str,
        end: &str,
        page: &str,
    ) -> Result<(), LabFault> {
        let folder = self.folder;
        let slash = slash_after(folder);
        let path = format!(in alloc; "{folder}{slash}{name}{end}")?;
        inputs.write_derived(alloc, &path, page.as_bytes())
    }
}
