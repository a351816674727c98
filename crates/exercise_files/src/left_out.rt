//! Names that are left out of what a folder has, since they are not UTF-8.

use command_parts::{LabFault, folder_names, slash_after};
use named_files::shown_name;
use plain_text::TextWriter;
use std::alloc::{AllocError, Global};
use std::rt::Files;
use std::str;

/// What is looked for in a folder.
#[derive(Clone, Copy, Debug)]
pub enum LookedFor {
    /// Exercises: names that begin with a number and `_`.
    Exercises,
    /// Names that end so.
    Ending(&'static str),
}

impl LookedFor {
    /// Whether a name is looked for.
    fn has(self, name: &[u8]) -> bool {
        match self {
            LookedFor::Exercises => begins_with_number(name),
            LookedFor::Ending(end) => name.ends_with(end.as_bytes()),
        }
    }
}

/// Whether a name begins with one or more digits, and `_` after them.
fn begins_with_number(name: &[u8]) -> bool {
    match name.iter().position(|byte| !byte.is_ascii_digit()) {
        Some(place) => place > 0 && name.get(place) == Some(&b'_'),
        None => false,
    }
}

/// What is said of names that are left out: a line of each.
#[derive(Drop)]
pub struct LeftOut {
    lines: TextWriter,
}

impl LeftOut {
    /// That nothing is left out yet.
    pub fn none(alloc: Global) -> LeftOut {
        LeftOut {
            lines: TextWriter::new(alloc),
        }
    }

    /// Adds the names of a folder that are looked for and are not UTF-8, in their order. Of a folder that can't be read
    /// nothing is said.
    pub fn add<F: Files>(
        &mut self,
        alloc: Global,
        files: &F,
        folder: &str,
        looked_for: LookedFor,
    ) -> Result<(), LabFault> {
        let names = match folder_names(alloc, files, folder, "") {
            Ok(names) => names,
            Err(LabFault::Words(_)) => return Ok(()),
            Err(fault) => return Err(fault),
        };
        Ok(self.add_names(alloc, &names, folder, looked_for)?)
    }

    /// The same among the entries of a folder, each of which ends with a zero byte.
    fn add_names(
        &mut self,
        alloc: Global,
        entries: &[u8],
        folder: &str,
        looked_for: LookedFor,
    ) -> Result<(), AllocError> {
        let mut shown: Vec<String> = Vec::new(alloc);
        push_shown(alloc, entries, looked_for, &mut shown)?;
        shown.sort()?;
        for name in &shown {
            self.add_name(folder, name);
        }
        Ok(())
    }

    /// Adds a name of a folder, as it is shown.
    fn add_name(&mut self, folder: &str, name: &str) {
        self.lines.put("mta_lab: ");
        self.lines.put_plain(folder);
        self.lines.put(slash_after(folder));
        self.lines.put_plain(name);
        self.lines
            .put(": its name is not UTF-8: rename it to have it read\n");
    }

    /// Why a part was not done; None where no name is left out.
    pub fn fault(self) -> Result<Option<LabFault>, AllocError> {
        let LeftOut { lines } = self;
        let mut lines = lines;
        let lines = lines.take_text()?;
        if lines.is_empty() {
            return Ok(None);
        }
        Ok(Some(LabFault::Lines(lines)))
    }
}

/// Adds the names that are looked for and are not UTF-8, as they are shown, among entries that each end with a zero byte.
fn push_shown(
    alloc: Global,
    entries: &[u8],
    looked_for: LookedFor,
    shown: &mut Vec<String>,
) -> Result<(), AllocError> {
    for name in entries.split(|byte| *byte == 0) {
        if looked_for.has(name) && str::from_utf8(name).is_err() {
            shown.push(shown_name(alloc, name)?)?;
        }
    }
    Ok(())
}
