//! The folders that `explore` writes into: the schedule to each end, and the page of its run.

use crate::end_pages::FoundProgram;
use crate::evading_files::keep_evasions;
use crate::waiting_files::keep_waits;
use crate::written_files::WrittenFiles;
use lab_requests::ExploreRequest;
use search_texts::parts::{Inputs, LabFault};
use space_graphs::ends_of_space::SpaceEnd;
use std::alloc::Global;
use std::io::Read;
use std::rt::Files;
use trace_text::write_schedule;

/// Makes the folders for schedules and for pages, where they are asked for and nothing has their names.
pub(crate) fn make_folders<F: Files, R: Read>(
    alloc: Global,
    inputs: &Inputs<'_, F, R>,
    request: &ExploreRequest,
) -> Result<(), LabFault> {
    make_folder(alloc, inputs, request.keep)?;
    make_folder(alloc, inputs, request.pages)
}

/// Makes a folder, where one is asked for and nothing has its name.
fn make_folder<F: Files, R: Read>(
    alloc: Global,
    inputs: &Inputs<'_, F, R>,
    folder: Option<&str>,
) -> Result<(), LabFault> {
    match folder {
        Some(folder) => inputs.make_folder(alloc, folder),
        None => Ok(()),
    }
}

/// Writes the schedule to each end, those of who can wait forever and of what does not lead to what it is to, and the
/// pages of the runs to the ends, into the folders that are asked for and were made.
pub(crate) fn write_folders<F: Files, R: Read>(
    alloc: Global,
    inputs: &Inputs<'_, F, R>,
    request: &ExploreRequest,
    made: Result<(), LabFault>,
    found: FoundProgram<'_>,
    written: &mut WrittenFiles,
) -> Result<(), LabFault> {
    made?;
    if let Some(folder) = request.keep {
        keep_schedules(alloc, inputs, folder, &found.found.ends, written)?;
        keep_waits(alloc, inputs, folder, found.waits, written)?;
        if let Some(program) = found.evading() {
            keep_evasions(alloc, inputs, folder, program, written)?;
        }
    }
    match request.pages {
        Some(folder) => found.write_pages(alloc, inputs, folder, written),
        None => Ok(()),
    }
}

/// Writes the schedule to each end into a folder, as `1.schedule` and so on.
fn keep_schedules<F: Files, R: Read>(
    alloc: Global,
    inputs: &Inputs<'_, F, R>,
    folder: &str,
    ends: &[SpaceEnd],
    written: &mut WrittenFiles,
) -> Result<(), LabFault> {
    for (index, end) in ends.iter().enumerate() {
        let number = index.saturating_add(1);
        let path = format!(in alloc; "{folder}/{number}.schedule")?;
        let text = write_schedule(alloc, &end.schedule)?;
        written.keep(inputs.write_derived(alloc, &path, text.as_bytes()))?;
    }
    Ok(())
}
