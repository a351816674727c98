//! The schedules of runs that evade a condition, as files.

use crate::evading_text::{EvadingProgram, ShownEvasion};
use crate::waiting_files::ROUNDS;
use crate::written_files::WrittenFiles;
use processor::Step;
use search_texts::parts::{Inputs, LabFault};
use search_texts::searches::endless::answered::RunEnd;
use std::alloc::{AllocError, Global};
use std::io::Read;
use std::rt::Files;
use trace_text::write_schedule;

/// Writes for each condition that not all runs keep two schedules into a folder, as `evading_1_stem.schedule` and
/// `evading_1.schedule`: the one that leads to where a run begins to evade it, and the whole run, with its round twice.
pub(crate) fn keep_evasions<F: Files, R: Read>(
    alloc: Global,
    inputs: &Inputs<'_, F, R>,
    folder: &str,
    program: EvadingProgram<'_>,
    written: &mut WrittenFiles,
) -> Result<(), LabFault> {
    for place in 0..program.count() {
        if let Some(shown) = program.evasion_at(place) {
            let number = place.saturating_add(1);
            let stem = format!(in alloc; "{folder}/evading_{number}_stem.schedule")?;
            let text = write_schedule(alloc, &shown.run.stem)?;
            written.keep(inputs.write_derived(alloc, &stem, text.as_bytes()))?;
            let whole = evading_path(alloc, folder, place)?;
            let text = write_schedule(alloc, &whole_run(alloc, shown)?)?;
            written.keep(inputs.write_derived(alloc, &whole, text.as_bytes()))?;
        }
    }
    Ok(())
}

/// The file with the whole run that evades the condition at a place.
pub(crate) fn evading_path(
    alloc: Global,
    folder: &str,
    place: usize,
) -> Result<String, AllocError> {
    let number = place.saturating_add(1);
    format!(in alloc; "{folder}/evading_{number}.schedule")
}

/// The steps of a run, with its round twice.
fn whole_run(alloc: Global, shown: ShownEvasion<'_>) -> Result<Vec<Step>, AllocError> {
    let mut steps = Vec::from_slice(alloc, &shown.run.stem)?;
    steps.extend_from_slice(&shown.run.way)?;
    if let RunEnd::Repeats(round) = &shown.run.end {
        for _ in 0..ROUNDS {
            steps.extend_from_slice(round)?;
        }
    }
    Ok(steps)
}
