//! The schedules of streams that can wait forever, as files.

use crate::written_files::WrittenFiles;
use processor::Step;
use search_texts::parts::{Inputs, LabFault};
use search_texts::searches::endless::EndlessWaits;
use search_texts::searches::endless::starving::Starving;
use std::alloc::{AllocError, Global};
use std::io::Read;
use std::rt::Files;
use trace_text::write_schedule;

/// How often the round stands in the second file: so a run shows that it comes back.
pub(crate) const ROUNDS: usize = 2;

/// Writes for each stream that can wait forever two schedules into a folder, as `waiting_1.0_stem.schedule` and
/// `waiting_1.0.schedule`: the one that leads to its round, and that one with the round twice.
pub(crate) fn keep_waits<F: Files, R: Read>(
    alloc: Global,
    inputs: &Inputs<'_, F, R>,
    folder: &str,
    waits: Option<&EndlessWaits>,
    written: &mut WrittenFiles,
) -> Result<(), LabFault> {
    let Some(EndlessWaits::Answered(answer)) = waits else {
        return Ok(());
    };
    for starving in &answer.starving {
        let Step { p, s } = starving.stream;
        let stem = format!(in alloc; "{folder}/waiting_{p}.{s}_stem.schedule")?;
        let text = write_schedule(alloc, &starving.stem)?;
        written.keep(inputs.write_derived(alloc, &stem, text.as_bytes()))?;
        let whole = waiting_path(alloc, folder, starving.stream)?;
        let text = write_schedule(alloc, &with_rounds(alloc, starving)?)?;
        written.keep(inputs.write_derived(alloc, &whole, text.as_bytes()))?;
    }
    Ok(())
}

/// The file with the schedule that leads to the round of a stream, and with the round twice.
pub(crate) fn waiting_path(
    alloc: Global,
    folder: &str,
    stream: Step,
) -> Result<String, AllocError> {
    let Step { p, s } = stream;
    format!(in alloc; "{folder}/waiting_{p}.{s}.schedule")
}

/// The schedule that leads to the round of a stream, and the round twice.
fn with_rounds(alloc: Global, starving: &Starving) -> Result<Vec<Step>, AllocError> {
    let mut steps = Vec::from_slice(alloc, &starving.stem)?;
    for _ in 0..ROUNDS {
        steps.extend_from_slice(&starving.round)?;
    }
    Ok(steps)
}
