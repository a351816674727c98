//! The run of a page that shows why a program is not right.

use crate::advice::steps_of;
use exercise_advice::judges::Reason;
use exercise_advice::searches::endless::starving::Starving;
use exercise_files::parts::texts::RunPieces;
use plain_text::TextWriter;
use processor::Step;
use std::alloc::{AllocError, Global};
use submission_rows::DecidedByCase;
use submission_rows::reports::GradeRow;

/// The run of a page that shows why a program is not right.
#[derive(Drop)]
pub(crate) struct MistakeRun {
    /// Its steps; none where no run shows it.
    pub steps: Vec<Step>,
    /// The line that it misses, if one says that it is not right.
    pub missed: Option<String>,
}

/// The run of the row of a program, by the case that decides. Where a stream can wait forever, the round in which it does
/// follows once, and the line says so.
pub(crate) fn mistake_run(
    alloc: Global,
    decided: &DecidedByCase,
    row: &GradeRow,
) -> Result<MistakeRun, AllocError> {
    let mut run = MistakeRun {
        steps: steps_of(alloc, &decided.program.image, &row.witness)?,
        missed: missed_text(alloc, decided, row)?,
    };
    if let Some(case) = decided.judgement.deciding()
        && let Reason::Starved(starving) = &case.reason
    {
        run.go_round(alloc, starving)?;
    }
    Ok(run)
}

/// The line that the run of a row misses, if one says that it is not right.
fn missed_text(
    alloc: Global,
    decided: &DecidedByCase,
    row: &GradeRow,
) -> Result<Option<String>, AllocError> {
    let Some(case) = row.cases.get(decided.judgement.worst) else {
        return Ok(None);
    };
    match &case.missed {
        Some(line) => Ok(Some(String::from_str(alloc, &line.text)?)),
        None => Ok(None),
    }
}

impl MistakeRun {
    /// The line that it misses, if one says that it is not right.
    pub(crate) fn missed_line(&self) -> Option<&str> {
        match &self.missed {
            Some(line) => Some(line.as_str()),
            None => None,
        }
    }

    /// Adds the round in which a stream waits, and says so in the line.
    fn go_round(&mut self, alloc: Global, starving: &Starving) -> Result<(), AllocError> {
        self.steps.extend_from_slice(&starving.round)?;
        let mut line = TextWriter::new(alloc);
        if let Some(missed) = &self.missed {
            line.put(missed);
            line.put(": ");
        }
        put_round(&mut line, starving);
        self.missed = Some(line.take_text()?);
        Ok(())
    }
}

/// Adds that the steps of a round can come again and again.
fn put_round(line: &mut TextWriter, starving: &Starving) {
    let stream = starving.stream;
    match starving.round.len() {
        1 => line.put("the last step"),
        steps => {
            line.put("the last ");
            line.put_number(steps as u64);
            line.put(" steps");
        }
    }
    line.put(" can come again and again, and ");
    line.put_stream(stream.p, stream.s);
    line.put(" is blocked at each step of its own");
}
