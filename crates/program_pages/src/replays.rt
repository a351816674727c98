//! The page of a program's run.

use expectation_files::Requirements;
use processor::Step;
use schedule_page::replay::{JudgedRun, MOST_STEPS, RunNames, RunVerdict, page_of_run};
use search_texts::ends_in_words::may_wait_at_end;
use search_texts::parts::Program;
use std::alloc::{AllocError, Global};

/// The page of a program's run by these steps, with how its end was judged by what is required; None if they are more than a
/// page shows.
pub fn replay_page(
    alloc: Global,
    names: RunNames,
    verdict: RunVerdict<'_>,
    program: &Program,
    required: &Requirements,
    steps: &[Step],
) -> Result<Option<String>, AllocError> {
    if steps.len() > MOST_STEPS {
        return Ok(None);
    }
    let judged = JudgedRun {
        verdict,
        may_wait: may_wait_at_end(alloc, &program.image, required, steps)?,
    };
    let page = page_of_run(alloc, names, judged, &program.text, &program.image, steps)?;
    Ok(Some(page))
}
