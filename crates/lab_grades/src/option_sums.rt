//! Checksums of what a verdict depends on beside the submission.

use class_results::Checksum;
use lab_requests::Bounds;
use result_lines::checksum_of;
use result_lines::judges::{AskedJudging, Case};
use std::alloc::{AllocError, Global};
use submission_rows::Grading;

/// The checksum of the options that a row depends on, and of the version of the program.
pub(crate) fn options_sum(
    alloc: Global,
    version: &str,
    grading: &Grading<'_, '_>,
) -> Result<Checksum, AllocError> {
    let asked = asked_by(grading);
    let (seeds, most) = (asked.seeds, asked.most);
    let (counts_all, is_hexadecimal) = (asked.counts_all, grading.request.hexadecimal);
    let (is_thorough, needs_names) = (asked.is_thorough, asked.needs_names);
    let mut words = format!(in alloc;
        "version {version}\nseeds {seeds}\nsteps {most}\nall {counts_all}\nhex {is_hexadecimal}\n"
    )?;
    write!(words, "thorough {is_thorough}\nnames {needs_names}\n")?;
    if let Some(bounds) = asked.explored {
        push_bounds(&mut words, bounds)?;
    }
    Ok(checksum_of(words.as_bytes()))
}

/// The checksum of these bytes. It has no clause, so that of [`checksum_of`] burdens no proof above it.
pub(crate) fn sum_of(bytes: &[u8]) -> Checksum {
    checksum_of(bytes)
}

/// What is asked of each submission. It has no clause, so that of `asked` burdens no proof above it.
pub(crate) fn asked_by(grading: &Grading<'_, '_>) -> AskedJudging {
    grading.asked()
}

/// Adds how far a search goes.
fn push_bounds(words: &mut String, bounds: Bounds) -> Result<(), AllocError> {
    let Bounds {
        worlds,
        seconds,
        megabytes,
        megabytes_in_all,
    } = bounds;
    let (seconds, megabytes) = (seconds.unwrap_or(u64::MAX), megabytes.unwrap_or(usize::MAX));
    let in_all = megabytes_in_all.unwrap_or(usize::MAX);
    write!(
        words,
        "states {worlds}\nseconds {seconds}\nmegabytes {megabytes} of {in_all}\n"
    )
}

/// The checksum of cases: of the name of each, its path, which rows repeat, what it expects and the cells that it gives.
pub(crate) fn cases_sum(alloc: Global, cases: &[Case]) -> Result<Checksum, AllocError> {
    let mut all = Vec::new(alloc);
    for case in cases {
        push_sizes(alloc, &mut all, case)?;
        push_case(&mut all, case)?;
    }
    Ok(checksum_of(&all))
}

/// Adds what parts a case has, and how many bytes each of them has.
fn push_sizes(alloc: Global, all: &mut Vec<u8>, case: &Case) -> Result<(), AllocError> {
    let long = match &case.name {
        Some(name) => name.len(),
        None => 0,
    };
    let gives = case.cells.is_some();
    let (expected, given) = (case.expected.len(), case.given.len());
    let (named, path) = (case.name.is_some(), case.path.len());
    let sizes = format!(in alloc; "case {named} {long} {path} {expected} {gives} {given}\n")?;
    all.extend_from_slice(sizes.as_bytes())?;
    Ok(())
}

/// Adds the parts of a case.
fn push_case(all: &mut Vec<u8>, case: &Case) -> Result<(), AllocError> {
    if let Some(name) = &case.name {
        all.extend_from_slice(name.as_bytes())?;
    }
    all.extend_from_slice(case.path.as_bytes())?;
    all.extend_from_slice(&case.expected)?;
    all.extend_from_slice(&case.given)?;
    Ok(())
}
