//! Lines of expectations as text.

use expectation_files::Requirements;
use std::alloc::AllocError;

/// Adds the line of the expectation at a place, as it was written.
pub fn push_expected(
    out: &mut String,
    required: &Requirements,
    place: usize,
) -> Result<(), AllocError> {
    match required.end_lines().get(place) {
        Some(line) => out.push_str(&line.words),
        None => Ok(()),
    }
}
