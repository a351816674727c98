//! Images with the cells of cases.

use expectation_messages::parts::Program;
use grade_rows::judges::{Case, image_by};
use image_file::Image;
use std::alloc::{AllocError, Global};

/// The image of a program with a case's cells; None where the case has none. It has no clause, so what [`image_by`] promises
/// burdens no proof above it.
pub(crate) fn image_given(
    alloc: Global,
    program: &Program,
    case: &Case,
) -> Result<Option<Image>, AllocError> {
    image_by(alloc, &program.image, &program.text, case)
}
