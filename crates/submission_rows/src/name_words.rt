//! What is said of a submission whose data words are not those of a case, in words.

use crate::case_words::CaseText;
use crate::report_lines::absent_line;
use asked_programs::lacking_words;
use grade_rows::judges::Case;
use std::alloc::{AllocError, Global};

/// Says that a submission of this text lacks the words of a name, which has this place among those of a case's
/// cells.
pub(crate) fn add_lacking(
    alloc: Global,
    case: &Case,
    name: usize,
    text: &[u8],
    shown: &mut CaseText,
) -> Result<(), AllocError> {
    shown.words = lacking_words(alloc, &case.given, name, text)?;
    Ok(())
}

/// Says that a line of a case speaks of a word which the case does not give, or which stands elsewhere in the
/// submission.
pub(crate) fn add_not_given(
    alloc: Global,
    case: &Case,
    line: usize,
    shown: &mut CaseText,
) -> Result<(), AllocError> {
    let path = case.path.as_str();
    shown.words = format!(in alloc;
        "{path}:{line}: it speaks of a word that the case does not give, or that is another one here"
    )?;
    shown.missed = Some(absent_line(alloc, case, line)?);
    Ok(())
}
